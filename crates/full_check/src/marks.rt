// The dead marks of a file, as rule 23 asks of them. s holds the tombstones.
ghost use Rattle.std.specs.Prelude.{◌≡◌, ◌+◌, ◌*◌, ◌/◌, ◌≤◌, length};
ghost use Rattle.frame.specs.Kind.{most_edges};
ghost use Rattle.full_check.specs.Full.{dead_from, marks_of};

use lookup::known::mark_at;

// Whether an edge is dead, and whether a bit past the last edge is set.
#[derive(Drop)]
pub struct Marks {
    pub dead: bool,
    pub unused: bool,
}

// Is one of d edges from edge e on dead? Mark by mark.
fn some_dead(s: &[u8], e: usize, d: usize) -> bool
    requires { (e ≤ most_edges) × (d ≤ most_edges) }
    ensures { result ≡ dead_from d s.now e }
{
    for j in 0..d {
        if mark_at(s, e + j) == 1 {
            return true;
        }
    }
    false
}

// Is one of the edges of the first m bytes dead? Eight at a time.
fn bytes_dead(s: &[u8], m: usize) -> bool
    requires { m ≤ length s.now }
    ensures { result ≡ dead_from (8 * m) s.now 0 }
{
    for b in 0..m {
        if s[b] != 0 {
            return true;
        }
    }
    false
}

// Is one of the first n edges dead?
fn edges_dead(s: &[u8], n: usize) -> bool
    requires { (n ≤ most_edges) × (n / 8 ≤ length s.now) }
    ensures { result ≡ dead_from n s.now 0 }
{
    bytes_dead(s, n / 8) || some_dead(s, n / 8 * 8, n % 8)
}

// The marks of n edges, which fill s but for unused bits.
pub fn marks_of(s: &[u8], n: usize) -> Marks
    requires { (n ≤ most_edges) × (length s.now ≡ (n + 7) / 8) }
    ensures { result ≡ marks_of s.now n }
{
    Marks {
        dead: edges_dead(s, n),
        unused: some_dead(s, n, 8 * s.len() - n),
    }
}

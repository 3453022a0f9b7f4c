// The dead edges, from the ones in each tombstone byte.
ghost use Rattle.std.specs.Prelude.{◌≡◌, ◌+◌, ◌*◌, ◌≤◌, length};
ghost use Rattle.frame.specs.Kind.{most_edges};
ghost use Rattle.summary.specs.Bits.{count_dead};

// The dead edges of all bytes of s.
pub fn dead_of(s: &[u8]) -> u64
    requires { length s.now ≤ most_edges }
    ensures { result ≡ count_dead (8 * length s.now) s.now 0 }
{
    let mut dead: u64 = 0;
    for b in s {
        dead += b.count_ones() as u64;
    }
    dead
}

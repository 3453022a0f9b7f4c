// Little-endian numbers, read and written at a place of a slice.
ghost use Rattle.std.specs.Prelude.{min, ◌≡◌, ◌+◌, ◌*◌, ◌^◌, ◌<◌, ◌≤◌, length, get_or};
ghost use Rattle.std.proofs.lemmas.List.Edits.{sets};
ghost use Rattle.codes.specs.Little.{le_at, le_bytes};

// The byte at i.
pub fn byte(s: &[u8], i: usize) -> u64
    requires { i < length s.now }
    ensures { (result ≡ get_or s.now i 0) × (result < 2 ^ 8) }
{
    s[i] as u64
}

// x is the number of the first k of the N bytes at `at`, or of all where there are fewer: here it is with byte k on top.
#[inline(always)]
fn on_top<const N: usize>(s: &[u8], at: usize, k: usize, x: u64) -> u64
    requires { (k < 8) × (N ≤ 8) × (at + N ≤ length s.now) × (x ≡ le_at s.now at (min k N)) }
    ensures { result ≡ le_at s.now at (min (k + 1) N) }
{
    if k < N {
        return x | (s[at + k] as u64) << (8 * k);
    }
    x
}

// The number of the N bytes at `at`, lowest first. It is written out, as of a loop the compiler makes one load too, but only after
// it has decided which of the callers' loops to write out.
pub fn le<const N: usize>(s: &[u8], at: usize) -> u64
    requires { (N ≤ 8) × (at + N ≤ length s.now) }
    ensures value { result ≡ le_at s.now at N }
    ensures bound { result < 2 ^ (8 * N) }
{
    let two = on_top::<N>(s, at, 1, on_top::<N>(s, at, 0, 0));
    let four = on_top::<N>(s, at, 3, on_top::<N>(s, at, 2, two));
    let six = on_top::<N>(s, at, 5, on_top::<N>(s, at, 4, four));
    on_top::<N>(s, at, 7, on_top::<N>(s, at, 6, six))
}

// Writes the n low bytes of x at `at`, the lowest first.
pub fn put_le(out: &mut [u8], at: usize, n: usize, x: u64)
    requires { at + n ≤ length out.old }
    ensures { out.new ≡ sets out.old at (le_bytes n x) }
{
    let mut y = x;
    for k in 0..n {
        out[at + k] = (y % 256) as u8;
        y = y / 256;
    }
}

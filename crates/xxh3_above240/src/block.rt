// A block of sixteen stripes, written out, so that the compiler knows which bytes of the secret each stripe takes
// and has them as constants. The block ends at `to` in s, or would: stripe J begins 64 * (16 - J) bytes before that. A stripe joins the
// state if it is before stripe `end` and does not begin before s, as the block may.
ghost use Rattle.std.specs.Prelude.{◌≡◌, ◌+◌, ◌*◌, ◌<◌, ◌≤◌, length};
ghost use Rattle.xxh3_spec.specs.Xxh3.{secret};
ghost use Rattle.xxh3_above240.specs.Block.{stripe_in, stripes_in};

use super::large::accumulate;

// The state a after stripe J.
fn stripe<const J: usize>(a: [u64; 8], s: &[u8], to: usize, end: usize) -> [u64; 8]
    requires { (J < 16) × (to + 64 * end ≤ length s.now + 1024) }
    ensures { result ≡ stripe_in secret s.now to end J a }
{
    if end <= J {
        return a;
    }
    if to < 64 * (16 - J) {
        return a;
    }
    accumulate(a, s, to - 64 * (16 - J), 8 * J)
}

// The state a after all stripes of the block.
pub(crate) fn block(a: [u64; 8], s: &[u8], to: usize, end: usize) -> [u64; 8]
    requires { to + 64 * end ≤ length s.now + 1024 }
    ensures { result ≡ stripes_in secret s.now to end 0 16 a }
{
    let a1 = stripe::<0>(a, s, to, end);
    let a2 = stripe::<1>(a1, s, to, end);
    let a3 = stripe::<2>(a2, s, to, end);
    let a4 = stripe::<3>(a3, s, to, end);
    let a5 = stripe::<4>(a4, s, to, end);
    let a6 = stripe::<5>(a5, s, to, end);
    let a7 = stripe::<6>(a6, s, to, end);
    let a8 = stripe::<7>(a7, s, to, end);
    let a9 = stripe::<8>(a8, s, to, end);
    let a10 = stripe::<9>(a9, s, to, end);
    let a11 = stripe::<10>(a10, s, to, end);
    let a12 = stripe::<11>(a11, s, to, end);
    let a13 = stripe::<12>(a12, s, to, end);
    let a14 = stripe::<13>(a13, s, to, end);
    let a15 = stripe::<14>(a14, s, to, end);
    stripe::<15>(a15, s, to, end)
}

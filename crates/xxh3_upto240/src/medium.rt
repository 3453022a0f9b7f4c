// Lengths 17 to 240. From the lengths that callers pass on the compiler knows that no loop has more than eight turns: it unrolls them, and
// has the words of the secret as constants.
ghost use Rattle.std.specs.Prelude.{◌≡◌, ◌+◌, ◌-◌, ◌*◌, ◌<◌, ◌≤◌, length};
ghost use Rattle.xxh3_spec.specs.Xxh3.{add, secret, mix_step, onward, of17to128, of129to240};

use codes::little::le;
use xxh3_mix::mix::avalanche;
use xxh3_mix::product::{fold, low};
use xxh3_mix::secret::word;

// Sixteen bytes of s from at on, with the secret from k on.
fn mix_step(s: &[u8], at: usize, k: usize) -> u64
    requires { (at + 16 ≤ length s.now) × (k + 16 ≤ 192) }
    ensures { result ≡ mix_step secret s.now at k }
{
    fold(le::<8>(s, at) ^ word(k), le::<8>(s, at + 8) ^ word(k + 8))
}

// h after round i: 16 bytes as far from the start as from the end.
fn round(s: &[u8], i: usize, h: u64) -> u64
    requires { (16 < length s.now) × (32 * i < length s.now) × (i < 4) }
    ensures { result ≡ add (add h (mix_step secret s.now (16 * i) (32 * i))) (mix_step secret s.now (length s.now - 16 * i - 16) (32 * i + 16)) }
{
    let end = s.len() - 16 * i;
    h.wrapping_add(mix_step(s, 16 * i, 32 * i))
        .wrapping_add(mix_step(s, end - 16, 32 * i + 16))
}

// The sum of 17 to 128 bytes: pairs of 16, from both ends inwards.
pub fn of17to128(s: &[u8]) -> u64
    requires { (16 < length s.now) × (length s.now ≤ 128) }
    ensures { result ≡ of17to128 secret s.now }
{
    let n = s.len();
    let mut h = low(n as u64, 0x9e37_79b1_85eb_ca87);
    for i in 0..(n - 1) / 32 + 1 {
        h = round(s, i, h);
    }
    avalanche(h)
}

// g after n rounds of 16 bytes, from at on, with the secret from k on.
fn onward(s: &[u8], at: usize, k: usize, n: usize, g: u64) -> u64
    requires { (at + 16 * n ≤ length s.now) × (k + 16 * n ≤ 192) }
    ensures { result ≡ onward secret s.now at k n g }
{
    let mut h = g;
    for i in 0..n {
        h = h.wrapping_add(mix_step(s, at + 16 * i, k + 16 * i));
    }
    h
}

// The sum of 129 to 240 bytes: blocks of 16, and the last 16.
pub fn of129to240(s: &[u8]) -> u64
    requires { (128 < length s.now) × (length s.now ≤ 240) }
    ensures { result ≡ of129to240 secret s.now }
{
    let n = s.len();
    let x = onward(s, 0, 0, 8, low(n as u64, 0x9e37_79b1_85eb_ca87));
    let y = onward(s, 128, 3, n / 16 - 8, avalanche(x));
    avalanche(y.wrapping_add(mix_step(s, n - 16, 119)))
}

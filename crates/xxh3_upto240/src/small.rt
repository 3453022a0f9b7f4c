// Lengths 0 to 16.
ghost use Rattle.std.specs.Prelude.{◌≡◌, ◌<◌, ◌≤◌, length};
ghost use Rattle.xxh3_spec.specs.Xxh3.{of1to3, of4to8, of9to16, small};

use codes::little::{byte, le};
use xxh3_mix::mix::{avalanche, avalanche64, rrmxmx, swap};
use xxh3_mix::product::fold;
use xxh3_mix::secret::{half_word, word};

// The sum of at most 16 bytes, by how many there are.
pub fn small(s: &[u8]) -> u64
    requires { length s.now ≤ 16 }
    ensures { result ≡ small s.now }
{
    let n = s.len();
    if 8 < n {
        return of9to16(s);
    }
    if 3 < n {
        return of4to8(s);
    }
    if 0 < n {
        return of1to3(s);
    }
    avalanche64(word(56) ^ word(64))
}

// One to three bytes: the last, the length, the first and the middle one.
fn of1to3(s: &[u8]) -> u64
    requires { (0 < length s.now) × (length s.now ≤ 3) }
    ensures { result ≡ of1to3 s.now }
{
    let n = s.len();
    let x = byte(s, n - 1)
        + (n as u64) * 0x100
        + byte(s, 0) * 0x1_0000
        + byte(s, n / 2) * 0x100_0000;
    avalanche64(x ^ (half_word(0) ^ half_word(4)))
}

// The last four and the first four.
fn of4to8(s: &[u8]) -> u64
    requires { (3 < length s.now) × (length s.now ≤ 8) }
    ensures { result ≡ of4to8 s.now }
{
    let n = s.len();
    let x = le::<4>(s, n - 4) + le::<4>(s, 0) * 0x1_0000_0000;
    rrmxmx(x ^ (word(8) ^ word(16)), n as u64)
}

// The first eight and the last eight.
fn of9to16(s: &[u8]) -> u64
    requires { (8 < length s.now) × (length s.now ≤ 16) }
    ensures { result ≡ of9to16 s.now }
{
    let n = s.len();
    let a = le::<8>(s, 0) ^ (word(24) ^ word(32));
    let b = le::<8>(s, n - 8) ^ (word(40) ^ word(48));
    avalanche(
        (n as u64)
            .wrapping_add(swap(a))
            .wrapping_add(b)
            .wrapping_add(fold(a, b)),
    )
}

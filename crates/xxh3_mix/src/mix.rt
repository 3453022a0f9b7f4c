// Rotations, shifts and the final mixes.
ghost use Rattle.std.specs.Prelude.{◌≡◌, ◌+◌, ◌*◌, ◌/◌, ◌%◌, ◌^◌, ◌<◌, ◌≤◌};
ghost use Rattle.xxh3_spec.specs.Xxh3.{mul, xorshift, rotl, swap, avalanche, avalanche64, rrmxmx};

use super::product::low;

// x with its own upper bits, k lower, laid over it.
pub fn xorshift(x: u64, k: u32) -> u64
    requires { k < 64 }
    ensures { result ≡ xorshift k x }
{
    x ^ (x >> k)
}

// x turned left by k bits.
pub fn rotl(x: u64, k: u32) -> u64
    requires { (0 < k) × (k < 64) }
    ensures { result ≡ rotl k x }
{
    x.rotate_left(k)
}

// The eight bytes of x in the other order.
pub fn swap(x: u64) -> u64
    ensures { result ≡ swap x }
{
    x.swap_bytes()
}

// The final mix of XXH3.
pub fn avalanche(h: u64) -> u64
    ensures { result ≡ avalanche h }
{
    xorshift(low(xorshift(h, 37), 0x1656_6791_9e37_79f9), 32)
}

// The final mix of XXH64, for at most 3 bytes.
pub fn avalanche64(h: u64) -> u64
    ensures { result ≡ avalanche64 h }
{
    let x = low(xorshift(h, 33), 0xc2b2_ae3d_27d4_eb4f);
    let y = low(xorshift(x, 29), 0x1656_67b1_9e37_79f9);
    xorshift(y, 32)
}

// The mix of 4 to 8 bytes, n of them.
pub fn rrmxmx(h: u64, n: u64) -> u64
    requires { n ≤ 8 }
    ensures { result ≡ rrmxmx h n }
{
    let y = low(h ^ rotl(h, 49) ^ rotl(h, 24), 0x9fb2_1c65_1e98_df25);
    xorshift(low(y ^ ((y >> 35) + n), 0x9fb2_1c65_1e98_df25), 28)
}

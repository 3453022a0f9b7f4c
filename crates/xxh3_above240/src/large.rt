// Lengths above 240.
ghost use Rattle.std.specs.Prelude.{◌≡◌, ◌+◌, ◌*◌, ◌^◌, ◌<◌, ◌≤◌, length};
ghost use Rattle.xxh3_spec.specs.Xxh3.{lane, accumulate, stir, scramble, run_on, start_lanes, twice, merge, finish, large, secret};

use super::block::block;
use codes::little::le;
use xxh3_mix::mix::{avalanche, xorshift};
use xxh3_mix::product::{fold, low};
use xxh3_mix::secret::word;

// The number a of lane j after the 64 bytes of s from at on, with the secret from k on. o is the lane beside j.
fn lane(a: u64, s: &[u8], at: usize, k: usize, j: usize, o: usize) -> u64
    requires { (at + 64 ≤ length s.now) × (k + 64 ≤ 192) × (j < 8) × (o < 8) }
    ensures { result ≡ lane secret a s.now at k j o }
{
    let x = le::<8>(s, at + 8 * j) ^ word(k + 8 * j);
    a.wrapping_add(le::<8>(s, at + 8 * o))
        .wrapping_add((x % 0x1_0000_0000) * (x / 0x1_0000_0000))
}

// The state after the 64 bytes of s from at on, with the secret from k on.
// Stays written out, lane by lane: in this form the compiler works on two lanes at once.
pub(crate) fn accumulate(a: [u64; 8], s: &[u8], at: usize, k: usize) -> [u64; 8]
    requires { (at + 64 ≤ length s.now) × (k + 64 ≤ 192) }
    ensures { result ≡ accumulate secret a s.now at k }
{
    [
        lane(a[0], s, at, k, 0, 1),
        lane(a[1], s, at, k, 1, 0),
        lane(a[2], s, at, k, 2, 3),
        lane(a[3], s, at, k, 3, 2),
        lane(a[4], s, at, k, 4, 5),
        lane(a[5], s, at, k, 5, 4),
        lane(a[6], s, at, k, 6, 7),
        lane(a[7], s, at, k, 7, 6),
    ]
}

// The number a of lane j after a whole block.
fn stir(a: u64, j: usize) -> u64
    requires { j < 8 }
    ensures { result ≡ stir secret a j }
{
    low(xorshift(a, 47) ^ word(128 + 8 * j), 0x9e37_79b1)
}

// The state after a whole block. Stays written out, as `accumulate`.
fn scramble(a: [u64; 8]) -> [u64; 8]
    ensures { result ≡ scramble secret a }
{
    [
        stir(a[0], 0),
        stir(a[1], 1),
        stir(a[2], 2),
        stir(a[3], 3),
        stir(a[4], 4),
        stir(a[5], 5),
        stir(a[6], 6),
        stir(a[7], 7),
    ]
}

// Two lanes folded, with the secret from k on.
fn twice(x: u64, y: u64, k: usize) -> u64
    requires { k + 16 ≤ 192 }
    ensures { result ≡ twice secret x y k }
{
    fold(x ^ word(k), y ^ word(k + 8))
}

// The sum of n bytes from the state after all of them.
fn merge(a: [u64; 8], n: u64) -> u64
    ensures { result ≡ merge secret a n }
{
    avalanche(
        low(n, 0x9e37_79b1_85eb_ca87)
            .wrapping_add(twice(a[0], a[1], 11))
            .wrapping_add(twice(a[2], a[3], 27))
            .wrapping_add(twice(a[4], a[5], 43))
            .wrapping_add(twice(a[6], a[7], 59)),
    )
}

// The state before the first stripe.
pub const START_LANES: [u64; 8] = [
    0xc2b2_ae3d,
    0x9e37_79b1_85eb_ca87,
    0xc2b2_ae3d_27d4_eb4f,
    0x1656_67b1_9e37_79f9,
    0x85eb_ca77_c2b2_ae63,
    0x85eb_ca77,
    0x27d4_eb2f_1656_67c5,
    0x9e37_79b1,
];

// The state a after n stripes of s, the first of them stripe k of all: the long step of both sums. It goes by blocks, and s may
// begin and end within one. `to` is where the block ends in s, and `end` how many stripes there are from its start to the end of all n.
pub fn lanes_after(a: [u64; 8], s: &[u8], k: usize, n: usize) -> [u64; 8]
    requires { (64 * n ≤ length s.now) × (k < 2 ^ 60) }
    ensures { result ≡ run_on secret a s.now k n }
{
    let mut r = a;
    let mut to = 1024 - 64 * (k % 16);
    let mut end = k % 16 + n;
    // Stays a loop by hand: a block may begin before the stripes and end after them, so there is one more than a range would count.
    loop {
        let x = block(r, s, to, end);
        if end < 16 {
            return x;
        }
        let next = scramble(x);
        r = next;
        to += 1024;
        end -= 16;
    }
}

// The end of both sums: the sum of n bytes, the last 64 of which are `last`, where a is the state after all stripes before the last byte.
pub fn sum_after(a: [u64; 8], last: &[u8], n: u64) -> u64
    requires { 64 ≤ length last.now }
    ensures { result ≡ finish secret a last.now 0 n }
{
    merge(accumulate(a, last, 0, 121), n)
}

// The state after the first stripe of s.
fn first_stripe(s: &[u8]) -> [u64; 8]
    requires { 64 ≤ length s.now }
    ensures { result ≡ accumulate secret start_lanes s.now 0 0 }
{
    accumulate(START_LANES, s, 0, 0)
}

// The checksum with the default secret. The first stripe goes before the long step, as START_LANES would be laid in memory for it by
// stores of 8 bytes, and its loads of 16 would have to wait for them.
pub fn by_default(s: &[u8]) -> u64
    requires { 240 < length s.now }
    ensures { result ≡ large secret s.now }
{
    let n = s.len();
    let a = lanes_after(first_stripe(s), &s[64..], 1, (n - 1) / 64 - 1);
    sum_after(a, &s[n - 64..], n as u64)
}

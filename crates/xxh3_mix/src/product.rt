// Products of two u64: the low half, the high half, and the two folded by xor.
ghost use Rattle.std.specs.Prelude.{◌≡◌, ◌*◌, ◌/◌, ◌^◌};
ghost use Rattle.xxh3_spec.specs.Xxh3.{mul, fold};

// The lower half of a * b.
pub fn low(a: u64, b: u64) -> u64
    ensures { result ≡ mul a b }
{
    a.wrapping_mul(b)
}

// The upper half of a * b.
pub fn high(a: u64, b: u64) -> u64
    ensures { result ≡ a * b / 2 ^ 64 }
{
    ((a as u128 * b as u128) >> 64) as u64
}

// The two halves of a * b, folded.
pub fn fold(a: u64, b: u64) -> u64
    ensures { result ≡ fold a b }
{
    low(a, b) ^ high(a, b)
}

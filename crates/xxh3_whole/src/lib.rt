// XXH3-64 with seed 0 and the default secret, of bytes that are all at hand: the checksum of every section and of the footer.
#![tactic(auto)]

ghost use Rattle.std.specs.Prelude.{◌≡◌};
ghost use Rattle.xxh3_spec.specs.Xxh3.{xxh3};

use xxh3_above240::large::by_default;
use xxh3_upto240::medium::{of17to128, of129to240};
use xxh3_upto240::small::small;

// The sum of all of s, by how many bytes there are. It stands whole in the code of each caller: short sums are three times as long
// where two callers share it.
#[inline(always)]
pub fn by_length(s: &[u8]) -> u64
    ensures { result ≡ xxh3 s.now }
{
    let n = s.len();
    if n <= 16 {
        return small(s);
    }
    if n <= 128 {
        return of17to128(s);
    }
    if n <= 240 {
        return of129to240(s);
    }
    by_default(s)
}

// The sum of all of s.
pub fn xxh3(s: &[u8]) -> u64
    ensures { result ≡ xxh3 s.now }
{
    by_length(s)
}

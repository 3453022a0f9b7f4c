// The start index: how many edges stand before each group, and after the last one the edge count.
ghost use Rattle.std.specs.Prelude.{◌≡◌, ◌+◌, ◌*◌, ◌≤◌, length, Err};
ghost use Rattle.frame.specs.Kind as kind;
ghost use Rattle.frame.specs.Open.{start_at, starts_check};

use super::rising::rising;
use codes::little::le;
use frame::kind::Starts;
use refusal::Refusal;

// Entry i.
pub fn start_at(starts: &[u8], i: usize) -> u64
    requires { (i ≤ kind.most_keys) × (kind.starts_len i ≤ length starts.now) }
    ensures { result ≡ start_at starts.now i }
{
    le::<8>(starts, i * (Starts::ROW as usize))
}

// Rule 37 of n + 1 entries: the first is 0, each is above the one before, the last is the edge count.
pub fn starts_check(starts: &[u8], n: usize, edges: u64) -> Result<(), Refusal>
    requires { (n ≤ kind.most_keys) × (kind.starts_len n ≤ length starts.now) }
    ensures { result ≡ starts_check starts.now n edges }
{
    rising::<8>(starts, n, edges).map_err(|index| Refusal::Start { index })
}

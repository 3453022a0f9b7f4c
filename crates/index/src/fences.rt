// Fences: every stride-th key, with its place among the keys. Rule 15.
ghost use Rattle.std.specs.Prelude.{◌≡◌, ◌+◌, ◌*◌, ◌≤◌, ◌<◌, length};
ghost use Rattle.frame.specs.Kind as kind;
ghost use Rattle.frame.specs.Open.{fence_good, fences_from, fences_good};

use super::keys::key_at;
use codes::ids::{id_at, same_id};
use codes::little::le;
use frame::kind::{Fences, Keys};

// Is fence i key i * stride, and its place?
#[tactic(auto, unfolding(frame::specs::Open::fence_good))]
fn fence_good(x: &[u8], keys: &[u8], stride: usize, i: usize) -> bool
    requires { (i ≤ kind.most_keys) × (i * stride ≤ kind.most_keys) × (kind.fences_len (i + 1) ≤ length x.now) × (i * stride * kind.key_size + kind.key_size ≤ length keys.now) }
    ensures { result ≡ fence_good x.now keys.now stride i }
{
    let k = i * stride;
    let at = (Fences::HEAD as usize) + (Fences::ROW as usize) * i;
    same_id(id_at(x, at), key_at(keys, k))
        && le::<8>(x, at + (Keys::ROW as usize)) == Keys::ROW * (k as u64)
}

// Are all `count` fences good? The last of them is still one of the n keys.
fn all_good(x: &[u8], keys: &[u8], n: usize, stride: usize, count: usize) -> bool
    requires { (n ≤ kind.most_keys) × (count ≤ n) × (count * stride < n + stride) × (kind.fences_len count ≤ length x.now) × (n * kind.key_size ≤ length keys.now) }
    ensures { result ≡ fences_from count x.now keys.now stride 0 }
{
    for i in 0..count {
        if !fence_good(x, keys, stride, i) {
            return false;
        }
    }
    true
}

// Rule 15: the stride is at least 1, the count is that of n keys divided by the stride, rounded up, the fences fill the
// section x, and each is good.
#[tactic(auto, unfolding(frame::specs::Open::fences_good))]
pub fn fences_good(x: &[u8], keys: &[u8], n: usize) -> bool
    requires { (n ≤ kind.most_keys) × (n * kind.key_size ≤ length keys.now) }
    ensures { result ≡ fences_good x.now keys.now n }
{
    let head = Fences::HEAD as usize;
    if x.len() < head {
        return false;
    }
    let stride = le::<4>(x, 0) as usize;
    let count = le::<4>(x, 4) as usize;
    if stride < 1
        || count != n.div_ceil(stride)
        || x.len() != head + (Fences::ROW as usize) * count
    {
        return false;
    }
    all_good(x, keys, n, stride, count)
}

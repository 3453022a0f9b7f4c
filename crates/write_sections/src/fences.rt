// Fences, taken from the keys that are written already.
ghost use Rattle.std.specs.Prelude.{◌≡◌, ◌+◌, ◌*◌, ◌≤◌, length};
ghost use Rattle.base.specs.Put.{Put};
ghost use Rattle.frame.specs.Kind as kind;
ghost use Rattle.write_image.specs.Image.{fence_bytes, fence_keys_from, fences_of};
ghost use Rattle.write_sections.specs.Ids.{ids_at};

use codes::ids::{Id, id_at, put_id};
use codes::little::put_le;
use frame::kind::{Fences, Keys};

// Writes fence i.
fn put_fence(out: &mut [u8], at: usize, key: Id, i: usize) -> usize
    requires { (i ≤ kind.most_edges) × (at + kind.fence_size ≤ length out.old) }
    ensures { Put out.old out.new at result (fence_bytes key i) }
{
    put_id(out, at, key);
    put_le(
        out,
        at + (Keys::ROW as usize),
        8,
        ((Keys::ROW as usize) * (i * Fences::STRIDE)) as u64,
    );
    at + (Fences::ROW as usize)
}

// Writes so many fences of the keys that stand in out from `first` on, below `at`.
fn put_rows(out: &mut [u8], first: usize, keys: usize, count: usize, at: usize) -> usize
    requires { (count ≡ kind.fence_count keys) × (keys ≤ kind.most_edges) × (first + kind.keys_len keys ≤ at) × (at + length (fence_keys_from count (ids_at keys out.old first) 0) ≤ length out.old) }
    ensures { Put out.old out.new at result (fence_keys_from count (ids_at keys out.old first) 0) }
{
    let mut to = at;
    for i in 0..count {
        let key = id_at(out, first + (Keys::ROW as usize) * (i * Fences::STRIDE));
        to = put_fence(out, to, key, i);
    }
    to
}

// Stride, count and fences.
pub fn put_fences(out: &mut [u8], first: usize, keys: usize, at: usize) -> usize
    requires { (keys ≤ kind.most_edges) × (first + kind.keys_len keys ≤ at) × (at + length (fences_of (ids_at keys out.old first)) ≤ length out.old) }
    ensures { Put out.old out.new at result (fences_of (ids_at keys out.old first)) }
{
    let count = Fences::count(keys);
    put_le(out, at, 4, Fences::STRIDE as u64);
    put_le(out, at + 4, 4, count as u64);
    put_rows(out, first, keys, count, at + (Fences::HEAD as usize))
}

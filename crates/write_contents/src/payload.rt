// The sections, one after the other.
ghost use Rattle.std.specs.Prelude.{◌≡◌, ◌+◌, ◌≤◌, [], ◌++◌, length};
ghost use Rattle.base.specs.Pick.{pick};
ghost use Rattle.base.specs.Put.{Put};
ghost use Rattle.frame.specs.Kind.{keys_len, most_edges};
ghost use Rattle.frame.specs.Layout.{payload};
ghost use Rattle.batch_groups.specs.Groups.{groups_of};
ghost use Rattle.write_image.specs.Image.{log_bytes, tomb_bytes, fences_of, fenced, start_bytes, indexed, sections_by};
ghost use Rattle.write_sections.specs.Ids.{ids_at};
ghost use Rattle.write_sections.specs.Asked.{Placed};
ghost use Rattle.batch.specs.Batch.{edges_of};

use frame::bounds::Bounds;
use write_plan::Plan;
use write_sections::by_edge::{put_logs, put_logs_tombs};
use write_sections::by_key::put_groups;
use write_sections::fences::put_fences;
use write_sections::starts::put_starts;

// The log numbers, and the tombstones behind them if an edge is dead.
fn put_by_edge(batch: &[u8], n: usize, dead: bool, out: &mut [u8], at: usize) -> usize
    requires { (n ≡ length (edges_of batch.now)) × (n ≤ most_edges) × (at + length (log_bytes (edges_of batch.now) ++ pick dead (tomb_bytes (edges_of batch.now)) []) ≤ length out.old) }
    ensures { Put out.old out.new at result (log_bytes (edges_of batch.now) ++ pick dead (tomb_bytes (edges_of batch.now)) []) }
{
    if dead {
        return put_logs_tombs(batch, n, out, at);
    }
    put_logs(batch, 0, n, out, at)
}

// The fences, if there are so many keys.
fn put_fences_if(out: &mut [u8], first: usize, keys: usize, at: usize) -> usize
    requires { (keys ≤ most_edges) × (first + keys_len keys ≤ at) × (at + length (pick (fenced keys) (fences_of (ids_at keys out.old first)) []) ≤ length out.old) }
    ensures { Put out.old out.new at result (pick (fenced keys) (fences_of (ids_at keys out.old first)) []) }
{
    if (Bounds::UNFENCED as usize) < keys {
        return put_fences(out, first, keys, at);
    }
    at
}

// The same of the start index.
fn put_starts_if(batch: &[u8], n: usize, keys: usize, out: &mut [u8], at: usize) -> usize
    requires { (n ≡ length (edges_of batch.now)) × (at + length (pick (indexed keys) (start_bytes (groups_of (edges_of batch.now))) []) ≤ length out.old) }
    ensures { Put out.old out.new at result (pick (indexed keys) (start_bytes (groups_of (edges_of batch.now))) []) }
{
    if (Bounds::UNINDEXED as usize) < keys {
        return put_starts(batch, n, out, at);
    }
    at
}

// From `at` on. Answers the place after them.
pub fn put_payload(batch: &[u8], plan: Plan, out: &mut [u8], at: usize) -> usize
    requires { Placed (edges_of batch.now) plan.edges plan.keys plan.width at (length (payload (sections_by plan.keys plan.width plan.dead (edges_of batch.now) (groups_of (edges_of batch.now))))) out.old }
    ensures { Put out.old out.new at result (payload (sections_by plan.keys plan.width plan.dead (edges_of batch.now) (groups_of (edges_of batch.now)))) }
{
    let n = plan.edges;
    let keys = plan.keys;
    let p = put_groups(batch, n, keys, plan.width, out, at);
    let q = put_by_edge(batch, n, plan.dead, out, p);
    let r = put_fences_if(out, at, keys, q);
    put_starts_if(batch, n, keys, out, r)
}

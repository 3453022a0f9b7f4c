// The footer body, over the sections that stand in the output from 64 on.
ghost use Rattle.std.specs.Prelude.{◌+◌, ◌*◌, ◌≤◌, [], length};
ghost use Rattle.base.specs.Pick.{pick};
ghost use Rattle.base.specs.Put.{Put};
ghost use Rattle.frame.specs.Kind.{tombstones, fences, starts, header_size, entry_size, keys_len, offsets_len, logs_len, most_edges, most_bytes};
ghost use Rattle.write_image.specs.Image.{fenced, indexed};
ghost use Rattle.write_frame.specs.Standing.{entry_in, entries_in, total};
ghost use Rattle.write_plan.specs.Size.{tomb_size, fences_size, starts_size, sections_size};
ghost use Rattle.write_plan.specs.Parts.{four, last_by};
ghost use Rattle.write_contents.specs.Footer.{body_in};

use codes::little::put_le;
use frame::bounds::Bounds;
use frame::ends::Header;
use frame::kind::{Fences, Keys, Logs, Offsets, Partners, Starts, Tombstones};
use write_frame::{put_counts, put_entry};
use write_plan::{Plan, fences_size, section_count, tomb_size};

// The entries of keys, offsets, partners and log numbers.
fn put_four(out: &mut [u8], at: usize, plan: Plan) -> usize
    requires { (header_size + (keys_len plan.keys + (offsets_len plan.keys plan.width + (plan.partners + logs_len plan.edges))) ≤ at) × (at + 4 * entry_size ≤ length out.old) × (at ≤ 2147483648) × (plan.width ≤ 4) }
    ensures { Put out.old out.new at result (entries_in out.old header_size (four plan.keys plan.width plan.partners plan.edges)) }
{
    let keys = plan.keys;
    let partners = plan.partners;
    let offsets = Header::SIZE + (Keys::ROW as usize) * keys;
    let parts = offsets + (keys + 1) * plan.width;
    let logs = parts + partners;
    let p = put_entry(out, at, Keys::entry(Header::SIZE as u64, keys as u64));
    let q = put_entry(
        out,
        p,
        Offsets::entry(offsets as u64, keys as u64, plan.width as u64),
    );
    let r = put_entry(out, q, Partners::entry(parts as u64, partners as u64));
    put_entry(out, r, Logs::entry(logs as u64, plan.edges as u64))
}

// The entry of the tombstones that stand from `start` on, if they are there.
fn put_tombs_entry(out: &mut [u8], at: usize, start: usize, n: usize, dead: bool) -> usize
    requires { (n ≤ most_edges) × (start + tomb_size n dead ≤ length out.old) × (at + length (pick dead (entry_in out.old tombstones start (tomb_size n dead)) []) ≤ length out.old) × (at ≤ 4294967296) }
    ensures { Put out.old out.new at result (pick dead (entry_in out.old tombstones start (tomb_size n dead)) []) }
{
    if dead {
        return put_entry(out, at, Tombstones::entry(start as u64, n as u64));
    }
    at
}

// The same of the fences.
fn put_fences_entry(out: &mut [u8], at: usize, start: usize, keys: usize) -> usize
    requires { (keys ≤ most_edges) × (start + fences_size keys ≤ length out.old) × (at + length (pick (fenced keys) (entry_in out.old fences start (fences_size keys)) []) ≤ length out.old) × (at ≤ 4294967296) }
    ensures { Put out.old out.new at result (pick (fenced keys) (entry_in out.old fences start (fences_size keys)) []) }
{
    if (Bounds::UNFENCED as usize) < keys {
        return put_entry(
            out,
            at,
            Fences::entry(start as u64, Fences::count(keys) as u64),
        );
    }
    at
}

// The same of the start index.
fn put_starts_entry(out: &mut [u8], at: usize, start: usize, keys: usize) -> usize
    requires { (keys ≤ most_edges) × (start + starts_size keys ≤ length out.old) × (at + length (pick (indexed keys) (entry_in out.old starts start (starts_size keys)) []) ≤ length out.old) × (at ≤ 4294967296) }
    ensures { Put out.old out.new at result (pick (indexed keys) (entry_in out.old starts start (starts_size keys)) []) }
{
    if (Bounds::UNINDEXED as usize) < keys {
        return put_entry(out, at, Starts::entry(start as u64, keys as u64));
    }
    at
}

// The entries of tombstones, fences and start index, each there or not, that stand from `start` on.
fn put_last(out: &mut [u8], at: usize, start: usize, plan: Plan) -> usize
    requires { (plan.edges ≤ most_edges) × (plan.keys ≤ most_edges) × (start + total (last_by plan.edges plan.dead plan.keys) ≤ at) × (at + length (entries_in out.old start (last_by plan.edges plan.dead plan.keys)) ≤ length out.old) × (at ≤ 2147483648) }
    ensures { Put out.old out.new at result (entries_in out.old start (last_by plan.edges plan.dead plan.keys)) }
{
    let keys = plan.keys;
    let after_tombs = start + tomb_size(plan.edges, plan.dead);
    let after_fences = after_tombs + fences_size(keys);
    let p = put_tombs_entry(out, at, start, plan.edges, plan.dead);
    let q = put_fences_entry(out, p, after_tombs, keys);
    put_starts_entry(out, q, after_fences, keys)
}

// The body: section count, entries, counts.
pub fn put_body(out: &mut [u8], at: usize, plan: Plan) -> usize
    requires { (plan.keys ≤ most_edges) × (plan.width ≤ 4) × (plan.edges ≤ most_edges) × (at ≤ most_bytes) × (header_size + sections_size plan.keys plan.width plan.partners plan.edges plan.dead ≤ at) × (at + length (body_in out.old plan.keys plan.width plan.partners plan.edges plan.dead) ≤ length out.old) }
    ensures { Put out.old out.new at result (body_in out.old plan.keys plan.width plan.partners plan.edges plan.dead) }
{
    let n = plan.edges;
    let keys = plan.keys;
    let w = plan.width;
    let count = section_count(keys, plan.dead);
    put_le(out, at, 2, count as u64);
    let p = put_four(out, at + 2, plan);
    let start = Header::SIZE
        + ((Keys::ROW as usize) * keys
            + ((keys + 1) * w + (plan.partners + (Logs::ROW as usize) * n)));
    let q = put_last(out, p, start, plan);
    put_counts(out, q, keys as u64, n as u64, (8 * w) as u8)
}

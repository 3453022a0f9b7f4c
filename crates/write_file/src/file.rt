// A file from edges that are counted: header, sections, footer body, trailer.
ghost use Rattle.std.specs.Prelude.{◌≡◌, ◌≤◌, length};
ghost use Rattle.base.specs.Over.{over};
ghost use Rattle.batch_groups.specs.Groups.{groups_of, Grouped};
ghost use Rattle.write_image.specs.Image.{flags_by, minor_of, file_of};
ghost use Rattle.batch.specs.Batch.{edges_of};
ghost use Rattle.write_plan.specs.Bounds.{PlanFits};

use frame::bounds::Bounds;
use frame::ends::Header;
use write_contents::footer::put_body;
use write_contents::payload::put_payload;
use write_frame::{put_header, put_trailer};
use write_plan::Plan;

// Bit 3: an inverse file; bit 2: a dense group; bit 1: a dead edge.
fn flags_for(direction: u8, dense: bool, dead: bool) -> u64
    ensures { result ≡ flags_by direction dense dead }
{
    8 * direction as u64 + (4 * u64::from(dense) + 2 * u64::from(dead))
}

// Minor 1: a start index.
fn minor_for(keys: usize) -> u8
    ensures { result ≡ minor_of keys }
{
    u8::from((Bounds::UNINDEXED as usize) < keys)
}

// Writes the file of the edges over the start of out.
pub fn put_file(batch: &[u8], direction: u8, ids: &[u8], plan: Plan, out: &mut [u8])
    requires { PlanFits (edges_of batch.now) plan × Grouped 0 (groups_of (edges_of batch.now)) × (length ids.now ≡ 48) × (plan.bytes ≤ length out.old) }
    ensures { out.new ≡ over (file_of (record { direction = direction; ids = ids.now }) (edges_of batch.now)) out.old }
{
    let flags = flags_for(direction, plan.dense, plan.dead);
    put_header(out, minor_for(plan.keys), flags, ids);
    let p = put_payload(batch, plan, out, Header::SIZE);
    let q = put_body(out, p, plan);
    put_trailer(out, p, q);
}

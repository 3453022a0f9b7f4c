// Keys, offsets and partners: one part of each for every group, so they are written side by side in one pass.
ghost use Rattle.std.specs.Prelude.{◌≡◌, ◌+◌, ◌*◌, ◌≤◌, ◌||◌, length};
ghost use Rattle.std.proofs.lemmas.List.Edits.{sets};
ghost use Rattle.base.specs.Put.{Put};
ghost use Rattle.codes.specs.Little.{le_bytes};
ghost use Rattle.frame.specs.Kind.{most_edges};
ghost use Rattle.batch_groups.specs.Groups.{groups_of, Grouped};
ghost use Rattle.write_image.specs.Image.{any_dense, partner_bytes};
ghost use Rattle.batch.specs.Batch.{edges_of};
ghost use Rattle.write_sections.specs.Asked.{Width, Placed, group_sections, GroupRoom, GroupPut};

use codes::ids::put_id;
use codes::little::put_le;
use frame::kind::{Keys, Offsets};
use write_group::{Span, block_size, dense_by, put_block, span_at};
use write_source::edge_of;

// The length of the partner section, and whether a group is dense.
#[derive(Drop)]
pub struct Total {
    pub bytes: usize,
    pub dense: bool,
}

// Counts them over all groups.
pub fn partners_size(batch: &[u8], n: usize, keys: usize) -> Total
    requires { (n ≡ length (edges_of batch.now)) × (n ≤ most_edges) × (keys ≤ most_edges) × Grouped 0 (groups_of (edges_of batch.now)) }
    ensures { (result.bytes ≡ length (partner_bytes keys (groups_of (edges_of batch.now)))) × (result.dense ≡ any_dense keys (groups_of (edges_of batch.now))) × (result.bytes ≤ 29 * n) }
{
    // Stays a loop by hand: it goes on where the next group begins.
    let mut i: usize = 0;
    let mut bytes: usize = 0;
    let mut dense = false;
    while i < n {
        let g = span_at(batch, n, i);
        let j = g.end;
        let z = block_size(j - i, g.cost, keys);
        bytes += z.bytes;
        dense |= z.dense;
        i = j;
    }
    Total { bytes, dense }
}

// Writes an offset of w bytes, each width by itself: the compiler then knows how many bytes it stores.
fn put_offset(out: &mut [u8], at: usize, w: usize, x: u64)
    requires { (at + w ≤ length out.old) × Width w }
    ensures { out.new ≡ sets out.old at (le_bytes w x) }
{
    if w == Offsets::SHORT {
        put_le(out, at, Offsets::SHORT, x);
        return;
    }
    put_le(out, at, Offsets::LONG, x);
}

// The group g that begins at edge i: its key at k, its offset at o, its bytes at p. Answers the place after these.
fn put_group(
    batch: &[u8],
    i: usize,
    g: Span,
    keys: usize,
    w: usize,
    start: u64,
    out: &mut [u8],
    k: usize,
    o: usize,
    p: usize,
) -> usize
    requires { GroupRoom (edges_of batch.now) i g keys w k o p out.old }
    ensures { GroupPut (edges_of batch.now) i g keys w start k o p out.old out.new result }
{
    let e = edge_of(batch, i);
    let key = e.key;
    put_id(out, k, key);
    put_offset(out, o, w, start);
    let j = g.end;
    let dense = dense_by(keys, j - i, g.cost);
    put_block(batch, i, j, dense, out, p)
}

// Keys, offsets of w bytes, partners: one section after the other from `at` on. Answers the place after them.
pub fn put_groups(batch: &[u8], n: usize, keys: usize, w: usize, out: &mut [u8], at: usize) -> usize
    requires { Placed (edges_of batch.now) n keys w at (length (group_sections w keys (groups_of (edges_of batch.now)))) out.old }
    ensures { Put out.old out.new at result (group_sections w keys (groups_of (edges_of batch.now))) }
{
    // Stays a loop by hand: it goes on where the next group begins.
    let mut i: usize = 0;
    let mut k = at;
    let mut o = at + (Keys::ROW as usize) * keys;
    let base = o + (keys + 1) * w;
    let mut p = base;
    while i < n {
        let g = span_at(batch, n, i);
        let start = p - base;
        p = put_group(batch, i, g, keys, w, start as u64, out, k, o, p);
        k += Keys::ROW as usize;
        o += w;
        i = g.end;
    }
    let start = p - base;
    put_offset(out, o, w, start as u64);
    p
}

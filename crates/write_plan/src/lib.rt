// What is counted of the edges before anything is written: keys, offset width, the size of the file; and whether it is
// within the bounds.
#![tactic(auto)]

ghost use Rattle.std.specs.Prelude.{◌≡◌, ◌≤◌};
ghost use Rattle.base.specs.Pick.{pick};
ghost use Rattle.frame.specs.Kind.{starts_len, most_edges};
ghost use Rattle.batch_groups.specs.Groups.{groups_of, Grouped};
ghost use Rattle.write_image.specs.Image.{width_of};
ghost use Rattle.batch.specs.Batch.{edges_of};
ghost use Rattle.write_plan.specs.Size.{tomb_size, fences_size, starts_size, section_count, file_size, Tallied};
ghost use Rattle.write_plan.specs.Bounds.{Measured};

use frame::Row;
use frame::bounds::Bounds;
use frame::ends::{Footer, Header, Trailer};
use frame::kind::{Fences, Keys, Logs, Offsets, Starts, Tombstones};
use write_sections::by_key::partners_size;

// The counts: edges, keys, bytes of an offset, bytes of the partner section, whether a group is dense, whether an edge is
// dead, bytes of the file.
#[derive(Clone, Copy)]
pub struct Plan {
    pub edges: usize,
    pub keys: usize,
    pub width: usize,
    pub partners: usize,
    pub dense: bool,
    pub dead: bool,
    pub bytes: usize,
}

fn width_of(bytes: usize) -> usize
    ensures { (result ≡ width_of bytes) × (result ≤ 4) }
{
    if bytes < Offsets::NARROW {
        Offsets::SHORT
    } else {
        Offsets::LONG
    }
}

// x where it is asked for, otherwise 0.
fn counted_if(b: bool, x: usize) -> usize
    ensures { (result ≡ pick b x 0) × (result ≤ x) }
{
    if b { x } else { 0 }
}

// The bytes of the tombstones.
pub fn tomb_size(n: usize, dead: bool) -> usize
    requires { n ≤ most_edges }
    ensures { (result ≡ tomb_size n dead) × (result ≤ most_edges) }
{
    counted_if(dead, Tombstones::bytes(n as u64) as usize)
}

// The bytes of the fences.
pub fn fences_size(keys: usize) -> usize
    requires { keys ≤ most_edges }
    ensures { (result ≡ fences_size keys) × (result ≤ most_edges) }
{
    counted_if(
        (Bounds::UNFENCED as usize) < keys,
        Fences::bytes(Fences::count(keys) as u64) as usize,
    )
}

// The bytes of the start index.
fn starts_size(keys: usize) -> usize
    requires { keys ≤ most_edges }
    ensures { (result ≡ starts_size keys) × (result ≤ starts_len most_edges) }
{
    counted_if(
        (Bounds::UNINDEXED as usize) < keys,
        Starts::bytes(keys as u64) as usize,
    )
}

// How many sections there are.
pub fn section_count(keys: usize, dead: bool) -> usize
    ensures { (result ≡ section_count keys dead) × (result ≤ 7) }
{
    let tombs = counted_if(dead, 1);
    let fences = counted_if((Bounds::UNFENCED as usize) < keys, 1);
    let starts = counted_if((Bounds::UNINDEXED as usize) < keys, 1);
    4 + (tombs + (fences + starts))
}

fn file_size(keys: usize, w: usize, bytes: usize, n: usize, dead: bool) -> usize
    requires { (keys ≤ most_edges) × (w ≤ 4) × (bytes ≤ 4294967296) × (n ≤ most_edges) }
    ensures { result ≡ file_size keys w bytes n dead }
{
    let t = tomb_size(n, dead);
    let f = fences_size(keys);
    let s = starts_size(keys);
    let count = section_count(keys, dead);
    let sections = (Keys::ROW as usize) * keys
        + ((keys + 1) * w + (bytes + ((Logs::ROW as usize) * n + (t + (f + s)))));
    Header::SIZE + (sections + (Footer::EMPTY + Row::ENTRY * count + Trailer::SIZE))
}

// Counts the n edges, of which the keys and whether one is dead are known already; none where there are more keys, edges or file bytes
// than the bounds.
pub fn measure(batch: &[u8], n: usize, keys: usize, dead: bool) -> Option<Plan>
    requires { Tallied (edges_of batch.now) n keys dead × Grouped 0 (groups_of (edges_of batch.now)) }
    ensures { Measured (edges_of batch.now) result }
{
    if (Bounds::EDGES as usize) < n {
        return None;
    }
    if (Bounds::KEYS as usize) < keys {
        return None;
    }
    let total = partners_size(batch, n, keys);
    let partners = total.bytes;
    let width = width_of(partners);
    let bytes = file_size(keys, width, partners, n, dead);
    if (Bounds::BYTES as usize) < bytes {
        return None;
    }
    Some(Plan {
        edges: n,
        keys,
        width,
        partners,
        dense: total.dense,
        dead,
        bytes,
    })
}

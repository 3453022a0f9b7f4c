// The start index: how many edges are before each group, and last the edge count.
ghost use Rattle.std.specs.Prelude.{◌≡◌, ◌+◌, ◌≤◌, length};
ghost use Rattle.base.specs.Put.{Put};
ghost use Rattle.batch_groups.specs.Groups.{groups_of};
ghost use Rattle.write_image.specs.Image.{start_bytes};
ghost use Rattle.batch.specs.Batch.{edges_of};

use codes::little::put_le;
use frame::kind::Starts;
use write_group::group_end;

// Writes it for n edges, in one pass over their keys. Answers the place after it.
pub fn put_starts(batch: &[u8], n: usize, out: &mut [u8], at: usize) -> usize
    requires { (n ≡ length (edges_of batch.now)) × (at + length (start_bytes (groups_of (edges_of batch.now))) ≤ length out.old) }
    ensures { Put out.old out.new at result (start_bytes (groups_of (edges_of batch.now))) }
{
    // Stays a loop by hand: it goes on where the next group begins.
    let mut i: usize = 0;
    let mut to = at;
    while i < n {
        let j = group_end(batch, n, i);
        put_le(out, to, Starts::ROW as usize, i as u64);
        to += Starts::ROW as usize;
        i = j;
    }
    put_le(out, to, Starts::ROW as usize, n as u64);
    to + (Starts::ROW as usize)
}

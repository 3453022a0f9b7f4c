// The read-out: the release desk's other call. A file that the full check passes, as a batch.
#![tactic(auto)]

ghost use Rattle.std.specs.Prelude.{◌≡◌, length};
ghost use Rattle.readout.specs.ReadOut.{read_out_of, read_out_leaves};

pub mod edges;
pub mod group_edges;

use batch::Edge;
use edges::{put_edges_of, put_heading};
use full_check::checked;
use refusal::Refusal;

// Writes a file's heading and edges as a batch over the start of `out`, if the full check passes and there is room. A refusal
// leaves all of `out`, and what lies past the batch stays.
pub fn read_out(file: &[u8], out: &mut [u8]) -> Result<u64, Refusal>
    ensures { (result ≡ read_out_of file.now (length out.old)) × (out.new ≡ read_out_leaves file.now out.old) }
{
    let opened = checked(file)?;
    let needed = (Edge::HEAD as u64) + (Edge::RECORD as u64) * opened.edgecount;
    if (out.len() as u64) < needed {
        return Err(Refusal::Room { needed });
    }
    put_heading(file, out);
    put_edges_of(file, opened, out);
    Ok(needed)
}

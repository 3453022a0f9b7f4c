// The edges of a batch by their number.
#![tactic(auto)]

ghost use Rattle.std.specs.Prelude.{◌≡◌, ◌<◌, length, get_or};
ghost use Rattle.batch.specs.Batch.{edges_of};
ghost use Rattle.batch_groups.specs.Groups.{none};

use batch::{Edge, edge_at};
use codes::little::le;

// Edge e.
pub fn edge_of(batch: &[u8], e: usize) -> Edge
    requires { e < length (edges_of batch.now) }
    ensures { result ≡ get_or (edges_of batch.now) e none }
{
    edge_at(batch, Edge::HEAD + Edge::RECORD * e)
}

// The log number of edge e alone: the last 8 bytes of its record.
pub fn log_of(batch: &[u8], e: usize) -> u64
    requires { e < length (edges_of batch.now) }
    ensures { result ≡ (get_or (edges_of batch.now) e none).log }
{
    le::<8>(batch, Edge::HEAD + Edge::RECORD * (e + 1) - Edge::LOG_SIZE)
}

// Is edge e dead? Its record's kind says so.
pub fn dead_of(batch: &[u8], e: usize) -> bool
    requires { e < length (edges_of batch.now) }
    ensures { result ≡ (get_or (edges_of batch.now) e none).dead }
{
    batch[Edge::HEAD + Edge::RECORD * e] == Edge::DEAD
}

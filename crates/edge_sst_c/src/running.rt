// The running sum for C: XXH3-64 of a section that comes down in chunks.
ghost use Rattle.std.specs.Prelude.{◌≡◌};
ghost use Rattle.xxh3_running.specs.Running.{state_of, new_state, feed_of, Leaves, sum_of};
ghost use Rattle.edge_sst_c.specs.Desk.{check_told};

use super::desk::{EdgeSstTold, check_told};
use xxh3_running::lent::{feed_lent, sum_lent};
use xxh3_running::{State, new};

// The state before any chunk.
#[unsafe(no_mangle)]
pub extern "C" fn edge_sst_running_new() -> State
    ensures { result ≡ new_state }
{
    new()
}

// A chunk more, or 27 and all parts of the state stay.
#[unsafe(no_mangle)]
pub extern "C" fn edge_sst_running_feed(
    total: &mut u64,
    lanes: &mut [u64; 8],
    buffer: &mut [u8; 256],
    chunk: &[u8],
) -> EdgeSstTold
    ensures { (result ≡ check_told (feed_of (state_of total.old lanes.old buffer.old) chunk.now).told)
        × Leaves (feed_of (state_of total.old lanes.old buffer.old) chunk.now) total.new lanes.new buffer.new }
{
    check_told(feed_lent(total, lanes, buffer, chunk))
}

// The sum of all bytes that were fed.
#[unsafe(no_mangle)]
pub extern "C" fn edge_sst_running_asked(total: u64, lanes: &[u64; 8], buffer: &[u8; 256]) -> u64
    ensures { result ≡ sum_of (state_of total lanes.now buffer.now) }
{
    sum_lent(total, lanes, buffer)
}

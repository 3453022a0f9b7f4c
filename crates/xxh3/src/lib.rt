// XXH3-64 for tools that take the checksum alone, without the file reader: the calls for C. See include/saffron_xxh3.h. The
// archive that C links is made of crates/xxh3_exports, which exports each of them.
#![tactic(auto)]

ghost use Rattle.std.specs.Prelude.{◌≡◌};
ghost use Rattle.xxh3_spec.specs.Xxh3.{xxh3};
ghost use Rattle.xxh3_running.specs.Running.{state_of, new_state, feed_of, Leaves, sum_of};
ghost use Rattle.xxh3.specs.Told.{number_told};

use refusal::{Refusal, told_of};
use xxh3_running::lent::{feed_lent, sum_lent};
use xxh3_running::{State, new};
use xxh3_whole::xxh3;

// The sum of bytes that are all at hand.
#[unsafe(no_mangle)]
pub extern "C" fn saffron_xxh3_64(bytes: &[u8]) -> u64
    ensures { result ≡ xxh3 bytes.now }
{
    xxh3(bytes)
}

// The state of a running sum before any chunk.
#[unsafe(no_mangle)]
pub extern "C" fn saffron_xxh3_new() -> State
    ensures { result ≡ new_state }
{
    new()
}

fn number_told(c: Result<(), Refusal>) -> u32
    ensures { result ≡ number_told c }
{
    match c {
        Ok(()) => 0,
        Err(refusal) => told_of(refusal).number as u32,
    }
}

// A chunk more: 0, or 27 and all parts of the state stay.
#[unsafe(no_mangle)]
pub extern "C" fn saffron_xxh3_feed(
    total: &mut u64,
    lanes: &mut [u64; 8],
    buffer: &mut [u8; 256],
    chunk: &[u8],
) -> u32
    ensures { (result ≡ number_told (feed_of (state_of total.old lanes.old buffer.old) chunk.now).told)
        × Leaves (feed_of (state_of total.old lanes.old buffer.old) chunk.now) total.new lanes.new buffer.new }
{
    number_told(feed_lent(total, lanes, buffer, chunk))
}

// The sum of all bytes that were fed.
#[unsafe(no_mangle)]
pub extern "C" fn saffron_xxh3_asked(total: u64, lanes: &[u64; 8], buffer: &[u8; 256]) -> u64
    ensures { result ≡ sum_of (state_of total lanes.now buffer.now) }
{
    sum_lent(total, lanes, buffer)
}

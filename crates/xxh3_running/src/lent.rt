// The running sum over a state whose parts are lent one by one: in place, and so without copies of the buffer.
ghost use Rattle.std.specs.Prelude.{◌≡◌, ◌+◌, ◌*◌, ◌^◌, ◌<◌, ◌≤◌, length};
ghost use Rattle.std.proofs.lemmas.List.Edits.{sets};
ghost use Rattle.xxh3_spec.specs.Xxh3.{run_on, secret};
ghost use Rattle.xxh3_running.specs.Running.{state_of, bytes_more, feed_of, Leaves, last_bytes, long_sum, sum_of};
ghost use Rattle.xxh3_running.specs.Running.Laws.{UntilFull, buffers_in, buffer_after};

use crate::State;
use refusal::Refusal;
use xxh3_above240::large::{lanes_after, sum_after};
use xxh3_whole::by_length;

// Writes s over the buffer from `at` on.
fn put(buffer: &mut [u8], at: usize, s: &[u8])
    requires { at + length s.now ≤ length buffer.old }
    ensures { buffer.new ≡ sets buffer.old at s.now }
{
    // Stays a loop by hand: copy_from_slice would make the archives for C need memmove, and they need memset alone.
    for i in 0..s.len() {
        buffer[at + i] = s[i];
    }
}

// How many bytes there are until the buffer is full.
fn room(total: u64) -> usize
    ensures { UntilFull total result }
{
    if total == 0 {
        return 256;
    }
    255 - ((total - 1) % 256) as usize
}

// The rest of a chunk, where a is the lanes with all bytes before it, and `next` the number of its first stripe: its whole
// buffers before the last byte join the lanes, and the buffer gets the last 256 bytes.
fn flow(a: [u64; 8], buffer: &mut [u8], rest: &[u8], next: usize) -> [u64; 8]
    requires { (length buffer.old ≡ 256) × (0 < length rest.now) × (next < 2 ^ 60) }
    ensures { (result ≡ run_on secret a rest.now next (4 * buffers_in rest.now))
        × (buffer.new ≡ buffer_after buffer.old rest.now (buffers_in rest.now)) }
{
    let whole = (rest.len() - 1) / 256;
    if whole == 0 {
        put(buffer, 0, rest);
        return a;
    }
    let end = 256 * whole;
    put(buffer, 0, &rest[end - 256..end]);
    put(buffer, 0, &rest[end..]);
    lanes_after(a, rest, next, 4 * whole)
}

// A chunk that goes on past the buffer's end, after `fill` of its bytes.
fn pour(total: u64, lanes: &mut [u64; 8], buffer: &mut [u8], chunk: &[u8], fill: usize)
    requires { (length buffer.old ≡ 256) × UntilFull total fill × (fill < length chunk.now) × (total ≤ 2 ^ 30) }
    ensures { (lanes.new ≡ (bytes_more (state_of total lanes.old buffer.old) chunk.now).lanes)
        × (buffer.new ≡ (bytes_more (state_of total lanes.old buffer.old) chunk.now).buffer) }
{
    put(buffer, 256 - fill, &chunk[0..fill]);
    let next = (total as usize + fill) / 64;
    let a = lanes_after(*lanes, buffer, next - 4, 4);
    let b = flow(a, buffer, &chunk[fill..], next);
    *lanes = b;
}

// A chunk more, or 27 where it would take the total past 2^30: then all that was lent stays.
pub fn feed_lent(
    total: &mut u64,
    lanes: &mut [u64; 8],
    buffer: &mut [u8; 256],
    chunk: &[u8],
) -> Result<(), Refusal>
    ensures { (result ≡ (feed_of (state_of total.old lanes.old buffer.old) chunk.now).told)
        × Leaves (feed_of (state_of total.old lanes.old buffer.old) chunk.now) total.new lanes.new buffer.new }
{
    let t = *total;
    let n = chunk.len() as u64;
    if t > State::MOST {
        return Err(Refusal::Chunk);
    }
    if n > State::MOST - t {
        return Err(Refusal::Chunk);
    }
    *total = t + n;
    let fill = room(t);
    if chunk.len() <= fill {
        put(buffer, 256 - fill, chunk);
        return Ok(());
    }
    pour(t, lanes, buffer, chunk, fill);
    Ok(())
}

// The last 64 of `total` bytes.
fn last_bytes(total: u64, buffer: &[u8]) -> [u8; 64]
    requires { length buffer.now ≡ 256 }
    ensures { result ≡ last_bytes total buffer.now }
{
    let start = (total % 256) as usize + 192;
    let mut last = [0u8; 64];
    for i in 0..64 {
        last[i] = buffer[(start + i) % 256];
    }
    last
}

fn long_sum(total: u64, lanes: &[u64; 8], buffer: &[u8]) -> u64
    requires { (256 < total) × (length buffer.now ≡ 256) }
    ensures { result ≡ long_sum (state_of total lanes.now buffer.now) }
{
    let before = (total - 1) as usize;
    let a = lanes_after(*lanes, buffer, 4 * (before / 256), before % 256 / 64);
    let last = last_bytes(total, buffer);
    sum_after(a, &last, total)
}

// The sum of all bytes that were fed.
pub fn sum_lent(total: u64, lanes: &[u64; 8], buffer: &[u8; 256]) -> u64
    ensures { result ≡ sum_of (state_of total lanes.now buffer.now) }
{
    if total <= 256 {
        return by_length(&buffer[..total as usize]);
    }
    long_sum(total, lanes, buffer)
}

// XXH3-64 with seed 0 and the default secret, of bytes that come in chunks: the same number at the end as for the whole,
// wherever the cuts fall. It stands without the file reader.
#![tactic(auto)]

ghost use Rattle.std.specs.Prelude.{◌≡◌};
ghost use Rattle.xxh3_running.specs.Running.{new_state, feed_of, sum_of};

pub mod lent;

use lent::{feed_lent, sum_lent};
use refusal::Refusal;
use xxh3_above240::large::START_LANES;

// The state of a running sum. Every value of its fields is lawful.
#[repr(C)]
#[derive(Clone, Copy)]
pub struct State {
    // all bytes that were fed
    pub total: u64,
    // XXH3's eight numbers, of all bytes but those that wait in the buffer
    pub lanes: [u64; 8],
    // a ring: byte i of all lies at i % 256
    pub buffer: [u8; 256],
}

impl State {
    // Totals go up to here.
    pub const MOST: u64 = 0x4000_0000;
}

// What a chunk makes of a state. Where the chunk is refused the state is as it was.
#[derive(Drop)]
pub struct Fed {
    pub told: Result<(), Refusal>,
    pub state: State,
}

// The state before any chunk.
pub fn new() -> State
    ensures { result ≡ new_state }
{
    State {
        total: 0,
        lanes: START_LANES,
        buffer: [0u8; 256],
    }
}

// A chunk more, or 27 where it would take the total past 2^30.
pub fn feed(st: State, chunk: &[u8]) -> Fed
    ensures { result ≡ feed_of st chunk.now }
{
    let mut total = st.total;
    let mut lanes = st.lanes;
    let mut buffer = st.buffer;
    let told = feed_lent(&mut total, &mut lanes, &mut buffer, chunk);
    let state = State {
        total,
        lanes,
        buffer,
    };
    Fed { told, state }
}

// The same for a state in its place, which is copied to `feed` and back. `feed_lent` copies nothing.
pub fn update(st: &mut State, chunk: &[u8]) -> Result<(), Refusal>
    ensures { (result ≡ (feed_of st.old chunk.now).told) × (st.new ≡ (feed_of st.old chunk.now).state) }
{
    let r = feed(*st, chunk);
    *st = r.state;
    r.told
}

// The sum of all bytes that were fed.
pub fn sum(st: State) -> u64
    ensures { result ≡ sum_of st }
{
    let lanes = st.lanes;
    let buffer = st.buffer;
    sum_lent(st.total, &lanes, &buffer)
}

// The smallest and largest log number, in one pass.
ghost use Rattle.std.specs.Prelude.{◌≡◌, ◌+◌, ◌-◌, ◌*◌, ◌^◌, ◌<◌, ◌≤◌, true, [], ◌∷◌, length};
ghost use Rattle.codes.specs.Little.{le_at};
ghost use Rattle.frame.specs.Kind.{log_size, most_edges};
ghost use Rattle.lookup.specs.Lookup.{logs_from};
ghost use Rattle.summary.specs.Logs.{span_on, span_of, InSpan, Within};

use codes::little::le;
use frame::kind::Logs;

#[derive(Clone, Copy)]
pub struct Span {
    pub smallest: u64,
    pub largest: u64,
}

impl Span {
    // So many log numbers are held to a span at once, the most that the compiler writes out one after the other; the contracts
    // say 80.
    pub const BLOCK: usize = 80;

    // The top bit of a number.
    pub const TOP: u64 = 0x8000_0000_0000_0000;
}

// A span that takes in x.
fn with_one(s: Span, x: u64) -> Span
    requires { s.smallest ≤ s.largest }
    ensures { result ≡ span_on s (x ∷ []) }
{
    if x < s.smallest {
        return Span {
            smallest: x,
            largest: s.largest,
        };
    }
    if s.largest < x {
        return Span {
            smallest: s.smallest,
            largest: x,
        };
    }
    s
}

// A span that takes in n log numbers, from edge e on, one by one.
fn with_each(logs: &[u8], e: usize, n: usize, s: Span) -> Span
    requires { (s.smallest ≤ s.largest) × (e + n ≤ most_edges) × (log_size * (e + n) ≤ length logs.now) }
    ensures { result ≡ span_on s (logs_from n logs.now e) }
{
    let mut t = s;
    for i in 0..n {
        t = with_one(t, le::<8>(logs, (Logs::ROW as usize) * (e + i)));
    }
    t
}

// Without a top bit x lies within a span of LEAST or more: neither difference to its ends went below 0; of a span of 2^63 or more one
// difference may be large, and both are where x lies outside. Below 2^63 it is never set without need, which bears on speed alone.
fn sign<const LEAST: u64>(x: u64, s: Span) -> u64
    requires { s.smallest + LEAST ≤ s.largest }
    ensures { result < 2 ^ 63 → InSpan x s }
{
    let above = x.wrapping_sub(s.smallest);
    let below = s.largest.wrapping_sub(x);
    if LEAST < Span::TOP {
        return above | below;
    }
    above & below
}

// Do the log numbers of a block from edge e on lie within a span of LEAST or more? The compiler takes two at a time.
fn block_within<const LEAST: u64>(logs: &[u8], e: usize, s: Span) -> bool
    requires { (s.smallest + LEAST ≤ s.largest) × (e + 80 ≤ most_edges) × (log_size * (e + 80) ≤ length logs.now) }
    ensures { result ≡ true → Within logs.now e 80 s }
{
    let mut signs: u64 = 0;
    for i in 0..Span::BLOCK {
        signs |= sign::<LEAST>(le::<8>(logs, (Logs::ROW as usize) * (e + i)), s);
    }
    signs < Span::TOP
}

// The same of any span.
fn within(logs: &[u8], e: usize, s: Span) -> bool
    requires { (s.smallest ≤ s.largest) × (e + 80 ≤ most_edges) × (log_size * (e + 80) ≤ length logs.now) }
    ensures { result ≡ true → Within logs.now e 80 s }
{
    if s.largest - s.smallest < Span::TOP {
        return block_within::<0>(logs, e, s);
    }
    block_within::<{ Span::TOP }>(logs, e, s)
}

// A span that takes in a block, first of all its last log number: where log numbers rise or fall the others then lie within, and where
// they come in no order few blocks hold a new smallest or largest.
fn with_block(logs: &[u8], e: usize, s: Span) -> Span
    requires { (s.smallest ≤ s.largest) × (e + 80 ≤ most_edges) × (log_size * (e + 80) ≤ length logs.now) }
    ensures { result ≡ span_on s (logs_from 80 logs.now e) }
{
    let last = le::<8>(logs, (Logs::ROW as usize) * (e + Span::BLOCK - 1));
    let t = with_one(s, last);
    if within(logs, e, t) {
        return t;
    }
    with_each(logs, e, Span::BLOCK, s)
}

// Of n log numbers, of which there is one at least.
pub fn span_of(logs: &[u8], n: usize) -> Span
    requires { (1 ≤ n) × (n ≤ most_edges) × (log_size * n ≤ length logs.now) }
    ensures { result ≡ span_of (le_at logs.now 0 8) (logs_from (n - 1) logs.now 1) }
{
    let first = le::<8>(logs, 0);
    let mut s = Span {
        smallest: first,
        largest: first,
    };
    // Stays a loop by hand: it goes on by whole blocks, and the edge where it ends begins the rest.
    let mut e: usize = 1;
    while Span::BLOCK <= n - e {
        s = with_block(logs, e, s);
        e += Span::BLOCK;
    }
    with_each(logs, e, n - e, s)
}

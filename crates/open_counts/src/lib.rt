// Rule 12: counts, lengths and presence.
#![tactic(auto)]

ghost use Rattle.std.specs.Prelude.{◌≡◌, not, ◌&&◌, ◌||◌, ◌/◌, ◌%◌, ◌≤◌, ◌<◌, eqb, leb};
ghost use Rattle.std.specs.Bool.{beq};
ghost use Rattle.frame.specs.Kind as kind;
ghost use Rattle.frame.specs.Frame.{width_good, sizes_good, presence_good, counts_good};

use frame::bounds::Bounds;
use frame::kind::{Keys, Logs, Offsets, Starts, Tombstones};
use frame::{Framed, Opened};

// Offset bits, which are asked of a lent record too.
pub fn width_good(bits: u8) -> bool
    ensures { result ≡ width_good bits }
{
    bits == 24 || bits == 32 || bits == 40 || bits == 48
}

// The lengths of the tombstones and of the start index, where there are some.
fn options_good(o: Opened) -> bool
    requires { (o.keycount ≤ kind.most_keys) × (o.edgecount ≤ kind.most_edges) }
    ensures { result ≡ ((not o.marked || eqb o.dead.len (kind.tombstones_len o.edgecount)) && (not o.indexed || eqb o.starts.len (kind.starts_len o.keycount))) }
{
    (!o.marked || o.dead.len == Tombstones::bytes(o.edgecount))
        && (!o.indexed || o.starts.len == Starts::bytes(o.keycount))
}

// Bounds and lengths, which are asked of a lent record too.
#[tactic(auto, unfolding(frame::specs::Frame::sizes_good))]
pub fn sizes_good(o: Opened) -> bool
    ensures { result ≡ sizes_good o }
{
    o.keycount <= Bounds::KEYS
        && o.edgecount <= Bounds::EDGES
        && o.keys.len == Keys::bytes(o.keycount)
        && o.offsets.len == Offsets::bytes(o.keycount, o.bits as u64 / 8)
        && o.logs.len == Logs::bytes(o.edgecount)
        && options_good(o)
}

// The flag bit whose value is `by`.
pub fn flag_of(flags: u64, by: u64) -> bool
    requires { 0 < by }
    ensures { result ≡ eqb (flags / by % 2) 1 }
{
    flags / by % 2 == 1
}

// Are both true, or neither?
pub fn alike(a: bool, b: bool) -> bool
    ensures { result ≡ beq a b }
{
    a == b
}

// No edges without keys, no fewer edges than keys, fences where they are required, and the flag bits 0 and 1.
#[tactic(auto, unfolding(frame::specs::Frame::presence_good))]
fn presence_good(flags: u64, x: Framed) -> bool
    ensures { result ≡ presence_good flags x }
{
    let o = x.opened;
    o.keycount <= o.edgecount
        && (o.keycount != 0 || o.edgecount == 0)
        && (o.keycount <= Bounds::UNFENCED || x.fenced)
        && alike(flag_of(flags, 1), x.streams)
        && (!flag_of(flags, 2) || o.marked)
}

// All of rule 12.
#[tactic(auto, unfolding(frame::specs::Frame::counts_good))]
pub fn counts_good(flags: u64, x: Framed) -> bool
    ensures { result ≡ counts_good flags x }
{
    width_good(x.opened.bits) && sizes_good(x.opened) && presence_good(flags, x)
}

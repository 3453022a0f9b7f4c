// Prints a file: a line for it, a line for each edge, `ok`; or its refusal. Lines are collected in a lent output, which is
// written when the next line might not fit; the first write that fails ends the print.
#![tactic(auto)]

ghost use Rattle.std.specs.Prelude.{◌≡◌, ◌+◌, ◌≤◌, ◌<◌, length, take, ◌++◌, Err};
ghost use Rattle.base.specs.Put.{Put};
ghost use Rattle.batch.specs.Batch.{heading_size, record_count, edges_of};
ghost use Rattle.printing.specs.Printed.{id_text, life_end, edge_line, direction_word, first_line, dead_in, line_at, line_room, line_count, PagePut, printed_of, PartOf, Passed, BatchRoom};
ghost use Rattle.frame.specs.Frame.{record_of};
ghost use Rattle.full_check.specs.Full.{full_check};
ghost use Rattle.text.specs.Text.{decimal};

use batch::{Edge, edge_at};
use codes::ids::Id;
use codes::little::byte;
use frame::ends::Header;
use reader::open::open;
use readout::read_out;
use refusal::Refusal;
use text::{put_hex, put_labelled, put_refused, put_word};

// Room for the batch of a file of 65,536 bytes (`batch_room`): each edge has a log number of eight bytes there.
pub const BATCH: usize = 335922;

// Room for any line (`line_room`).
const LINE: usize = 128;

// Where the direction stands in a batch's heading.
const DIRECTION: usize = 1;

// ---- lines

fn put_id_text(out: &mut [u8], at: usize, id: Id) -> usize
    requires { at + length (id_text id) ≤ length out.old }
    ensures { Put out.old out.new at result (id_text id) }
{
    let mid = put_hex(out, at, id.hi);
    put_hex(out, mid, id.lo)
}

fn put_life(out: &mut [u8], at: usize, dead: bool) -> usize
    requires { at + length (life_end dead) ≤ length out.old }
    ensures { Put out.old out.new at result (life_end dead) }
{
    if dead {
        return put_word(out, at, b" dead\n");
    }
    put_word(out, at, b" live\n")
}

fn put_edge_line(out: &mut [u8], at: usize, e: Edge) -> usize
    requires { at + length (edge_line e) ≤ length out.old }
    ensures { Put out.old out.new at result (edge_line e) }
{
    let key = e.key;
    let partner = e.partner;
    let first = put_id_text(out, at, key);
    let second = put_word(out, first, b" ");
    let third = put_id_text(out, second, partner);
    let fourth = put_labelled(out, third, b" lsn ", e.log);
    put_life(out, fourth, e.dead)
}

fn put_direction(out: &mut [u8], at: usize, direction: u64, minor: u64) -> usize
    requires { at + length (direction_word direction ++ decimal minor) ≤ length out.old }
    ensures { Put out.old out.new at result (direction_word direction ++ decimal minor) }
{
    if direction == 1 {
        return put_labelled(out, at, b"edge-sst inverse minor ", minor);
    }
    put_labelled(out, at, b"edge-sst forward minor ", minor)
}

fn put_first_line(
    out: &mut [u8],
    at: usize,
    direction: u64,
    minor: u64,
    keys: u64,
    edges: u64,
    dead: u64,
) -> usize
    requires { at + length (first_line direction minor keys edges dead) ≤ length out.old }
    ensures { Put out.old out.new at result (first_line direction minor keys edges dead) }
{
    let first = put_direction(out, at, direction, minor);
    let second = put_labelled(out, first, b" keys ", keys);
    let third = put_labelled(out, second, b" edges ", edges);
    let fourth = put_labelled(out, third, b" dead ", dead);
    put_word(out, fourth, b"\n")
}

// ---- a batch

fn edge_count(batch: &[u8]) -> usize
    requires { heading_size ≤ length batch.now }
    ensures { result ≡ record_count batch.now }
{
    (batch.len() - Edge::HEAD) / Edge::RECORD
}

// How many of a batch's edges are dead.
fn dead_in(batch: &[u8]) -> u64
    requires { heading_size ≤ length batch.now }
    ensures { result ≡ dead_in (edges_of batch.now) }
{
    let edges = edge_count(batch);
    let mut dead: u64 = 0;
    for k in 0..edges {
        let e = edge_at(batch, Edge::HEAD + Edge::RECORD * k);
        dead += u64::from(e.dead);
    }
    dead
}

// Line k of what is printed of a batch.
fn put_line(out: &mut [u8], at: usize, minor: u64, keys: u64, batch: &[u8], k: usize) -> usize
    requires { (heading_size ≤ length batch.now) × (at + line_room ≤ length out.old) }
    ensures { Put out.old out.new at result (line_at minor keys batch.now k) }
{
    let edges = edge_count(batch);
    if k == 0 {
        let direction = byte(batch, DIRECTION);
        return put_first_line(
            out,
            at,
            direction,
            minor,
            keys,
            edges as u64,
            dead_in(batch),
        );
    }
    if k <= edges {
        return put_edge_line(out, at, edge_at(batch, Edge::HEAD + Edge::RECORD * (k - 1)));
    }
    put_word(out, at, b"ok\n")
}

// Lines that were put: the line that comes next, and their bytes.
#[derive(Drop)]
struct Page {
    next: usize,
    bytes: usize,
}

// As many lines as fit for sure, from line `from` on.
fn put_page(out: &mut [u8], minor: u64, keys: u64, batch: &[u8], from: usize) -> Page
    requires { (heading_size ≤ length batch.now) × (line_room ≤ length out.old) × (from < line_count batch.now) }
    ensures { PagePut minor keys batch.now out.old out.new from result.next result.bytes }
{
    let lines = edge_count(batch) + 2;
    let mut at: usize = 0;
    for next in from..lines {
        if out.len() - at < LINE {
            return Page { next, bytes: at };
        }
        at = put_line(out, at, minor, keys, batch, next);
    }
    Page {
        next: lines,
        bytes: at,
    }
}

// ---- and written

// Writes the first n bytes of `out`, a part of what is printed of the file; false where a write fails, as `streams::wrote` tells it.
fn wrote_part(file: &[u8], out: &[u8], n: usize) -> bool
    requires { (n ≤ length out.now) × PartOf (printed_of file.now) (take n out.now) }
{
    streams::wrote(&out[0..n])
}

// Prints a file that passes, page by page.
fn print_batch(file: &[u8], keys: u64, batch: &[u8], out: &mut [u8]) -> bool
    requires { Passed file.now keys batch.now × (line_room ≤ length out.old) }
{
    let minor = byte(file, Header::MINOR);
    let lines = edge_count(batch) + 2;
    // Stays a loop by hand: a page says which line comes next.
    let mut next: usize = 0;
    while next < lines {
        let page = put_page(out, minor, keys, batch, next);
        if !wrote_part(file, out, page.bytes) {
            return false;
        }
        next = page.next;
    }
    true
}

// Prints the refusal of a file.
fn print_refusal(file: &[u8], refusal: Refusal, out: &mut [u8]) -> bool
    requires { (full_check file.now ≡ Err refusal) × (line_room ≤ length out.old) }
{
    let mid = put_refused(out, 0, refusal);
    let end = put_word(out, mid, b"\n");
    wrote_part(file, out, end)
}

// A file that opens, with so many keys.
fn print_opened(file: &[u8], keys: u64, room: &mut [u8], out: &mut [u8]) -> bool
    requires { (keys ≡ (record_of file.now).keycount) × BatchRoom file.now (length room.old) × (line_room ≤ length out.old) }
{
    match read_out(file, room) {
        Err(refusal) => print_refusal(file, refusal, out),
        Ok(bytes) => {
            let n = bytes as usize;
            print_batch(file, keys, &room[0..n], out)
        }
    }
}

// Prints a file to standard output; false where a write failed, and then nothing is written after it. `room` is lent for its
// batch, `out` for lines.
pub fn print_file(file: &[u8], room: &mut [u8], out: &mut [u8]) -> bool
    requires { BatchRoom file.now (length room.old) × (line_room ≤ length out.old) }
{
    match open(file) {
        Err(unopened) => print_refusal(file, unopened, out),
        Ok(opened) => print_opened(file, opened.keycount, room, out),
    }
}

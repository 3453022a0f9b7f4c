// The two ends of a file, written: header, and footer with trailer.
#![tactic(auto)]

ghost use Rattle.std.specs.Prelude.{◌≡◌, ◌+◌, ◌%◌, ◌<◌, ◌≤◌, length};
ghost use Rattle.std.proofs.lemmas.List.Edits.{sets};
ghost use Rattle.base.specs.Over.{part};
ghost use Rattle.base.specs.Put.{Put};
ghost use Rattle.frame.specs.Kind.{entry_size, counts_size, trailer_size};
ghost use Rattle.frame.specs.Frame.{raw_row};
ghost use Rattle.frame.specs.Layout.{head_bytes, trailer};
ghost use Rattle.write_frame.specs.Standing.{entry_in};
ghost use Rattle.write_frame.specs.Runs.{row_bytes, count_bytes};

use codes::little::{le, put_le};
use frame::Row;
use frame::ends::{Footer, Header, Trailer};
use xxh3_whole::xxh3;

// Copies s to `at`, by words of 8 bytes. Stays a loop: for a copy of the library the archive would need `memcpy`, and the writer
// needs `memset` alone.
fn put_words(out: &mut [u8], at: usize, s: &[u8])
    requires { (at + length s.now ≤ length out.old) × (length s.now % 8 ≡ 0) }
    ensures { out.new ≡ sets out.old at s.now }
{
    for w in 0..s.len() / 8 {
        let word = le::<8>(s, 8 * w);
        put_le(out, at + 8 * w, 8, word);
    }
}

// Writes the header: magic, major 1, minor, header size, flags, the three ids.
pub fn put_header(out: &mut [u8], minor: u8, flags: u64, ids: &[u8])
    requires { (16 + length ids.now ≤ length out.old) × (length ids.now ≡ 48) }
    ensures { out.new ≡ sets out.old 0 (head_bytes minor flags ids.now) }
{
    put_le(out, 0, 8, Header::MAGIC);
    put_le(out, Header::MAJOR, 1, 1);
    put_le(out, Header::MINOR, 1, minor as u64);
    put_le(out, Header::OWN_SIZE, 2, Header::SIZE as u64);
    put_le(out, Header::FLAGS, 4, flags);
    put_words(out, Header::EDGE_TYPE, ids);
}

// Writes a table entry without a name.
fn put_row(out: &mut [u8], at: usize, r: Row) -> usize
    requires { (at + entry_size ≤ length out.old) × (at ≤ 4294967296) }
    ensures { Put out.old out.new at result (row_bytes r) }
{
    put_le(out, at, 2, r.kind as u64);
    put_le(out, at + Row::CODEC, 1, r.codec as u64);
    put_le(out, at + Row::NAMELEN, 1, r.namelen as u64);
    put_le(out, at + Row::START, 8, r.start);
    put_le(out, at + Row::LEN, 8, r.len);
    put_le(out, at + Row::SUM, 8, r.sum);
    at + Row::ENTRY
}

// Writes the entry of the section that stands in out where r says, with its sum; r has no name and no codec, and is not summed yet.
pub fn put_entry(out: &mut [u8], at: usize, r: Row) -> usize
    requires { (r ≡ raw_row r.kind r.start r.len 0) × (r.start + r.len ≤ length out.old) × (at + entry_size ≤ length out.old) × (at ≤ 4294967296) }
    ensures { Put out.old out.new at result (entry_in out.old r.kind r.start r.len) }
{
    let start = r.start as usize;
    let sum = xxh3(&out[start..start + r.len as usize]);
    put_row(out, at, Row::raw(r.kind, r.start, r.len, sum))
}

// Writes what ends the body: key count, edge count, offset bits.
pub fn put_counts(out: &mut [u8], at: usize, keys: u64, edges: u64, bits: u8) -> usize
    requires { at + counts_size ≤ length out.old }
    ensures { Put out.old out.new at result (count_bytes keys edges bits) }
{
    put_le(out, at, 8, keys);
    put_le(out, at + 8, 8, edges);
    put_le(out, at + 16, 1, bits as u64);
    at + Footer::COUNTS
}

// Writes the trailer of the body that stands in out from `body` up to `at`.
pub fn put_trailer(out: &mut [u8], body: usize, at: usize) -> usize
    requires { (body ≤ at) × (at + trailer_size ≤ length out.old) }
    ensures { Put out.old out.new at result (trailer (part out.old body at)) }
{
    let sum = xxh3(&out[body..at]);
    let len = at - body + Trailer::SIZE;
    put_le(out, at, 8, sum);
    put_le(out, at + 8, 4, len as u64);
    put_le(out, at + 12, 8, Header::MAGIC);
    at + Trailer::SIZE
}

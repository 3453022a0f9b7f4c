// The edges of all keys, and the heading.
ghost use Rattle.std.specs.Prelude.{◌≡◌, ◌+◌, ◌/◌, ◌≤◌, length, Ok};
ghost use Rattle.std.proofs.lemmas.List.Edits.{sets};
ghost use Rattle.frame.specs.Kind.{header_size};
ghost use Rattle.frame.specs.Open.{known_of};
ghost use Rattle.batch.specs.Batch.{heading_size, heading_bytes, records_of};
ghost use Rattle.full_check.specs.Full.{checked_of};
ghost use Rattle.readout.specs.Edges.{read_from, edges_in};
ghost use Rattle.readout.specs.Edges.Laws.{Readable};
ghost use Rattle.readout.specs.ReadOut.{heading_in};

use super::group_edges::put_group_edges;
use batch::Edge;
use codes::little::le;
use frame::ends::Header;
use frame::{Opened, bytes_of};
use index::keys::key_at;
use index::offsets::offset_at;
use lookup::whole::tombstones_of;

// Writes the edges of n keys, whose groups are good.
fn put_all(
    keys: &[u8],
    partners: &[u8],
    offs: &[u8],
    w: usize,
    n: usize,
    logs: &[u8],
    dead: &[u8],
    out: &mut [u8],
)
    requires { Readable keys.now partners.now offs.now w logs.now n × (heading_size + length (records_of (read_from keys.now partners.now offs.now w logs.now dead.now n 0 0)) ≤ length out.old) }
    ensures { out.new ≡ sets out.old heading_size (records_of (read_from keys.now partners.now offs.now w logs.now dead.now n 0 0)) }
{
    let mut a = 0;
    let mut first = 0;
    for i in 0..n {
        let e = offset_at(offs, w, i + 1) as usize;
        let key = key_at(keys, i);
        first = put_group_edges(&partners[a..e], key, logs, dead, first, out);
        a = e;
    }
}

// Writes the edges of a file that the full check passed.
pub fn put_edges_of(file: &[u8], o: Opened, out: &mut [u8])
    requires { (checked_of file.now ≡ Ok o) × (heading_size + length (records_of (edges_in (known_of file.now o))) ≤ length out.old) }
    ensures { out.new ≡ sets out.old heading_size (records_of (edges_in (known_of file.now o))) }
{
    put_all(
        bytes_of(file, o.keys),
        bytes_of(file, o.partners),
        bytes_of(file, o.offsets),
        (o.bits / 8) as usize,
        o.keycount as usize,
        bytes_of(file, o.logs),
        tombstones_of(file, o),
        out,
    );
}

// Writes s at `at`.
fn put_bytes(s: &[u8], out: &mut [u8], at: usize)
    requires { at + length s.now ≤ length out.old }
    ensures { out.new ≡ sets out.old at s.now }
{
    // Stays a loop by hand: for a copy of the library the archive would need `memcpy`, and the read-out needs `memset` alone.
    for k in 0..s.len() {
        out[at + k] = s[k];
    }
}

// Writes the heading that a file's header gives.
pub fn put_heading(file: &[u8], out: &mut [u8])
    requires { (header_size ≤ length file.now) × (heading_size ≤ length out.old) }
    ensures { out.new ≡ sets out.old 0 (heading_bytes (heading_in file.now)) }
{
    let flags = le::<4>(file, Header::FLAGS);
    out[0] = Edge::HEADING;
    out[1] = (flags / Header::INVERSE % 2) as u8;
    put_bytes(&file[Header::EDGE_TYPE..Header::SIZE], out, 2);
}

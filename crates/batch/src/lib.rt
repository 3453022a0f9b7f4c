// A batch: a heading and edges, one record each. The read-out makes one of a file, and the writer makes a file of one.
#![tactic(auto)]

ghost use Rattle.std.specs.Prelude.{◌≡◌, ◌+◌, ◌≤◌, length};
ghost use Rattle.std.proofs.lemmas.List.Edits.{sets};
ghost use Rattle.base.specs.Pick.{pick};
ghost use Rattle.batch.specs.Batch.{record_size, kind_of, edge_at, edge_bytes};

use codes::ids::{Id, id_at, put_id};
use codes::little::{le, put_le};

// An edge: a key, one of its partners, since when (its log number), and whether it is dead.
#[derive(Drop)]
pub struct Edge {
    pub key: Id,
    pub partner: Id,
    pub log: u64,
    pub dead: bool,
}

impl Edge {
    // The kinds of records: a live edge, a dead one, the heading.
    pub const LIVE: u8 = 1;

    pub const DEAD: u8 = 2;

    pub const HEADING: u8 = 3;

    // Bytes of an edge's record, and of the heading's.
    pub const RECORD: usize = 41;

    pub const HEAD: usize = 50;

    // Where the ids and the log number stand in a record, and the bytes of the log number, which end it.
    pub const KEY: usize = 1;

    pub const PARTNER: usize = 17;

    pub const LOG: usize = 33;

    pub const LOG_SIZE: usize = 8;
}

// The kind of an edge's record.
fn kind_of(dead: bool) -> u8
    ensures { result ≡ kind_of dead }
{
    if dead { Edge::DEAD } else { Edge::LIVE }
}

// The edge in the record at i.
pub fn edge_at(s: &[u8], i: usize) -> Edge
    requires { i + record_size ≤ length s.now }
    ensures { result ≡ edge_at s.now i }
{
    let key = id_at(s, i + Edge::KEY);
    let partner = id_at(s, i + Edge::PARTNER);
    let log = le::<8>(s, i + Edge::LOG);
    let dead = s[i] == Edge::DEAD;
    Edge {
        key,
        partner,
        log,
        dead,
    }
}

// Writes an edge's record at `at`.
pub fn put_edge(out: &mut [u8], at: usize, e: Edge)
    requires { at + record_size ≤ length out.old }
    ensures { out.new ≡ sets out.old at (edge_bytes e) }
{
    out[at] = kind_of(e.dead);
    put_id(out, at + Edge::KEY, e.key);
    put_id(out, at + Edge::PARTNER, e.partner);
    put_le(out, at + Edge::LOG, Edge::LOG_SIZE, e.log);
}

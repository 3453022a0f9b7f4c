// The check of a batch: its first faulty record, 24 or 25, at the record's first byte; or what is counted of its edges on
// the way.
#![tactic(auto)]

ghost use Rattle.std.specs.Prelude.{◌≡◌, ◌+◌, ◌*◌, ◌≤◌, length, ◌||◌, eqb, Err};
ghost use Rattle.refusal.specs.declared.Refusal.{Refusal};
ghost use Rattle.batch.specs.Batch.{record_size, place, edge_at, edges_at, is_edge, fault_from};
ghost use Rattle.batch_faults.specs.declared.Tally.{Tally};
ghost use Rattle.batch_faults.specs.Tally.{follow_by, follow_at, tally_by, tally_of};

use batch::Edge;
use codes::ids::{compare, id_at};
use refusal::Refusal;
use std::cmp::Ordering;

// How an edge follows the one before: with a new key, with the same key, or wrongly, as it is not above it.
#[derive(Drop)]
pub enum Follow {
    New,
    Same,
    Wrong,
}

// What the check of a good batch tells: how many keys it has, and whether an edge is dead.
#[derive(Clone, Copy, Debug, PartialEq, Eq)]
pub struct Tally {
    pub keys: usize,
    pub dead: bool,
}

// How the edge in the record at j follows the one at i, by key, then partner. What else the records hold is not read.
fn follow_by(s: &[u8], i: usize, j: usize) -> Follow
    requires { (i + record_size ≤ length s.now) × (j + record_size ≤ length s.now) }
    ensures { result ≡ follow_by (edge_at s.now i) (edge_at s.now j) }
{
    match compare(id_at(s, i + Edge::KEY), id_at(s, j + Edge::KEY)) {
        Ordering::Less => Follow::New,
        Ordering::Greater => Follow::Wrong,
        Ordering::Equal => match compare(id_at(s, i + Edge::PARTNER), id_at(s, j + Edge::PARTNER)) {
            Ordering::Less => Follow::Same,
            Ordering::Equal => Follow::Wrong,
            Ordering::Greater => Follow::Wrong,
        },
    }
}

// How edge e follows the one before it.
fn follow_at(s: &[u8], e: usize) -> Follow
    requires { place e + record_size ≤ length s.now }
    ensures { result ≡ follow_at s.now e }
{
    if e == 0 {
        return Follow::New;
    }
    let i = Edge::HEAD + Edge::RECORD * e;
    follow_by(s, i - Edge::RECORD, i)
}

fn is_edge(kind: u8) -> bool
    ensures { result ≡ is_edge kind }
{
    kind == Edge::LIVE || kind == Edge::DEAD
}

fn batch_fault(at: usize) -> Result<Tally, Refusal>
    ensures { result ≡ Err (Refusal.Batch at) }
{
    Err(Refusal::Batch { at: at as u64 })
}

// The first fault of n whole records, and of what lies after them; the keys and the dead are counted on the way.
fn tally_records(s: &[u8], n: usize) -> Result<Tally, Refusal>
    requires { place n ≤ length s.now }
    ensures { result ≡ tally_by (fault_from n s.now 0) (edges_at n s.now 0) }
{
    let mut keys: usize = 0;
    let mut dead = false;
    for e in 0..n {
        let i = Edge::HEAD + Edge::RECORD * e;
        let kind = s[i];
        if !is_edge(kind) {
            return batch_fault(i);
        }
        match follow_at(s, e) {
            Follow::Wrong => {
                return Err(Refusal::Unordered { at: i as u64 });
            }
            Follow::New => {
                keys += 1;
            }
            Follow::Same => {}
        }
        dead |= kind == Edge::DEAD;
    }
    let end = Edge::HEAD + Edge::RECORD * n;
    if end != s.len() {
        return batch_fault(end);
    }
    Ok(Tally { keys, dead })
}

// The first fault of a batch, or its keys and whether an edge is dead.
pub fn check_batch(s: &[u8]) -> Result<Tally, Refusal>
    ensures { result ≡ tally_of s.now }
{
    if s.len() < Edge::HEAD {
        return batch_fault(0);
    }
    if s[0] != Edge::HEADING {
        return batch_fault(0);
    }
    if 1 < s[1] {
        return batch_fault(0);
    }
    tally_records(s, (s.len() - Edge::HEAD) / Edge::RECORD)
}

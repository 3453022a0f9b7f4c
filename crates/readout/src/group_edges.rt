// The edges of one key, written as records of a batch. Edge e of the file has its record at 50 + 41 * e.
ghost use Rattle.std.specs.Prelude.{◌≡◌, ◌+◌, ◌*◌, ◌≤◌, length};
ghost use Rattle.std.proofs.lemmas.List.Edits.{sets};
ghost use Rattle.batch.specs.Batch.{place, records_of};
ghost use Rattle.frame.specs.Kind.{log_size, most_edges};
ghost use Rattle.group.specs.Group.{step_at, dense_step, walk_from, group_of, partners_of};
ghost use Rattle.readout.specs.Edges.{edge_of, edges_from, Writable};

use batch::{Edge, put_edge};
use codes::ids::{Id, id_at};
use codes::little::le;
use frame::kind::Logs;
use group::Partner;
use group::fault::{Fault, Flaw};
use group::head::{Head, head_of};
use group::split::split_step;
use lookup::known::mark_at;

// The partner at i of a dense group. The last place for one stands the same for all of them: a loop over them asks one thing.
fn dense_step(g: &[u8], i: usize) -> Result<(Id, usize), Fault>
    ensures { result ≡ dense_step g.now i }
{
    if g.len() < Partner::DENSE || g.len() - Partner::DENSE < i {
        return Err(Flaw::Cut.at(i));
    }
    Ok((id_at(g, i), i + Partner::DENSE))
}

// The partner at i, of either sort of group; hi is the upper half before. The sort stays an argument, as the contract names it.
fn step_at(dense: bool, g: &[u8], i: usize, hi: u64) -> Result<(Id, usize), Fault>
    ensures { result ≡ step_at dense g.now i hi }
{
    if dense {
        dense_step(g, i)
    } else {
        split_step(g, i, hi)
    }
}

// Edge e of a file: a key and a partner, with its log number and dead mark.
fn edge_with(logs: &[u8], dead: &[u8], key: Id, partner: Id, e: usize) -> Edge
    requires { (e ≤ most_edges) × (log_size * e + log_size ≤ length logs.now) }
    ensures { result ≡ edge_of logs.now dead.now key partner e }
{
    Edge {
        key,
        partner,
        log: le::<8>(logs, (Logs::ROW as usize) * e),
        dead: mark_at(dead, e) == 1,
    }
}

// Writes d edges of a key, from the payload at `at` of a good group; the first of them is edge `first`.
fn put_edges(
    dense: bool,
    g: &[u8],
    at: usize,
    d: usize,
    key: Id,
    logs: &[u8],
    dead: &[u8],
    first: usize,
    out: &mut [u8],
)
    requires { Writable (walk_from dense d g.now at 0 0) d key logs.now dead.now first out.old }
    ensures { out.new ≡ sets out.old (place first) (records_of (edges_from logs.now dead.now key first (partners_of (walk_from dense d g.now at 0 0)))) }
{
    let mut i = at;
    let mut hi = 0;
    for k in 0..d {
        let Ok((id, next)) = step_at(dense, g, i, hi) else {
            return;
        };
        let e = edge_with(logs, dead, key, id, first + k);
        put_edge(out, Edge::HEAD + Edge::RECORD * (first + k), e);
        hi = id.hi;
        i = next;
    }
}

// Writes the edges of a key whose group g is good, and answers the number of the edge after them.
pub fn put_group_edges(
    g: &[u8],
    key: Id,
    logs: &[u8],
    dead: &[u8],
    first: usize,
    out: &mut [u8],
) -> usize
    requires { Writable (group_of g.now) (length (partners_of (group_of g.now))) key logs.now dead.now first out.old }
    ensures { (result ≡ first + length (partners_of (group_of g.now))) × (out.new ≡ sets out.old (place first) (records_of (edges_from logs.now dead.now key first (partners_of (group_of g.now))))) }
{
    match head_of(g) {
        Ok(Head::Split { degree, at }) => {
            put_edges(false, g, at, degree as usize, key, logs, dead, first, out);
            first + degree as usize
        }
        Ok(Head::Dense { degree, at }) => {
            put_edges(true, g, at, degree as usize, key, logs, dead, first, out);
            first + degree as usize
        }
        Err(_) => first,
    }
}

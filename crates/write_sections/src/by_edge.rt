// Log numbers and tombstones: a part for each edge, written in one pass over the edges.
ghost use Rattle.std.specs.Prelude.{◌≡◌, ◌+◌, ◌-◌, ◌≤◌, ◌<◌, [], ◌∷◌, ◌++◌, length, get_or, drop};
ghost use Rattle.std.proofs.lemmas.List.Edits.{sets};
ghost use Rattle.batch.specs.Batch.{marks_in, edges_of};
ghost use Rattle.base.specs.Over.{part};
ghost use Rattle.base.specs.Put.{Put};
ghost use Rattle.frame.specs.Kind.{most_edges};
ghost use Rattle.batch_groups.specs.Groups.{none};
ghost use Rattle.write_image.specs.Image.{log_bytes, bit, octet, tomb_bytes};

use codes::little::put_le;
use frame::kind::Logs;
use write_source::{dead_of, log_of};

// Writes the log numbers of the edges i up to j.
pub fn put_logs(batch: &[u8], i: usize, j: usize, out: &mut [u8], at: usize) -> usize
    requires { (i ≤ j) × (j ≤ length (edges_of batch.now)) × (at + length (log_bytes (part (edges_of batch.now) i j)) ≤ length out.old) }
    ensures { Put out.old out.new at result (log_bytes (part (edges_of batch.now) i j)) }
{
    let mut to = at;
    for k in i..j {
        let log = log_of(batch, k);
        put_le(out, to, Logs::ROW as usize, log);
        to += Logs::ROW as usize;
    }
    to
}

// The mark of edge e as a bit.
fn mark_of(batch: &[u8], e: usize) -> u64
    requires { e < length (edges_of batch.now) }
    ensures { (result ≡ bit (get_or (edges_of batch.now) e none).dead) × (result ≤ 1) }
{
    u64::from(dead_of(batch, e))
}

// The marks of the edges i up to j, at most eight, as one byte: the first is the lowest bit.
fn octet_of(batch: &[u8], i: usize, j: usize) -> u8
    requires { (i ≤ j) × (j ≤ i + 8) × (j ≤ length (edges_of batch.now)) }
    ensures { result ≡ octet (j - i) (marks_in (drop i (edges_of batch.now))) }
{
    let mut x: u64 = 0;
    for k in (i..j).rev() {
        x = mark_of(batch, k) + 2 * x;
    }
    x as u8
}

// The edges i up to j, at most eight: their log numbers at p, their marks at t.
fn put_octet(batch: &[u8], i: usize, j: usize, out: &mut [u8], p: usize, t: usize)
    requires { (i ≤ j) × (j ≤ i + 8) × (j ≤ length (edges_of batch.now)) × (p + length (log_bytes (part (edges_of batch.now) i j)) ≤ length out.old) × (t < length out.old) }
    ensures { out.new ≡ sets (sets out.old p (log_bytes (part (edges_of batch.now) i j))) t (octet (j - i) (marks_in (drop i (edges_of batch.now))) ∷ []) }
{
    put_logs(batch, i, j, out, p);
    out[t] = octet_of(batch, i, j);
}

// Log numbers and tombstones of n edges, one section after the other from `at` on, by eight edges: of eight, the compiler
// writes the loops out. Answers the place after them.
pub fn put_logs_tombs(batch: &[u8], n: usize, out: &mut [u8], at: usize) -> usize
    requires { (n ≡ length (edges_of batch.now)) × (n ≤ most_edges) × (at + length (log_bytes (edges_of batch.now) ++ tomb_bytes (edges_of batch.now)) ≤ length out.old) }
    ensures { Put out.old out.new at result (log_bytes (edges_of batch.now) ++ tomb_bytes (edges_of batch.now)) }
{
    let full = n / 8;
    let mut p = at;
    let mut t = at + (Logs::ROW as usize) * n;
    for q in 0..full {
        put_octet(batch, 8 * q, 8 * q + 8, out, p, t);
        p += 8 * (Logs::ROW as usize);
        t += 1;
    }
    if n <= 8 * full {
        return t;
    }
    put_octet(batch, 8 * full, n, out, p, t);
    t + 1
}

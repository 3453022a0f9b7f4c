// Reading what a record's ranges say: the group of a key, its place among the edges, log numbers and dead marks.
ghost use Rattle.std.specs.Prelude.{◌≡◌, ◌+◌, ◌*◌, ◌/◌, ◌≤◌, ◌<◌, length};
ghost use Rattle.base.specs.Over.{over};
ghost use Rattle.codes.specs.Ids.{id_number};
ghost use Rattle.frame.specs.Kind.{log_size, most_edges};
ghost use Rattle.frame.specs.Open.{bytes_at, known_of, offset_at};
ghost use Rattle.index.specs.Find.{find_in};
ghost use Rattle.degrees.specs.Degrees.{capped};
ghost use Rattle.lookup.specs.Lookup.{before, mark_at, logs_from, marks_from};
ghost use Rattle.lookup.specs.Record.{Holds};

use codes::ids::Id;
use codes::little::le;
use degrees::{edges_before, start_of};
use frame::kind::Logs;
use frame::{Opened, Row, bytes_of};
use index::keys::{Found, find};
use index::offsets::offset_at;

// The key's index among the keys, or absence.
pub fn locate(file: &[u8], o: Opened, key: Id) -> Found
    requires { Holds file.now o }
    ensures { result ≡ find_in (bytes_at file.now o.keys) o.keycount (id_number key) }
{
    find(bytes_of(file, o.keys), o.keycount as usize, key)
}

// Where group i begins among the partners; of the last offset, where they end.
pub fn offset_of(file: &[u8], o: Opened, i: u64) -> usize
    requires { Holds file.now o × (i ≤ o.keycount) }
    ensures { result ≡ offset_at (bytes_at file.now o.offsets) (o.bits / 8) i }
{
    offset_at(bytes_of(file, o.offsets), (o.bits / 8) as usize, i as usize) as usize
}

// Where the d edges of group i begin, if that is no more than the file has: as the start index says, or after all edges of the
// groups before it.
pub fn edges_of(file: &[u8], o: Opened, i: u64, d: u64) -> Option<u64>
    requires { Holds file.now o × (i < o.keycount) }
    ensures { result ≡ capped o.edgecount (before (known_of file.now o) i d) }
{
    if o.indexed {
        return start_of(bytes_of(file, o.starts), i as usize, d, o.edgecount);
    }
    edges_before(
        bytes_of(file, o.partners),
        bytes_of(file, o.offsets),
        (o.bits / 8) as usize,
        i as usize,
        o.edgecount,
    )
}

// Writes the log numbers of d edges from edge `first` on over the start of `out`.
pub fn fill_logs(s: &[u8], first: usize, d: usize, out: &mut [u64])
    requires { (first ≤ most_edges) × (d ≤ most_edges) × (log_size * (first + d) ≤ length s.now) × (d ≤ length out.old) }
    ensures { out.new ≡ over (logs_from d s.now first) out.old }
{
    for j in 0..d {
        out[j] = le::<8>(s, (Logs::ROW as usize) * (first + j));
    }
}

// The dead mark of edge e, 0 where the tombstones do not reach it.
pub fn mark_at(s: &[u8], e: usize) -> u8
    ensures { result ≡ mark_at s.now e }
{
    match s.get(e / 8) {
        Some(byte) => (byte >> (e % 8)) % 2,
        None => 0,
    }
}

// Writes the dead marks of d edges from edge `first` on over the start of `out`.
pub fn fill_marks(s: &[u8], first: usize, d: usize, out: &mut [u8])
    requires { (first ≤ most_edges) × (d ≤ most_edges) × (d ≤ length out.old) }
    ensures { out.new ≡ over (marks_from d s.now first) out.old }
{
    for j in 0..d {
        out[j] = mark_at(s, first + j);
    }
}

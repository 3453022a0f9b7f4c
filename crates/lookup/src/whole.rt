// Partners with their log numbers and dead marks, of a record whose ranges hold.
ghost use Rattle.std.specs.Prelude.{◌≡◌, true, [], ◌+◌, ◌≤◌, ◌<◌, length, Ok};
ghost use Rattle.base.specs.Pick.{pick};
ghost use Rattle.base.specs.Over.{over};
ghost use Rattle.codes.specs.Ids.{id_number};
ghost use Rattle.frame.specs.Open.{known_of, bytes_at};
ghost use Rattle.group.specs.Group.{bytes_of};
ghost use Rattle.lookup.specs.Lookup.{partners_at, logs_from, marks_from, short, look_group, look_in};
ghost use Rattle.lookup.specs.Calls.{lent, group, WholeBy};
ghost use Rattle.lookup.specs.Groups.{Fills};
ghost use Rattle.lookup.specs.Record.{Holds};

use super::Looked;
use super::groups::{give_partners, group_of};
use super::known::{edges_of, fill_logs, fill_marks, locate};
use codes::ids::Id;
use frame::{Opened, bytes_of};
use group::Partner;
use index::keys::Found;
use refusal::Refusal;

// The tombstones, none where there is no such section.
pub fn tombstones_of<'a>(file: &'a [u8], o: Opened) -> &'a [u8]
    requires { Holds file.now o }
    ensures { result.now ≡ pick o.marked (bytes_at file.now o.dead) [] }
{
    if o.marked {
        bytes_of(file, o.dead)
    } else {
        &[]
    }
}

// Writes the log numbers of d edges from edge `first` on.
fn give_logs(file: &[u8], o: Opened, first: u64, d: u64, out: &mut [u64])
    requires { Holds file.now o × (first + d ≤ o.edgecount) × (d ≤ length out.old) }
    ensures { out.new ≡ over (logs_from d (bytes_at file.now o.logs) first) out.old }
{
    fill_logs(bytes_of(file, o.logs), first as usize, d as usize, out);
}

// Writes their dead marks.
fn give_marks(file: &[u8], o: Opened, first: u64, d: u64, out: &mut [u8])
    requires { Holds file.now o × (first + d ≤ o.edgecount) × (d ≤ length out.old) }
    ensures { out.new ≡ over (marks_from d (pick o.marked (bytes_at file.now o.dead) []) first) out.old }
{
    fill_marks(tombstones_of(file, o), first as usize, d as usize, out);
}

// Some output is too short for d edges: n partner bytes, l log numbers or m dead marks.
fn short_of(n: usize, l: usize, m: usize, d: u64) -> bool
    ensures { result ≡ short true (lent n l m) d }
{
    let room = (n / Partner::DENSE).min(l).min(m);
    (room as u64) < d
}

// The edges of group i, which is good and has `degree` partners. Degrees are refused where an earlier one is unreadable or 0, the
// start index gives the group another one, or the edges pass the edge count.
fn group_edges(
    file: &[u8],
    o: Opened,
    i: u64,
    compared: u64,
    degree: u64,
    out: &mut [u8],
    logs: &mut [u64],
    marks: &mut [u8],
) -> Result<Looked, Refusal>
    requires { Holds file.now o × (i < o.keycount) × (group file.now o i ≡ Ok degree) }
    ensures { WholeBy (λ rooms. look_group true rooms (known_of file.now o) i compared) result out.old out.new logs.old logs.new marks.old marks.new }
{
    let edges = edges_of(file, o, i, degree).ok_or(Refusal::Degrees { group: i })?;
    if o.edgecount - edges < degree {
        return Err(Refusal::Degrees { group: i });
    }
    if short_of(out.len(), logs.len(), marks.len(), degree) {
        return Err(Refusal::Room { needed: degree });
    }
    give_partners(file, o, i, out);
    give_logs(file, o, edges, degree, logs);
    give_marks(file, o, edges, degree, marks);
    Ok(Looked::Found {
        degree,
        index: i,
        compared,
    })
}

// The partners of a key with their log numbers and dead marks.
pub fn edges_of_key(
    file: &[u8],
    o: Opened,
    key: Id,
    out: &mut [u8],
    logs: &mut [u64],
    marks: &mut [u8],
) -> Result<Looked, Refusal>
    requires { Holds file.now o }
    ensures { WholeBy (λ rooms. look_in true rooms (known_of file.now o) (id_number key)) result out.old out.new logs.old logs.new marks.old marks.new }
{
    match locate(file, o, key) {
        Found::Absent { compared } => Ok(Looked::Absent { compared }),
        Found::At { index, compared } => {
            let degree = group_of(file, o, index)?;
            group_edges(file, o, index, compared, degree, out, logs, marks)
        }
    }
}

// What the groups and the tombstones of a file say together: all groups, then rule 23.
ghost use Rattle.std.specs.Prelude.{◌≡◌, not, ◌&&◌, [], ◌/◌, eqb, Ok};
ghost use Rattle.std.specs.Bool.{beq};
ghost use Rattle.base.specs.Pick.{pick};
ghost use Rattle.frame.specs.Frame.{flag, flags_of};
ghost use Rattle.frame.specs.Open.{bytes_at, known_of, open_of};
ghost use Rattle.full_check.specs.Full.{marks_of, groups_seen, edges_check};

use super::groups::{Groups, groups_of};
use super::marks::{Marks, marks_of};
use codes::little::le;
use frame::ends::Header;
use frame::{Opened, bytes_of};
use open_counts::flag_of;
use refusal::Refusal;

// The marks of a file's edges: without tombstones every edge is live.
fn marks_in(file: &[u8], o: Opened) -> Marks
    requires { open_of file.now ≡ Ok o }
    ensures { result ≡ marks_of (pick o.marked (bytes_at file.now o.dead) []) o.edgecount }
{
    if o.marked {
        return marks_of(bytes_of(file, o.dead), o.edgecount as usize);
    }
    Marks {
        dead: false,
        unused: false,
    }
}

// The start index, no bytes where there is none.
fn starts_in<'a>(file: &'a [u8], o: Opened) -> &'a [u8]
    requires { open_of file.now ≡ Ok o }
    ensures { result.now ≡ pick o.indexed (bytes_at file.now o.starts) [] }
{
    if o.indexed {
        return bytes_of(file, o.starts);
    }
    &file[0..0]
}

// All groups of a file.
fn groups_in(file: &[u8], o: Opened) -> Result<Groups, Refusal>
    requires { open_of file.now ≡ Ok o }
    ensures { result ≡ groups_seen (bytes_at file.now o.partners) (bytes_at file.now o.offsets) (o.bits / 8) o.keycount o.indexed (pick o.indexed (bytes_at file.now o.starts) []) }
{
    groups_of(
        bytes_of(file, o.partners),
        bytes_of(file, o.offsets),
        (o.bits / 8) as usize,
        o.keycount as usize,
        o.indexed,
        starts_in(file, o),
    )
}

// Rule 23, of the flags, the edge count, the marks and the groups.
fn data_good(flags: u64, count: u64, m: Marks, g: Groups) -> bool
    ensures { result ≡ (eqb g.edges count && (beq (flag 1 flags) m.dead && (beq (flag 2 flags) g.dense && (not m.unused && not g.stray)))) }
{
    g.edges == count
        && flag_of(flags, 2) == m.dead
        && flag_of(flags, 4) == g.dense
        && !m.unused
        && !g.stray
}

// All groups, then rule 23, of a file that opens.
pub fn edges_check(file: &[u8], o: Opened) -> Result<(), Refusal>
    requires { open_of file.now ≡ Ok o }
    ensures { result ≡ edges_check (flags_of file.now) (known_of file.now o) }
{
    let groups = groups_in(file, o)?;
    let marks = marks_in(file, o);
    if !data_good(le::<4>(file, Header::FLAGS), o.edgecount, marks, groups) {
        return Err(Refusal::Data);
    }
    Ok(())
}

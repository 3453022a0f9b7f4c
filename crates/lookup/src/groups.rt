// The group asked for: its faults, or its degree; and its partners given out.
ghost use Rattle.std.specs.Prelude.{◌≡◌, ◌+◌, ◌*◌, ◌/◌, ◌≤◌, ◌<◌, length};
ghost use Rattle.base.specs.Over.{part, over};
ghost use Rattle.frame.specs.Open.{bytes_at, offset_at};
ghost use Rattle.degrees.specs.Degrees.{group_at};
ghost use Rattle.group.specs.Group.{group_of, partners_of, bytes_of};
ghost use Rattle.lookup.specs.Groups.{group_seen, Fills};
ghost use Rattle.lookup.specs.Record.{Holds};

use super::known::offset_of;
use frame::{Opened, bytes_of};
use group::fault::refusal_of;
use group::{check_group, fill_group};
use refusal::Refusal;

// Group i, from a to e of the partners.
fn group_seen(partners: &[u8], a: usize, e: usize, i: u64) -> Result<u64, Refusal>
    ensures { result ≡ group_seen partners.now a e i }
{
    let bytes = partners.get(a..e).ok_or(Refusal::Offset { index: i })?;
    let group = check_group(bytes).map_err(|fault| refusal_of(i, fault))?;
    Ok(group.degree)
}

// Group i of a record.
pub fn group_of(file: &[u8], o: Opened, i: u64) -> Result<u64, Refusal>
    requires { Holds file.now o × (i < o.keycount) }
    ensures { result ≡ group_seen (bytes_at file.now o.partners) (offset_at (bytes_at file.now o.offsets) (o.bits / 8) i) (offset_at (bytes_at file.now o.offsets) (o.bits / 8) (i + 1)) i }
{
    let a = offset_of(file, o, i);
    let e = offset_of(file, o, i + 1);
    group_seen(bytes_of(file, o.partners), a, e, i)
}

// Writes the partners of a good group from a to e.
fn fill_part(partners: &[u8], a: usize, e: usize, out: &mut [u8])
    requires { Fills partners.now a e (length out.old) }
    ensures { out.new ≡ over (bytes_of (partners_of (group_of (part partners.now a e)))) out.old }
{
    fill_group(&partners[a..e], out);
}

// Writes the partners of group i of a record, which is good.
pub fn give_partners(file: &[u8], o: Opened, i: u64, out: &mut [u8])
    requires { Holds file.now o × (i < o.keycount) × Fills (bytes_at file.now o.partners) (offset_at (bytes_at file.now o.offsets) (o.bits / 8) i) (offset_at (bytes_at file.now o.offsets) (o.bits / 8) (i + 1)) (length out.old) }
    ensures { out.new ≡ over (bytes_of (partners_of (group_of (group_at (bytes_at file.now o.partners) (bytes_at file.now o.offsets) (o.bits / 8) i)))) out.old }
{
    let a = offset_of(file, o, i);
    let e = offset_of(file, o, i + 1);
    fill_part(bytes_of(file, o.partners), a, e, out);
}

// Split groups, tag 0x01: of each partner the upper half's difference to the one before as a varint, and the lower half
// as eight bytes, the lowest first.
ghost use Rattle.std.specs.Prelude.{◌≡◌, true, false, ◌*◌, ◌≤◌, length, leb};
ghost use Rattle.base.specs.Over.{over};
ghost use Rattle.codes.specs.Ids.{id_number};
ghost use Rattle.group.specs.Group.{dense_size, split_step, floor_of, walk_from, verdict_of, is_good, partners_of, bytes_of};

use super::fault::{Fault, Flaw};
use super::{Group, Partner};
use codes::ids::{Id, compare, put_be64};
use codes::little::le;
use codes::varint::short_at;

// The partner at i, after one with the upper half hi; the first comes after 0.
pub fn split_step(g: &[u8], i: usize, hi: u64) -> Result<(Id, usize), Fault>
    ensures { result ≡ split_step g.now i hi }
{
    // No `map_err`: its result would take the number apart into bytes.
    let (difference, next) = match short_at(g, i) {
        Ok(read) => read,
        Err(why) => return Err(Flaw::Number { why }.at(i)),
    };
    if u64::MAX - hi < difference {
        return Err(Flaw::Upper.at(i));
    }
    let after = next + Partner::LOWER;
    if g.len() < after {
        return Err(Flaw::Cut.at(i));
    }
    let upper = hi + difference;
    let lo = le::<8>(g, next);
    Ok((Id { hi: upper, lo }, after))
}

// Is partner k above the last one? Partner 0 has none before it. By `compare`, not `<`: see there.
fn in_order(k: u64, last: Id, id: Id) -> bool
    ensures { result ≡ leb (floor_of k last) (id_number id) }
{
    k == 0 || compare(last, id).is_lt()
}

// Checks the partners from `at` on.
pub fn check_split(g: &[u8], at: usize, degree: u64) -> Result<Group, Fault>
    ensures { result ≡ verdict_of (walk_from false degree g.now at 0 0) }
{
    let mut i = at;
    let mut last = Id { hi: 0, lo: 0 };
    for k in 0..degree {
        let (id, next) = split_step(g, i, last.hi)?;
        if !in_order(k, last, id) {
            return Err(Flaw::Order.at(i));
        }
        last = id;
        i = next;
    }
    if i != g.len() {
        return Err(Flaw::Spare.at(i));
    }
    Ok(Group {
        degree,
        dense: false,
    })
}

// Writes the partners from `at` on, which were checked.
pub fn fill_split(g: &[u8], at: usize, degree: u64, out: &mut [u8])
    requires { (is_good (walk_from false degree g.now at 0 0) ≡ true) × (dense_size * degree ≤ length out.old) }
    ensures { out.new ≡ over (bytes_of (partners_of (walk_from false degree g.now at 0 0))) out.old }
{
    let mut i = at;
    let mut hi = 0;
    for k in 0..degree as usize {
        let Ok((difference, next)) = short_at(g, i) else {
            return;
        };
        let to = Partner::DENSE * k;
        hi += difference;
        put_be64(out, to, hi);
        put_be64(out, to + Partner::LOWER, le::<8>(g, next));
        i = next + Partner::LOWER;
    }
}

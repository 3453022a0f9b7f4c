// Dense groups, tag 0x10: 16 bytes for each partner.
ghost use Rattle.std.specs.Prelude.{◌≡◌, true, ◌+◌, ◌-◌, ◌*◌, ◌≤◌, ◌<◌, length, drop};
ghost use Rattle.base.specs.Over.{over};
ghost use Rattle.group.specs.Group.{dense_size, walk_from, verdict_of};

use super::fault::{Fault, Flaw};
use super::{Group, Partner};
use codes::ids::{be64, precedes};

// How many partners of the degree lie whole in so many bytes.
fn whole(rest: usize, degree: u64) -> usize
    ensures { (result ≤ degree) × (dense_size * result ≤ rest) × (result < degree → rest < dense_size * (result + 1)) }
{
    degree.min((rest / Partner::DENSE) as u64) as usize
}

// Checks the partners from `at` on. Those that lie whole are read first; only then is it seen whether one more is cut, or bytes
// are left over.
pub fn check_dense(g: &[u8], at: usize, degree: u64) -> Result<Group, Fault>
    requires { (at ≤ length g.now) × (1 ≤ degree) }
    ensures { result ≡ verdict_of (walk_from true degree g.now at 0 0) }
{
    let count = whole(g.len() - at, degree);
    if count == 0 {
        return Err(Flaw::Cut.at(at));
    }
    let mut last = be64(g, at);
    for k in 1..count {
        let i = at + Partner::DENSE * k;
        let hi = be64(g, i);
        if !precedes(g, i - Partner::DENSE, i, last, hi) {
            return Err(Flaw::Order.at(i));
        }
        last = hi;
    }
    let end = at + Partner::DENSE * count;
    if (count as u64) < degree {
        return Err(Flaw::Cut.at(end));
    }
    if end < g.len() {
        return Err(Flaw::Spare.at(end));
    }
    Ok(Group {
        degree,
        dense: true,
    })
}

// Copies the payload, from `at` on, which is the partners' bytes as they stand.
pub fn fill_dense(g: &[u8], at: usize, out: &mut [u8])
    requires { (at ≤ length g.now) × (length g.now - at ≤ length out.old) }
    ensures { out.new ≡ over (drop at g.now) out.old }
{
    // Stays a loop by hand: for a copy of the library the archive would need `memcpy`, and its lookups need `memset` alone.
    for k in 0..g.len() - at {
        out[k] = g[at + k];
    }
}

// All groups of a file, in one pass, and the start index against their degrees.
ghost use Rattle.std.specs.Prelude.{◌≡◌, true, not, ◌&&◌, ◌||◌, ◌+◌, ◌*◌, ◌≤◌, length, eqb, Err};
ghost use Rattle.frame.specs.Kind.{most_keys, starts_len};
ghost use Rattle.frame.specs.Open.{start_at};
ghost use Rattle.index.specs.Order.{OffsetsRise};
ghost use Rattle.full_check.specs.declared.groups.Groups.{Groups};
ghost use Rattle.full_check.specs.Full.{groups_seen};

use group::check_group;
use group::fault::refusal_of;
use index::offsets::offset_at;
use index::starts::start_at;
use refusal::Refusal;

// The sum of the degrees, whether a group is dense, and whether an entry of the start index is unlike the degrees.
#[derive(Clone, Copy, Debug, PartialEq, Eq)]
pub struct Groups {
    pub edges: u64,
    pub dense: bool,
    pub stray: bool,
}

// Is entry i of the start index, where there is one, another number?
fn stray_at(there: bool, starts: &[u8], i: usize, edges: u64) -> bool
    requires { (i ≤ most_keys) × (there ≡ true → starts_len i ≤ length starts.now) }
    ensures { result ≡ (there && not (eqb (start_at starts.now i) edges)) }
{
    there && start_at(starts, i) != edges
}

// Checks n groups by their offsets of w bytes, which rise from 0 to the partners' length, and the start index, where it is there.
pub fn groups_of(
    partners: &[u8],
    offs: &[u8],
    w: usize,
    n: usize,
    there: bool,
    starts: &[u8],
) -> Result<Groups, Refusal>
    requires { (3 ≤ w) × (w ≤ 6) × (n ≤ most_keys) × ((n + 1) * w ≤ length offs.now) × OffsetsRise offs.now w n (length partners.now) × (there ≡ true → starts_len n ≤ length starts.now) }
    ensures { result ≡ groups_seen partners.now offs.now w n there starts.now }
{
    let mut edges: u64 = 0;
    let mut dense = false;
    let mut stray = false;
    let mut a: usize = 0;
    for i in 0..n {
        let e = offset_at(offs, w, i + 1) as usize;
        let group = match check_group(&partners[a..e]) {
            Ok(group) => group,
            Err(fault) => return Err(refusal_of(i as u64, fault)),
        };
        stray |= stray_at(there, starts, i, edges);
        edges += group.degree;
        dense |= group.dense;
        a = e;
    }
    stray |= stray_at(there, starts, n, edges);
    Ok(Groups {
        edges,
        dense,
        stray,
    })
}

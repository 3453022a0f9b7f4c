// One group: the partners of a key. A call is lent the bytes of the group and of nothing else, since a group ends where
// its offset range ends. The check reads them once and writes nothing; only a group that it found good is then written out.
#![tactic(auto)]

ghost use Rattle.std.specs.Prelude.{◌≡◌, true, ◌*◌, ◌≤◌, length};
ghost use Rattle.base.specs.Over.{over};
ghost use Rattle.group.specs.Group.{dense_size, group_of, verdict_of, is_good, partners_of, bytes_of};

pub mod dense;
pub mod fault;
pub mod head;
pub mod split;

use dense::{check_dense, fill_dense};
use fault::Fault;
use head::{Head, head_of};
use split::{check_split, fill_split};

// A partner's bytes in a dense group, and those of its lower half in a split one.
#[derive(Drop)]
pub struct Partner {}

impl Partner {
    pub const DENSE: usize = 16;

    pub const LOWER: usize = 8;
}

// What the check of a good group tells: how many partners it has, and whether it is dense.
#[derive(Clone, Copy, Debug, PartialEq, Eq)]
pub struct Group {
    pub degree: u64,
    pub dense: bool,
}

// Is g a group, and of how many partners?
pub fn check_group(g: &[u8]) -> Result<Group, Fault>
    ensures { result ≡ verdict_of (group_of g.now) }
{
    match head_of(g)? {
        Head::Split { degree, at } => check_split(g, at, degree),
        Head::Dense { degree, at } => check_dense(g, at, degree),
    }
}

// Writes the partners of a good group, 16 bytes each, over the start of `out`.
pub fn fill_group(g: &[u8], out: &mut [u8])
    requires { (is_good (group_of g.now) ≡ true) × (dense_size * length (partners_of (group_of g.now)) ≤ length out.old) }
    ensures { out.new ≡ over (bytes_of (partners_of (group_of g.now))) out.old }
{
    match head_of(g) {
        Ok(Head::Split { degree, at }) => fill_split(g, at, degree, out),
        Ok(Head::Dense { at, .. }) => fill_dense(g, at, out),
        Err(_) => {}
    }
}

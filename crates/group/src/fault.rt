// What is wrong with a group, and where. A fault is made where it is met and handed on as it is; only `refusal_of` takes it apart.
ghost use Rattle.std.specs.Prelude.{◌≡◌};
ghost use Rattle.group.specs.Fault.{fault_at, unread_of, refusal_of};

use codes::varint::Unread;
use refusal::Refusal;

// What is wrong.
#[derive(Clone, Copy, Debug, PartialEq, Eq)]
pub enum Flaw {
    // the tag is unknown
    Tag,
    // a varint is no number
    Number { why: Unread },
    // the degree is 0
    Degree,
    // a partner is not above the one before
    Order,
    // a partner's upper half passes 2^64 - 1
    Upper,
    // the group ends before its tag or within a partner
    Cut,
    // bytes are left after the last partner
    Spare,
}

// The first fault in reading order. `at` counts from the group's first byte: the varint's first byte (its own flaws, the
// degree's, the upper half's), the partner's (order, cut), the tag's (unknown, missing), or the first spare one.
#[derive(Clone, Copy, Debug, PartialEq, Eq)]
pub struct Fault {
    pub flaw: Flaw,
    pub at: usize,
}

impl Flaw {
    // This flaw at a byte of the group.
    pub fn at(self, at: usize) -> Fault
        ensures { result ≡ fault_at self at }
    {
        Fault { flaw: self, at }
    }
}

// The refusal of a varint that is no number.
fn unread_of(byte: u64, group: u64, why: Unread) -> Refusal
    ensures { result ≡ unread_of byte group why }
{
    match why {
        Unread::Cut => Refusal::VarintCut { byte, group },
        Unread::Long => Refusal::VarintLong { byte, group },
        Unread::Large => Refusal::VarintLarge { byte, group },
    }
}

// The refusal that tells a fault of a group by its index.
pub fn refusal_of(group: u64, fault: Fault) -> Refusal
    ensures { result ≡ refusal_of group fault }
{
    let byte = fault.at as u64;
    let flaw = fault.flaw;
    match flaw {
        Flaw::Tag => Refusal::Tag { byte, group },
        Flaw::Number { why } => unread_of(byte, group, why),
        Flaw::Degree => Refusal::DegreeZero { byte, group },
        Flaw::Order => Refusal::PartnerOrder { byte, group },
        Flaw::Upper => Refusal::UpperHalf { byte, group },
        Flaw::Cut => Refusal::GroupCut { byte, group },
        Flaw::Spare => Refusal::SpareBytes { byte, group },
    }
}

// Why a call refuses: one case for each number. The cases, their numbers and their places are made from refusals.txt by
// tools/refusals, here and in specs/Refusal.antt.
#![tactic(auto)]

ghost use Rattle.std.specs.Prelude.{◌≡◌};
ghost use Rattle.refusal.specs.Refusal.{number_of, place_of, beside_of};

#[derive(Clone, Copy, Debug, PartialEq, Eq)]
pub enum Refusal {
    // cases: from refusals.txt
    // opening
    Size,
    Magic,
    Major,
    HeaderSize,
    Flags,
    TailMagic,
    FooterLength,
    FooterSum,
    Table,
    Codec { entry: u64 },
    Range { entry: u64 },
    Counts,
    Key { index: u64 },
    Offset { index: u64 },
    Fences,
    // groups and lookups
    Tag { byte: u64, group: u64 },
    Degrees { group: u64 },
    Room { needed: u64 },
    Record,
    // the full check
    Sum { entry: u64 },
    Data,
    // the writer
    Batch { at: u64 },
    Unordered { at: u64 },
    Bounds,
    // the running sum
    Chunk,
    // what is wrong with a group
    DegreeZero { byte: u64, group: u64 },
    PartnerOrder { byte: u64, group: u64 },
    UpperHalf { byte: u64, group: u64 },
    GroupCut { byte: u64, group: u64 },
    SpareBytes { byte: u64, group: u64 },
    VarintCut { byte: u64, group: u64 },
    VarintLong { byte: u64, group: u64 },
    VarintLarge { byte: u64, group: u64 },
    // sections that change what the others mean
    Reserved { entry: u64 },
    // where a group's log numbers begin
    Start { index: u64 },
    // cases: to here
}

// A refusal as the documents tell it: its number, its place, and a second place beside it, which is 0 where there is none.
#[derive(Drop)]
pub struct Told {
    pub number: u8,
    pub place: u64,
    pub beside: u64,
}

fn tell(number: u8, place: u64, beside: u64) -> Told
    ensures { (result.number ≡ number) × (result.place ≡ place) × (result.beside ≡ beside) }
{
    Told {
        number,
        place,
        beside,
    }
}

// The number and the places of a refusal.
pub fn told_of(r: Refusal) -> Told
    ensures { (result.number ≡ number_of r) × (result.place ≡ place_of r) × (result.beside ≡ beside_of r) }
{
    match r {
        // told: from refusals.txt
        Refusal::Size => tell(1, 0, 0),
        Refusal::Magic => tell(2, 0, 0),
        Refusal::Major => tell(3, 0, 0),
        Refusal::HeaderSize => tell(4, 0, 0),
        Refusal::Flags => tell(5, 0, 0),
        Refusal::TailMagic => tell(6, 0, 0),
        Refusal::FooterLength => tell(7, 0, 0),
        Refusal::FooterSum => tell(8, 0, 0),
        Refusal::Table => tell(9, 0, 0),
        Refusal::Codec { entry } => tell(10, entry, 0),
        Refusal::Range { entry } => tell(11, entry, 0),
        Refusal::Counts => tell(12, 0, 0),
        Refusal::Key { index } => tell(13, index, 0),
        Refusal::Offset { index } => tell(14, index, 0),
        Refusal::Fences => tell(15, 0, 0),
        Refusal::Tag { byte, group } => tell(16, byte, group),
        Refusal::Degrees { group } => tell(19, group, 0),
        Refusal::Room { needed } => tell(20, needed, 0),
        Refusal::Record => tell(21, 0, 0),
        Refusal::Sum { entry } => tell(22, entry, 0),
        Refusal::Data => tell(23, 0, 0),
        Refusal::Batch { at } => tell(24, at, 0),
        Refusal::Unordered { at } => tell(25, at, 0),
        Refusal::Bounds => tell(26, 0, 0),
        Refusal::Chunk => tell(27, 0, 0),
        Refusal::DegreeZero { byte, group } => tell(28, byte, group),
        Refusal::PartnerOrder { byte, group } => tell(29, byte, group),
        Refusal::UpperHalf { byte, group } => tell(30, byte, group),
        Refusal::GroupCut { byte, group } => tell(31, byte, group),
        Refusal::SpareBytes { byte, group } => tell(32, byte, group),
        Refusal::VarintCut { byte, group } => tell(33, byte, group),
        Refusal::VarintLong { byte, group } => tell(34, byte, group),
        Refusal::VarintLarge { byte, group } => tell(35, byte, group),
        Refusal::Reserved { entry } => tell(36, entry, 0),
        Refusal::Start { index } => tell(37, index, 0),
        // told: to here
    }
}

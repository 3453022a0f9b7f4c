// The frame of a file: header, section table, footer. Definitions of opening (specs/), and the types that they speak of.
// The code of the rules stands in the crates above.
#![tactic(auto)]

ghost use Rattle.std.specs.Prelude.{◌≡◌, ◌+◌, ◌≤◌, length};
ghost use Rattle.frame.specs.Frame.{raw_row};
ghost use Rattle.frame.specs.Open.{bytes_at};

pub mod bounds;
pub mod ends;
pub mod kind;

// Where a section lies.
#[derive(Clone, Copy)]
pub struct Range {
    pub start: u64,
    pub len: u64,
}

// An entry of the section table. The name's place counts from the footer body's first byte; in what `section_at` and the section
// list give, from the file's first byte.
#[derive(Clone, Copy)]
pub struct Row {
    pub kind: u16,
    pub codec: u8,
    pub namelen: u8,
    pub nameat: u64,
    pub start: u64,
    pub len: u64,
    pub sum: u64,
}

impl Row {
    // Bytes of an entry without its name.
    pub const ENTRY: usize = 28;

    // Where the fields stand in it; the kind stands first.
    pub const CODEC: usize = 2;

    pub const NAMELEN: usize = 3;

    pub const START: usize = 4;

    pub const LEN: usize = 12;

    pub const SUM: usize = 20;

    pub const RAW: u8 = 0;

    // An entry without a name, as the kinds that are read have it.
    pub fn raw(kind: u16, start: u64, len: u64, sum: u64) -> Row
        ensures { result ≡ raw_row kind start len sum }
    {
        Row {
            kind,
            codec: Row::RAW,
            namelen: 0,
            nameat: 0,
            start,
            len,
            sum,
        }
    }
}

// What a lookup reads of a file: where the sections lie, the counts, the offset bits. Anyone may fill one. The small fields stand
// together: of more than 128 bytes the compiler makes a call of each copy.
// A section that is not there is an empty range; `marked` says whether there are tombstones, `indexed` whether there is a start index.
// Stay flags beside ranges: any flag with any range is a record that may be lent (`record_within`, C's twenty numbers), and two
// `Option`s would pass 128 bytes.
#[derive(Clone, Copy)]
pub struct Opened {
    pub keys: Range,
    pub offsets: Range,
    pub partners: Range,
    pub logs: Range,
    pub dead: Range,
    pub starts: Range,
    pub keycount: u64,
    pub edgecount: u64,
    pub bits: u8,
    pub marked: bool,
    pub indexed: bool,
}

// What the frame alone gives: the record, the fences and whether there are property streams, which only opening looks at.
#[derive(Clone, Copy)]
pub struct Framed {
    pub opened: Opened,
    pub fenced: bool,
    pub fences: Range,
    pub streams: bool,
}

// The bytes of a section that lies within the file.
pub fn bytes_of<'a>(file: &'a [u8], r: Range) -> &'a [u8]
    requires { r.start + r.len ≤ length file.now }
    ensures { result.now ≡ bytes_at file.now r }
{
    let a = r.start as usize;
    let e = a + r.len as usize;
    &file[a..e]
}

// Section kinds: each with its number, the bytes of its row, its slot among the kinds that are read, the length of a
// section of so many rows, and the table entry of such a section.
ghost use Rattle.std.specs.Prelude.{◌≡◌, ◌≤◌};
ghost use Rattle.frame.specs.Kind as kind;
ghost use Rattle.frame.specs.Frame.{raw_row};

use super::Row;

#[derive(Drop)]
pub struct Keys {}

impl Keys {
    pub const KIND: u16 = 1;

    pub const ROW: u64 = 16;

    pub const SLOT: usize = 0;

    // The length that the counts give.
    pub fn bytes(keys: u64) -> u64
        requires { keys ≤ kind.most_bytes }
        ensures { result ≡ kind.keys_len keys }
    {
        Keys::ROW * keys
    }

    // The table entry of such a section, from its place and its counts; it is not summed yet.
    pub fn entry(start: u64, keys: u64) -> Row
        requires { keys ≤ kind.most_bytes }
        ensures { result ≡ raw_row kind.keys start (kind.keys_len keys) 0 }
    {
        Row::raw(Keys::KIND, start, Keys::bytes(keys), 0)
    }
}

#[derive(Drop)]
pub struct Offsets {}

impl Offsets {
    pub const KIND: u16 = 2;

    // The writer's offsets have three bytes where the partners have fewer bytes than this, otherwise four.
    pub const NARROW: usize = 1 << 24;

    pub const SHORT: usize = 3;

    pub const LONG: usize = 4;

    pub const SLOT: usize = 1;

    // One more than there are keys, of `width` bytes each.
    pub fn bytes(keys: u64, width: u64) -> u64
        requires { (keys ≤ kind.most_bytes) × (width ≤ 255) }
        ensures { result ≡ kind.offsets_len keys width }
    {
        (keys + 1) * width
    }

    // The table entry of such a section, from its place and its counts; it is not summed yet.
    pub fn entry(start: u64, keys: u64, width: u64) -> Row
        requires { (keys ≤ kind.most_bytes) × (width ≤ 255) }
        ensures { result ≡ raw_row kind.offsets start (kind.offsets_len keys width) 0 }
    {
        Row::raw(Offsets::KIND, start, Offsets::bytes(keys, width), 0)
    }
}

#[derive(Drop)]
pub struct Partners {}

impl Partners {
    pub const KIND: u16 = 3;

    pub const SLOT: usize = 2;

    // The table entry of such a section, from its place and its length; it is not summed yet.
    pub fn entry(start: u64, bytes: u64) -> Row
        ensures { result ≡ raw_row kind.partners start bytes 0 }
    {
        Row::raw(Partners::KIND, start, bytes, 0)
    }
}

#[derive(Drop)]
pub struct Logs {}

impl Logs {
    pub const KIND: u16 = 4;

    pub const ROW: u64 = 8;

    pub const SLOT: usize = 3;

    // The length that the counts give.
    pub fn bytes(edges: u64) -> u64
        requires { edges ≤ kind.most_bytes }
        ensures { result ≡ kind.logs_len edges }
    {
        Logs::ROW * edges
    }

    // The table entry of such a section, from its place and its counts; it is not summed yet.
    pub fn entry(start: u64, edges: u64) -> Row
        requires { edges ≤ kind.most_bytes }
        ensures { result ≡ raw_row kind.logs start (kind.logs_len edges) 0 }
    {
        Row::raw(Logs::KIND, start, Logs::bytes(edges), 0)
    }
}

#[derive(Drop)]
pub struct Tombstones {}

impl Tombstones {
    pub const KIND: u16 = 5;

    pub const SLOT: usize = 4;

    // A bit for each edge.
    pub fn bytes(edges: u64) -> u64
        requires { edges ≤ kind.most_bytes }
        ensures { result ≡ kind.tombstones_len edges }
    {
        (edges + 7) / 8
    }

    // The table entry of such a section, from its place and its counts; it is not summed yet.
    pub fn entry(start: u64, edges: u64) -> Row
        requires { edges ≤ kind.most_bytes }
        ensures { result ≡ raw_row kind.tombstones start (kind.tombstones_len edges) 0 }
    {
        Row::raw(Tombstones::KIND, start, Tombstones::bytes(edges), 0)
    }
}

#[derive(Drop)]
pub struct Fences {}

impl Fences {
    pub const KIND: u16 = 6;

    // Stride and entry count, before the entries.
    pub const HEAD: u64 = 8;

    pub const ROW: u64 = 24;

    pub const SLOT: usize = 5;

    // The writer's stride, and one less, by which a count of fences is rounded up.
    pub const STRIDE: usize = 256;

    pub const ROUND: usize = 255;

    // How many fences the writer gives so many keys.
    pub fn count(keys: usize) -> usize
        requires { keys ≤ kind.most_bytes }
        ensures { result ≡ kind.fence_count keys }
    {
        (keys + Fences::ROUND) / Fences::STRIDE
    }

    // The length that the counts give.
    pub fn bytes(entries: u64) -> u64
        requires { entries ≤ kind.most_bytes }
        ensures { result ≡ kind.fences_len entries }
    {
        Fences::HEAD + Fences::ROW * entries
    }

    // The table entry of such a section, from its place and its counts; it is not summed yet.
    pub fn entry(start: u64, entries: u64) -> Row
        requires { entries ≤ kind.most_bytes }
        ensures { result ≡ raw_row kind.fences start (kind.fences_len entries) 0 }
    {
        Row::raw(Fences::KIND, start, Fences::bytes(entries), 0)
    }
}

// The start index: where each group's log numbers begin, and after the last the edge count.
#[derive(Drop)]
pub struct Starts {}

impl Starts {
    pub const KIND: u16 = 512;

    pub const ROW: u64 = 8;

    pub const SLOT: usize = 6;

    // One more than there are keys.
    pub fn bytes(keys: u64) -> u64
        requires { keys ≤ kind.most_bytes }
        ensures { result ≡ kind.starts_len keys }
    {
        (keys + 1) * Starts::ROW
    }

    // The table entry of such a section, from its place and its counts; it is not summed yet.
    pub fn entry(start: u64, keys: u64) -> Row
        requires { keys ≤ kind.most_bytes }
        ensures { result ≡ raw_row kind.starts start (kind.starts_len keys) 0 }
    {
        Row::raw(Starts::KIND, start, Starts::bytes(keys), 0)
    }
}

// Property streams: any number of them, not read.
#[derive(Drop)]
pub struct Properties {}

impl Properties {
    pub const KIND: u16 = 256;
}

// The reserved range: a later writer's sections of these kinds change what the others mean, so that no file with one opens.
#[derive(Drop)]
pub struct Reserved {}

impl Reserved {
    pub const FIRST: u16 = 7;

    pub const LAST: u16 = 255;

    // Whether a kind lies in it.
    pub fn holds(k: u16) -> bool
        ensures { result ≡ kind.reserved k }
    {
        if k < Reserved::FIRST {
            return false;
        }
        k <= Reserved::LAST
    }
}

// The kinds that are read.
#[derive(Drop)]
pub struct Kinds {}

impl Kinds {
    pub const READ: usize = 7;

    // The slot of a kind; READ where it is not read.
    pub fn slot(k: u16) -> usize
        ensures { result ≡ kind.slot_of k }
    {
        if k == Keys::KIND {
            return Keys::SLOT;
        }
        if k == Offsets::KIND {
            return Offsets::SLOT;
        }
        if k == Partners::KIND {
            return Partners::SLOT;
        }
        if k == Logs::KIND {
            return Logs::SLOT;
        }
        if k == Tombstones::KIND {
            return Tombstones::SLOT;
        }
        if k == Fences::KIND {
            return Fences::SLOT;
        }
        if k == Starts::KIND {
            return Starts::SLOT;
        }
        Kinds::READ
    }
}

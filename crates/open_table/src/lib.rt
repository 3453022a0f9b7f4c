// Rules 9 to 11, with 36: one pass over the section table notes where each kind that is read lies, and the first entries that are
// not as they should be.
#![tactic(auto)]

ghost use Rattle.std.specs.Prelude.{◌≡◌, not, ◌&&◌, ◌||◌, ◌+◌, ◌≤◌, ◌<◌, eqb, length, is_some, Err};
ghost use Rattle.refusal.specs.declared.Refusal.{Refusal};
ghost use Rattle.frame.specs.Kind as kind;
ghost use Rattle.frame.specs.Frame.{row_at, rows_of, range_good, framed_from, rows_check};
ghost use Rattle.frame.specs.Open.{framing};
ghost use Rattle.open_table.specs.Pass.{first_bad, unseen, coded, unread, ranged, place_at, required_seen, framed_seen, passed};

use codes::little::le;
use frame::bounds::Bounds;
use frame::ends::{Footer, Header};
use frame::kind::{
    Fences, Keys, Kinds, Logs, Offsets, Partners, Properties, Reserved, Starts, Tombstones,
};
use frame::{Framed, Opened, Range, Row};
use refusal::Refusal;

// What was seen of the entries so far: the first that breaks rule 36, the first that breaks 10 and the first that breaks 11, where
// the last section ended, and whether a property stream stands there. Where each kind lies stands in an array, by its slot.
#[derive(Drop)]
pub struct Seen {
    pub reserved: Option<u64>,
    pub codec: Option<u64>,
    pub range: Option<u64>,
    pub floor: u64,
    pub streams: bool,
}

// The entry at i of the footer body b.
#[tactic(auto, unfolding(frame::specs::Frame::row_at))]
pub fn row_at(b: &[u8], i: usize) -> Row
    requires { (i + kind.entry_size ≤ length b.now) × (length b.now ≤ kind.most_bytes) }
    ensures { result ≡ row_at b.now i }
{
    let kind = le::<2>(b, i) as u16;
    let start = le::<8>(b, i + Row::START);
    let len = le::<8>(b, i + Row::LEN);
    let sum = le::<8>(b, i + Row::SUM);
    Row {
        kind,
        codec: b[i + Row::CODEC],
        namelen: b[i + Row::NAMELEN],
        nameat: (i + Row::ENTRY) as u64,
        start,
        len,
        sum,
    }
}

// Rule 11 for one entry; the sum of start and length may pass 2^64.
fn range_good(limit: u64, floor: u64, r: Row) -> bool
    ensures { result ≡ range_good limit floor r }
{
    floor <= r.start && r.start <= limit && r.len <= limit - r.start
}

// The first bad entry: the one that there is, or k where this one is not good.
#[tactic(auto, unfolding(crate::specs::Pass::first_bad))]
fn first_bad(bad: Option<u64>, good: bool, k: u64) -> Option<u64>
    ensures { result ≡ first_bad bad good k }
{
    if good {
        return bad;
    }
    Some(bad.unwrap_or(k))
}

// A kind that is read has no name, and stands there once.
fn fresh(name: u8, place: Option<Range>) -> bool
    ensures { result ≡ (eqb name 0 && not (is_some place)) }
{
    name == 0 && place.is_none()
}

impl Seen {
    fn nothing_seen() -> Seen
        ensures { result ≡ unseen }
    {
        Seen {
            reserved: None,
            codec: None,
            range: None,
            floor: Header::SIZE as u64,
            streams: false,
        }
    }

    // With the codec of entry k, of a kind that is read.
    #[tactic(auto, unfolding(crate::specs::Pass::coded))]
    fn coded(self, k: u64, codec: u8) -> Seen
        ensures { result ≡ coded k self codec }
    {
        Seen {
            codec: first_bad(self.codec, codec == Row::RAW, k),
            ..self
        }
    }

    // With the kind of entry k, where it is not read: it may be reserved, or that of a property stream.
    #[tactic(auto, unfolding(crate::specs::Pass::unread))]
    fn unread(self, k: u64, kind: u16) -> Seen
        ensures { result ≡ unread k self kind }
    {
        Seen {
            reserved: first_bad(self.reserved, !Reserved::holds(kind), k),
            streams: self.streams || kind == Properties::KIND,
            ..self
        }
    }

    // With the range of entry k, which is r.
    #[tactic(auto, unfolding(crate::specs::Pass::ranged, crate::specs::Pass::first_bad))]
    fn ranged(self, limit: u64, k: u64, r: Row) -> Seen
        ensures { result ≡ ranged limit k self r }
    {
        if range_good(limit, self.floor, r) {
            return Seen {
                floor: r.start + r.len,
                ..self
            };
        }
        Seen {
            range: first_bad(self.range, false, k),
            ..self
        }
    }
}

// Every kind that a file must have was met.
#[tactic(auto, unfolding(crate::specs::Pass::needed_from))]
fn needed_met(places: &[Option<Range>; Kinds::READ]) -> bool
    ensures { result ≡ required_seen kind.kinds places.now }
{
    places[Keys::SLOT].is_some()
        && places[Offsets::SLOT].is_some()
        && places[Partners::SLOT].is_some()
        && places[Logs::SLOT].is_some()
}

// Where the kind of a slot lies: an empty range where it was not met.
fn place_at(places: &[Option<Range>; Kinds::READ], slot: usize) -> Range
    requires { slot < length kind.kinds }
    ensures { result ≡ place_at places.now slot }
{
    places[slot].unwrap_or(Range { start: 0, len: 0 })
}

// What the frame gives: the body b's counts, and each kind by its slot.
#[tactic(auto, unfolding(crate::specs::Pass::framed_seen))]
fn framed_of(b: &[u8], places: &[Option<Range>; Kinds::READ], streams: bool) -> Framed
    requires { 19 ≤ length b.now }
    ensures { result ≡ framed_seen b.now places.now streams }
{
    let opened = Opened {
        keys: place_at(places, Keys::SLOT),
        offsets: place_at(places, Offsets::SLOT),
        partners: place_at(places, Partners::SLOT),
        logs: place_at(places, Logs::SLOT),
        marked: places[Tombstones::SLOT].is_some(),
        dead: place_at(places, Tombstones::SLOT),
        indexed: places[Starts::SLOT].is_some(),
        starts: place_at(places, Starts::SLOT),
        keycount: le::<8>(b, b.len() - Footer::COUNTS),
        edgecount: le::<8>(b, b.len() - 9),
        bits: b[b.len() - 1],
    };
    Framed {
        opened,
        fenced: places[Fences::SLOT].is_some(),
        fences: place_at(places, Fences::SLOT),
        streams,
    }
}

// Rules 9 to 11, with 36, of a table that was passed to its end.
#[tactic(auto, unfolding(crate::specs::Pass::passed, crate::specs::Pass::told_bad, frame::specs::Open::framing))]
fn judged(b: &[u8], places: &[Option<Range>; Kinds::READ], s: Seen) -> Result<Framed, Refusal>
    requires { 19 ≤ length b.now }
    ensures { result ≡ framing (passed places.now s) (framed_seen b.now places.now s.streams) }
{
    if !needed_met(places) {
        return Err(Refusal::Table);
    }
    if let Some(entry) = s.reserved {
        return Err(Refusal::Reserved { entry });
    }
    if let Some(entry) = s.codec {
        return Err(Refusal::Codec { entry });
    }
    if let Some(entry) = s.range {
        return Err(Refusal::Range { entry });
    }
    Ok(framed_of(b, places, s.streams))
}

// Rules 9 to 11, with 36, of a footer body b, whose sections have to end at the limit. All of rule 9 is one refusal, so what breaks
// it ends the pass.
pub fn rows_framing(b: &[u8], limit: u64) -> Result<Framed, Refusal>
    requires { (19 ≤ length b.now) × (length b.now ≤ kind.most_bytes) }
    ensures { result ≡ framing (rows_check limit b.now) (framed_from b.now (rows_of b.now)) }
{
    let count = le::<2>(b, 0);
    if count < 1 || Bounds::SECTIONS < count {
        return Err(Refusal::Table);
    }
    let mut places: [Option<Range>; Kinds::READ] = [None; Kinds::READ];
    let mut seen = Seen::nothing_seen();
    let mut i: usize = 2;
    for k in 0..count {
        if b.len() < i + Row::ENTRY {
            return Err(Refusal::Table);
        }
        let r = row_at(b, i);
        if Bounds::NAME < r.namelen {
            return Err(Refusal::Table);
        }
        let slot = Kinds::slot(r.kind);
        if slot < Kinds::READ {
            if !fresh(r.namelen, places[slot]) {
                return Err(Refusal::Table);
            }
            places[slot] = Some(Range {
                start: r.start,
                len: r.len,
            });
            seen = seen.coded(k, r.codec);
        } else {
            seen = seen.unread(k, r.kind);
        }
        seen = seen.ranged(limit, k, r);
        i += Row::ENTRY + r.namelen as usize;
    }
    if i + Footer::COUNTS != b.len() {
        return Err(Refusal::Table);
    }
    judged(b, &places, seen)
}

// The calls for C. Each is thin over the library and gives numbers: 0 is no refusal. See include/edge_sst.h. The archive that C
// links is made of crates/edge_sst_exports, which exports each of them.
#![tactic(auto)]

ghost use Rattle.std.specs.Prelude.{◌≡◌};
ghost use Rattle.frame.specs.Open.{open_of};
ghost use Rattle.refusal.specs.Refusal.{number_of, place_of, beside_of};
ghost use Rattle.edge_sst_c.specs.Told.{truth, record_with, refusal_with, opened_told};

pub mod desk;
pub mod figures;
pub mod header;
pub mod look;
pub mod running;
pub mod section_list;
pub mod write;

use frame::Opened;
use reader::open::open;
use refusal::{Refusal, told_of};

// The opened record with the refusal's number and places before it; where it is refused, all else is 0.
#[repr(C)]
#[derive(Drop)]
pub struct EdgeSstOpened {
    pub number: u64,
    pub place: u64,
    pub beside: u64,
    pub keystart: u64,
    pub keylen: u64,
    pub offsetstart: u64,
    pub offsetlen: u64,
    pub partnerstart: u64,
    pub partnerlen: u64,
    pub logstart: u64,
    pub loglen: u64,
    pub deadstart: u64,
    pub deadlen: u64,
    pub marked: u64,
    pub keycount: u64,
    pub edgecount: u64,
    pub bits: u64,
    pub indexstart: u64,
    pub indexlen: u64,
    pub indexed: u64,
}

impl EdgeSstOpened {
    // The places of its fields where it is lent as a run of numbers.
    pub const KEYSTART: usize = 3;

    pub const KEYLEN: usize = 4;

    pub const OFFSETSTART: usize = 5;

    pub const OFFSETLEN: usize = 6;

    pub const PARTNERSTART: usize = 7;

    pub const PARTNERLEN: usize = 8;

    pub const LOGSTART: usize = 9;

    pub const LOGLEN: usize = 10;

    pub const DEADSTART: usize = 11;

    pub const DEADLEN: usize = 12;

    pub const MARKED: usize = 13;

    pub const KEYCOUNT: usize = 14;

    pub const EDGECOUNT: usize = 15;

    pub const BITS: usize = 16;

    pub const INDEXSTART: usize = 17;

    pub const INDEXLEN: usize = 18;

    pub const INDEXED: usize = 19;
}

fn record_told(o: Opened) -> EdgeSstOpened
    ensures { result ≡ record_with o (truth o.marked) (truth o.indexed) }
{
    let keys = o.keys;
    let offsets = o.offsets;
    let partners = o.partners;
    let logs = o.logs;
    let dead = o.dead;
    let starts = o.starts;
    EdgeSstOpened {
        number: 0,
        place: 0,
        beside: 0,
        keystart: keys.start,
        keylen: keys.len,
        offsetstart: offsets.start,
        offsetlen: offsets.len,
        partnerstart: partners.start,
        partnerlen: partners.len,
        logstart: logs.start,
        loglen: logs.len,
        deadstart: dead.start,
        deadlen: dead.len,
        marked: u64::from(o.marked),
        keycount: o.keycount,
        edgecount: o.edgecount,
        bits: o.bits as u64,
        indexstart: starts.start,
        indexlen: starts.len,
        indexed: u64::from(o.indexed),
    }
}

fn refusal_told(r: Refusal) -> EdgeSstOpened
    ensures { result ≡ refusal_with (number_of r) (place_of r) (beside_of r) }
{
    let t = told_of(r);
    EdgeSstOpened {
        number: t.number as u64,
        place: t.place,
        beside: t.beside,
        keystart: 0,
        keylen: 0,
        offsetstart: 0,
        offsetlen: 0,
        partnerstart: 0,
        partnerlen: 0,
        logstart: 0,
        loglen: 0,
        deadstart: 0,
        deadlen: 0,
        marked: 0,
        keycount: 0,
        edgecount: 0,
        bits: 0,
        indexstart: 0,
        indexlen: 0,
        indexed: 0,
    }
}

// Opens a file.
#[unsafe(no_mangle)]
pub extern "C" fn edge_sst_open(file: &[u8]) -> EdgeSstOpened
    ensures { result ≡ opened_told (open_of file.now) }
{
    match open(file) {
        Ok(opened) => record_told(opened),
        Err(refusal) => refusal_told(refusal),
    }
}

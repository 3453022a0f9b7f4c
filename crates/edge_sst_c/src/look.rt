// Lookups for C: of a file, or by an opened record that the caller lends.
ghost use Rattle.std.specs.Prelude.{◌≡◌, true, false, length, ltb, Ok};
ghost use Rattle.base.specs.Pick.{pick};
ghost use Rattle.codes.specs.Ids.{id_at};
ghost use Rattle.lookup.specs.Lookup.{look_of, look_with};
ghost use Rattle.lookup.specs.Calls.{alone};
ghost use Rattle.edge_sst_c.specs.Look.{looked_told, refused_told, byte_or, record_lent, PartnersTold, EdgesToldBy};
ghost use Rattle.refusal.specs.Refusal.{number_of, place_of, beside_of};

use super::EdgeSstOpened;
use frame::{Opened, Range};
use lookup::Looked;
use reader::look::{lookup, lookup_with, partners, partners_with};
use refusal::{Refusal, told_of};

// A lookup's answer: number 0 is no refusal, and then found is 1 where the key is there; what does not apply is 0.
#[repr(C)]
#[derive(Drop)]
pub struct EdgeSstLooked {
    pub number: u64,
    pub place: u64,
    pub beside: u64,
    pub found: u64,
    pub degree: u64,
    pub index: u64,
    pub compared: u64,
}

fn refused_told(r: Refusal) -> EdgeSstLooked
    ensures { result ≡ refused_told (number_of r) (place_of r) (beside_of r) }
{
    let t = told_of(r);
    EdgeSstLooked {
        number: t.number as u64,
        place: t.place,
        beside: t.beside,
        found: 0,
        degree: 0,
        index: 0,
        compared: 0,
    }
}

// A key that is there, or is not.
fn found_told(looked: Looked) -> EdgeSstLooked
    ensures { result ≡ looked_told (Ok looked) }
{
    match looked {
        Looked::Found {
            degree,
            index,
            compared,
        } => EdgeSstLooked {
            number: 0,
            place: 0,
            beside: 0,
            found: 1,
            degree,
            index,
            compared,
        },
        Looked::Absent { compared } => EdgeSstLooked {
            number: 0,
            place: 0,
            beside: 0,
            found: 0,
            degree: 0,
            index: 0,
            compared,
        },
    }
}

fn looked_told(l: Result<Looked, Refusal>) -> EdgeSstLooked
    ensures { result ≡ looked_told l }
{
    match l {
        Ok(looked) => found_told(looked),
        Err(refusal) => refused_told(refusal),
    }
}

// Offset bits above 255 are none: rule 21 refuses them as it refuses 0.
fn byte_or(x: u64) -> u8
    ensures { result ≡ byte_or x }
{
    // Stays a test by hand: the bound is what the line above says, and `try_from` would not show it.
    if x < 256 {
        return x as u8;
    }
    0
}

// The record that C lends, an EdgeSstOpened seen as its numbers in order; a mark other than 0 says that there are
// tombstones, and so with the start index.
fn record_from(c: &[u64; 20]) -> Opened
    ensures { result ≡ record_lent c.now }
{
    Opened {
        keys: Range {
            start: c[EdgeSstOpened::KEYSTART],
            len: c[EdgeSstOpened::KEYLEN],
        },
        offsets: Range {
            start: c[EdgeSstOpened::OFFSETSTART],
            len: c[EdgeSstOpened::OFFSETLEN],
        },
        partners: Range {
            start: c[EdgeSstOpened::PARTNERSTART],
            len: c[EdgeSstOpened::PARTNERLEN],
        },
        logs: Range {
            start: c[EdgeSstOpened::LOGSTART],
            len: c[EdgeSstOpened::LOGLEN],
        },
        marked: 0 < c[EdgeSstOpened::MARKED],
        dead: Range {
            start: c[EdgeSstOpened::DEADSTART],
            len: c[EdgeSstOpened::DEADLEN],
        },
        keycount: c[EdgeSstOpened::KEYCOUNT],
        edgecount: c[EdgeSstOpened::EDGECOUNT],
        bits: byte_or(c[EdgeSstOpened::BITS]),
        indexed: 0 < c[EdgeSstOpened::INDEXED],
        starts: Range {
            start: c[EdgeSstOpened::INDEXSTART],
            len: c[EdgeSstOpened::INDEXLEN],
        },
    }
}

// The partners of a key, by an opened record: 16 bytes each over the start of `out`.
#[unsafe(no_mangle)]
pub extern "C" fn edge_sst_partners_with(
    file: &[u8],
    o: &[u64; 20],
    key: &[u8; 16],
    out: &mut [u8],
) -> EdgeSstLooked
    ensures { PartnersTold (look_with false (alone (length out.old)) (id_at key.now 0) file.now (record_lent o.now)) result out.old out.new }
{
    looked_told(partners_with(file, record_from(o), key, out))
}

// The same of a file.
#[unsafe(no_mangle)]
pub extern "C" fn edge_sst_partners(file: &[u8], key: &[u8; 16], out: &mut [u8]) -> EdgeSstLooked
    ensures { PartnersTold (look_of false (alone (length out.old)) (id_at key.now 0) file.now) result out.old out.new }
{
    looked_told(partners(file, key, out))
}

// The partners of a key with their log numbers and dead marks, by an opened record.
#[unsafe(no_mangle)]
pub extern "C" fn edge_sst_lookup_with(
    file: &[u8],
    o: &[u64; 20],
    key: &[u8; 16],
    out: &mut [u8],
    logs: &mut [u64],
    marks: &mut [u8],
) -> EdgeSstLooked
    ensures { EdgesToldBy (λ rooms. look_with true rooms (id_at key.now 0) file.now (record_lent o.now)) result out.old out.new logs.old logs.new marks.old marks.new }
{
    looked_told(lookup_with(file, record_from(o), key, out, logs, marks))
}

// The same of a file.
#[unsafe(no_mangle)]
pub extern "C" fn edge_sst_lookup(
    file: &[u8],
    key: &[u8; 16],
    out: &mut [u8],
    logs: &mut [u64],
    marks: &mut [u8],
) -> EdgeSstLooked
    ensures { EdgesToldBy (λ rooms. look_of true rooms (id_at key.now 0) file.now) result out.old out.new logs.old logs.new marks.old marks.new }
{
    looked_told(lookup(file, key, out, logs, marks))
}

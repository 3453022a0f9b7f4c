// Prints what opening says of each file of a corpus, for the programs over small files and large ones.
#![tactic(auto)]

use codes::ids::Id;
use frame::ends::Header;
use frame::{Opened, Range, Row};
use reader::header::header;
use reader::open::open;
use reader::rows::section_at;
use test_corpus::{each_entry, hex, line, number, refused, word};

fn range(r: Range) {
    number(r.start);
    number(r.len);
}

// A section that may be missing.
fn range_if(there: bool, r: Range) {
    if there {
        range(r);
        return;
    }
    word(b" none");
}

fn record(o: Opened) {
    word(b"opens keys");
    range(o.keys);
    word(b" offsets");
    range(o.offsets);
    word(b" partners");
    range(o.partners);
    word(b" logs");
    range(o.logs);
    word(b" dead");
    range_if(o.marked, o.dead);
    word(b" starts");
    range_if(o.indexed, o.starts);
    word(b" n");
    number(o.keycount);
    word(b" e");
    number(o.edgecount);
    word(b" bits");
    number(o.bits as u64);
}

fn id(d: Id) {
    word(b" ");
    hex(d.hi);
    hex(d.lo);
}

fn fields(h: Header) {
    word(b"minor");
    number(h.minor as u64);
    word(b" direction");
    number(h.direction as u64);
    word(b" flags");
    number(h.flags as u64);
    word(b" ids");
    id(h.edgetype);
    id(h.source);
    id(h.destination);
}

// The line of the header, or of its refusal.
fn header_line(file: &[u8]) {
    word(b"  header ");
    match header(file) {
        Err(refusal) => refused(refusal),
        Ok(h) => fields(h),
    }
    word(b"\n");
}

// The line of a section.
pub fn row(r: Row) {
    word(b"  section");
    number(r.kind as u64);
    number(r.codec as u64);
    number(r.nameat);
    number(r.namelen as u64);
    number(r.start);
    number(r.len);
    word(b" ");
    hex(r.sum);
    word(b"\n");
}

// The lines of the sections that there are.
fn rows(file: &[u8]) {
    for i in 0..64 {
        if let Some(r) = section_at(file, i) {
            row(r);
        }
    }
}

// The verdict on a file: its refusal or its record, what its header is said to be, and its sections.
fn verdict(name: &[u8], file: &[u8]) {
    line(name, b": ");
    match open(file) {
        Err(refusal) => {
            refused(refusal);
            word(b"\n");
            header_line(file);
        }
        Ok(opened) => {
            record(opened);
            word(b"\n");
            header_line(file);
            rows(file);
        }
    }
}

// All files of the corpus, each read into the lent space.
pub fn corpus(name: &mut [u8], space: &mut [u8]) {
    each_entry(name, space, |name, file| verdict(name, file));
}

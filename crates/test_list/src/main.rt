// Lists the sections of every file of a corpus and prints the rows, with the count of those that stayed as they were, and
// the answer for a table with one row too little. Corpus and expected lines are made by second/.
#![tactic(auto)]

ghost use Rattle.std.specs.Prelude.{◌+◌, ◌≤◌};

use frame::Row;
use listing::{plan_for, table_of};
use refusal::Refusal;
use test_corpus::{decimal, each_entry, line, refused, word};
use test_opening::row;

const ROOM: usize = 64;

// What each row of a table is before a call.
fn blank() -> Row {
    Row {
        kind: 65535,
        codec: 255,
        namelen: 254,
        nameat: 1,
        start: 2,
        len: 3,
        sum: 4,
    }
}

fn is_blank(r: Row) -> bool {
    r.kind == 65535
        && r.codec == 255
        && r.namelen == 254
        && r.nameat == 1
        && r.start == 2
        && r.len == 3
        && r.sum == 4
}

fn print_rows(t: &[Row], n: usize) {
    for r in t.iter().take(n) {
        row(*r);
    }
}

// How many rows past the first n are as they were.
fn left_of(t: &[Row], n: usize) -> u64 {
    t.iter().skip(n).filter(|r| is_blank(**r)).count() as u64
}

fn left(t: &[Row], n: usize) {
    word(b"  left ");
    decimal(left_of(t, n));
    word(b"\n");
}

// The answer in words, and the rows that are written.
fn answered(a: Result<u64, Refusal>) -> u64 {
    match a {
        Ok(rows) => {
            decimal(rows);
            word(b" sections\n");
            rows
        }
        Err(refusal) => {
            refused(refusal);
            word(b"\n");
            0
        }
    }
}

fn answer_for(file: &[u8], room: usize) -> u64 {
    answered(plan_for(file, room))
}

// Once more, with one row too little.
fn short(file: &[u8], n: usize) {
    if 0 < n {
        word(b"  short ");
        answer_for(file, n - 1);
    }
}

fn all(name: &[u8], file: &[u8]) {
    line(name, b": ");
    let n = answer_for(file, ROOM) as usize;
    let t = table_of(file, [blank(); 64]);
    print_rows(&t, n);
    left(&t, n);
    short(file, n);
}

fn main() {
    let mut name = [0u8; 256];
    let mut space = [0u8; 65536];
    each_entry(&mut name, &mut space, |name, file| all(name, file));
}

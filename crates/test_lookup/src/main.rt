// Looks up the keys of a corpus of calls and prints each answer with the sums of the outputs after the call. Corpus and
// expected answers are made by second/: a file (kind 1), a lookup in it (kind 2), a lookup by a record (kind 3).
#![tactic(auto)]

use codes::ids::be64;
use codes::little::{byte, le, put_le};
use frame::{Opened, Range};
use lookup::Looked;
use reader::look::{lookup, lookup_with, partners, partners_with};
use refusal::Refusal;
use test_corpus::{
    hex, line, number, pattern, read_byte, read_front, read_number, refused, sum, sum_front, word,
};

// ---- what stands in the outputs before a call

fn pattern_logs(out: &mut [u64]) {
    let mut x: u64 = 11;
    for log in out.iter_mut() {
        *log = x;
        x = x.wrapping_add(1000003);
    }
}

// ---- what is printed

// Number i of the log numbers, as eight bytes.
fn put_log(logs: &[u64], i: usize, bytes: &mut [u8]) {
    if i < 4096 && i < logs.len() && 8 * i + 8 <= bytes.len() {
        put_le(bytes, 8 * i, 8, logs[i]);
    }
}

fn put_logs(logs: &[u64], bytes: &mut [u8]) {
    for i in 0..4096 {
        put_log(logs, i, bytes);
    }
}

fn sum_logs(logs: &[u64]) {
    let mut bytes = [0u8; 32768];
    put_logs(logs, &mut bytes);
    if logs.len() <= 4096 {
        sum_front(b" ", &bytes, 8 * logs.len());
    }
}

fn answer(looked: Result<Looked, Refusal>) {
    match looked {
        Ok(
            Looked::Found {
                degree,
                index,
                compared,
            },
        ) => {
            word(b"found");
            number(degree);
            word(b" at");
            number(index);
            word(b" compared");
            number(compared);
        }
        Ok(Looked::Absent { compared }) => {
            word(b"absent compared");
            number(compared);
        }
        Err(refusal) => {
            refused(refusal);
        }
    }
}

fn partner(out: &[u8], at: usize) {
    if at <= 1000 && at + 16 <= out.len() {
        word(b"  partner ");
        hex(be64(out, at));
        hex(be64(out, at + 8));
    }
}

fn log_and_mark(logs: &[u64], marks: &[u8], j: usize) {
    if j < logs.len() {
        word(b" log");
        number(logs[j]);
    }
    if j < marks.len() {
        word(b" mark");
        number(byte(marks, j));
    }
}

fn edge(full: bool, out: &[u8], logs: &[u64], marks: &[u8], j: usize) {
    if j <= 3 {
        partner(out, 16 * j);
    }
    if full {
        log_and_mark(logs, marks, j);
    }
    word(b"\n");
}

fn edges(full: bool, out: &[u8], logs: &[u64], marks: &[u8], degree: u64) {
    if degree <= 3 {
        for j in 0..degree as usize {
            edge(full, out, logs, marks, j);
        }
    }
}

fn found_edges(
    looked: Result<Looked, Refusal>,
    full: bool,
    out: &[u8],
    logs: &[u64],
    marks: &[u8],
) {
    if let Ok(
        Looked::Found {
            degree,
            index: _,
            compared: _,
        },
    ) = looked
    {
        edges(full, out, logs, marks, degree);
    }
}

// ---- one call: of an opened file where there is a record, of its bytes alone otherwise

fn look(
    file: &[u8],
    record: Option<Opened>,
    key: &[u8; 16],
    full: bool,
    out: &mut [u8],
    logs: &mut [u64],
    marks: &mut [u8],
) -> Result<Looked, Refusal> {
    match record {
        Some(o) => {
            if full {
                return lookup_with(file, o, key, out, logs, marks);
            }
            partners_with(file, o, key, out)
        }
        None => {
            if full {
                return lookup(file, key, out, logs, marks);
            }
            partners(file, key, out)
        }
    }
}

fn told(looked: Result<Looked, Refusal>, full: bool, out: &[u8], logs: &[u64], marks: &[u8]) {
    answer(looked);
    word(b" sums");
    sum(b" ", out);
    sum_logs(logs);
    sum(b" ", marks);
    word(b"\n");
    found_edges(looked, full, out, logs, marks);
}

fn call(
    file: &[u8],
    record: Option<Opened>,
    key: &[u8; 16],
    full: bool,
    out: &mut [u8],
    logs: &mut [u64],
    marks: &mut [u8],
) {
    pattern(out);
    pattern_logs(logs);
    marks.fill(0xaa);
    let looked = look(file, record, key, full, out, logs, marks);
    told(looked, full, out, logs, marks);
}

fn call_in(
    file: &[u8],
    record: Option<Opened>,
    key: &[u8; 16],
    full: bool,
    bytes: usize,
    numbers: usize,
    dead: usize,
) {
    let mut out = [0u8; 65536];
    let mut logs = [0u64; 4096];
    let mut marks = [0u8; 4096];
    if bytes <= out.len() && numbers <= logs.len() && dead <= marks.len() {
        call(
            file,
            record,
            key,
            full,
            &mut out[..bytes],
            &mut logs[..numbers],
            &mut marks[..dead],
        );
    }
}

// ---- reading the corpus

fn read_word() -> u64 {
    let mut b = [0u8; 8];
    if io::read_full(0, &mut b) < 8 {
        return 0;
    }
    le::<8>(&b, 0)
}

// Is the next byte 1?
fn read_flag() -> bool {
    read_byte() == Some(1)
}

fn read_range() -> Range {
    let start = read_word();
    let len = read_word();
    Range { start, len }
}

fn read_record() -> Opened {
    let keys = read_range();
    let offsets = read_range();
    let partners = read_range();
    let logs = read_range();
    let dead = read_range();
    let marked = read_flag();
    let keycount = read_word();
    let edgecount = read_word();
    let bits = read_byte().unwrap_or(0);
    let starts = read_range();
    let indexed = read_flag();
    Opened {
        keys,
        offsets,
        partners,
        logs,
        dead,
        starts,
        keycount,
        edgecount,
        bits,
        marked,
        indexed,
    }
}

fn print_name() {
    let mut name = [0u8; 256];
    let n = read_byte().unwrap_or(0);
    let came = read_front(&mut name, n as usize);
    line(&name[..came], b": ");
}

fn call_item(file: &[u8], by_record: bool) {
    print_name();
    let full = read_flag();
    let mut key = [0u8; 16];
    io::read_full(0, &mut key);
    let bytes = read_number();
    let numbers = read_number();
    let dead = read_number();
    let record = if by_record { Some(read_record()) } else { None };
    call_in(file, record, &key, full, bytes, numbers, dead);
}

fn call_on(space: &[u8], size: usize, by_record: bool) {
    if size <= space.len() {
        call_item(&space[..size], by_record);
    }
}

// The next item, over the current file of so many bytes; the size of the current file after it, none where the input ends.
fn item(space: &mut [u8], size: usize) -> Option<usize> {
    match read_byte() {
        Some(1) => {
            let n = read_number();
            Some(read_front(space, n))
        }
        Some(2) => {
            call_on(space, size, false);
            Some(size)
        }
        Some(3) => {
            call_on(space, size, true);
            Some(size)
        }
        _ => None,
    }
}

fn items(space: &mut [u8]) {
    let mut size = 0;
    for _ in 0..1000000 {
        match item(space, size) {
            Some(next) => size = next,
            None => return,
        }
    }
}

fn main() {
    let mut space = [0u8; 262144];
    items(&mut space);
}

// Prints what the writer makes of a batch, for the programs over corpora: its size, the file's sum with that of all the output
// after the call, that the file passes the full check, its summary, and that it reads back.
#![tactic(auto)]

use full_check::check;
use readout::read_out;
use refusal::Refusal;
use test_corpus::{
    check_line, each_entry, hex_bytes, line, number, pattern, refused, sum, sum_front, word,
};
use test_summary::summary_line;
use write_file::{needed, write};
use xxh3_whole::xxh3;

fn size(name: &[u8], batch: &[u8]) {
    line(name, b": needed");
    match needed(batch) {
        Ok(bytes) => {
            number(bytes);
        }
        Err(refusal) => {
            word(b" ");
            refused(refusal);
        }
    }
    word(b"\n");
}

// The bytes of the file, 0 where it was refused.
fn answered(name: &[u8], said: &[u8], r: Result<u64, Refusal>, out: &[u8]) -> u64 {
    match r {
        Ok(bytes) => {
            line(name, b": wrote");
            number(bytes);
            sum_front(b" sum ", out, bytes as usize);
            bytes
        }
        Err(refusal) => {
            line(name, said);
            refused(refusal);
            0
        }
    }
}

fn write_into(name: &[u8], said: &[u8], batch: &[u8], out: &mut [u8]) -> u64 {
    pattern(out);
    let r = write(batch, out);
    let bytes = answered(name, said, r, out);
    sum(b" all ", out);
    word(b"\n");
    bytes
}

// Once more, with room for one byte less.
fn short(name: &[u8], batch: &[u8], less: &mut [u8], bytes: usize) {
    if 0 < bytes && bytes <= less.len() {
        write_into(name, b": short ", batch, &mut less[..bytes - 1]);
    }
}

// The file of a small batch.
fn small(name: &[u8], file: &[u8]) {
    if file.len() <= 300 {
        line(name, b": bytes ");
        hex_bytes(file);
        word(b"\n");
    }
}

fn compared(batch: &[u8], out: &[u8], n: usize) {
    if n <= out.len() && batch == &out[..n] {
        word(b": reads back\n");
        return;
    }
    word(b": reads another batch\n");
}

fn back(name: &[u8], batch: &[u8], file: &[u8], out: &mut [u8]) {
    word(name);
    match read_out(file, out) {
        Ok(bytes) => {
            compared(batch, out, bytes as usize);
        }
        Err(refusal) => {
            word(b": read-out ");
            refused(refusal);
            word(b"\n");
        }
    }
}

fn more(name: &[u8], batch: &[u8], file: &[u8], whole: bool, less: &mut [u8]) {
    if whole {
        short(name, batch, less, file.len());
        small(name, file);
    }
}

// What a file is good for that was written.
fn held(name: &[u8], batch: &[u8], file: &[u8], whole: bool, less: &mut [u8]) {
    more(name, batch, file, whole, less);
    check_line(name, check(file));
    summary_line(name, file);
    back(name, batch, file, less);
}

fn all(name: &[u8], batch: &[u8], whole: bool, out: &mut [u8], less: &mut [u8]) {
    size(name, batch);
    let bytes = write_into(name, b": write ", batch, out) as usize;
    if 0 < bytes && bytes <= out.len() {
        held(name, batch, &out[..bytes], whole, less);
    }
}

// All batches on standard input, framed as files are: one byte and its name, four bytes and its bytes. The batch is read into
// the first space, written to the second and read back to the third. `whole` asks for the lines with too little room and of
// the bytes.
pub fn corpus(name: &mut [u8], space: &mut [u8], whole: bool, out: &mut [u8], less: &mut [u8]) {
    each_entry(
        name,
        space,
        |name, batch| all(name, batch, whole, out, less),
    );
}

// ---- large batches: the file is read back over the batch, and the sums are compared

fn over(read: &[u8], n: usize, batch: u64) {
    if n == read.len() && xxh3(read) == batch {
        word(b": reads back\n");
        return;
    }
    word(b": reads another batch\n");
}

// Reads the file back over its batch, whose sum is told.
fn back_over(name: &[u8], file: &[u8], space: &mut [u8], batch: u64) {
    word(name);
    match read_out(file, space) {
        Ok(bytes) => {
            over(space, bytes as usize, batch);
        }
        Err(refusal) => {
            word(b": read-out ");
            refused(refusal);
            word(b"\n");
        }
    }
}

fn held_over(name: &[u8], file: &[u8], space: &mut [u8], batch: u64) {
    check_line(name, check(file));
    summary_line(name, file);
    back_over(name, file, space, batch);
}

fn large(name: &[u8], space: &mut [u8], out: &mut [u8]) {
    let batch = xxh3(space);
    size(name, space);
    let bytes = write_into(name, b": write ", space, out) as usize;
    if 0 < bytes && bytes <= out.len() {
        held_over(name, &out[..bytes], space, batch);
    }
}

// The same with two spaces, for batches too large for three.
pub fn corpus_large(name: &mut [u8], space: &mut [u8], out: &mut [u8]) {
    each_entry(name, space, |name, batch| large(name, batch, out));
}

// Checks every file of a corpus in full, sums it up and reads it out, and prints the answers with the sum of the output after
// each read-out. Corpus and expected lines are made by second/.
#![tactic(auto)]

use full_check::check;
use readout::read_out;
use refusal::Refusal;
use test_corpus::{check_line, decimal, each_entry, line, pattern, refused, sum, word};
use test_summary::summary_line;

// The bytes that a read-out wrote, 0 where it was refused.
fn answered(r: Result<u64, Refusal>) -> u64 {
    match r {
        Ok(bytes) => {
            decimal(bytes);
            word(b" bytes");
            bytes
        }
        Err(refusal) => {
            refused(refusal);
            0
        }
    }
}

fn read_into(name: &[u8], said: &[u8], file: &[u8], out: &mut [u8]) -> u64 {
    pattern(out);
    line(name, said);
    let n = answered(read_out(file, out));
    sum(b" sum ", out);
    word(b"\n");
    n
}

// Once more, with room for one byte less.
fn short(name: &[u8], file: &[u8], out: &mut [u8], bytes: usize) {
    if 0 < bytes && bytes <= out.len() {
        read_into(name, b": short ", file, &mut out[..bytes - 1]);
    }
}

fn all(name: &[u8], file: &[u8], out: &mut [u8]) {
    check_line(name, check(file));
    summary_line(name, file);
    let n = read_into(name, b": read-out ", file, out);
    short(name, file, out, n as usize);
}

fn main() {
    let mut name = [0u8; 256];
    let mut space = [0u8; 65536];
    let mut out = [0u8; 262144];
    each_entry(&mut name, &mut space, |name, file| {
        all(name, file, &mut out)
    });
}

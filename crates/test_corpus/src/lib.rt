// What the programs over corpora share: reading a corpus from standard input, and words, numbers and sums on standard output.
#![tactic(auto)]

ghost use Rattle.std.specs.Prelude.{◌≤◌, length, IfSome};

use codes::little::le;
use refusal::{Refusal, told_of};
use text::put_refused;
use xxh3_whole::xxh3;

// ---- what is printed

// Prints a word.
pub fn word(s: &[u8]) {
    streams::wrote(s);
}

// Prints a number.
pub fn decimal(x: u64) {
    io::print_decimal(streams::OUTPUT, x);
}

// A number after a space.
pub fn number(x: u64) {
    word(b" ");
    decimal(x);
}

// A number as 16 hexadecimal digits.
pub fn hex(x: u64) {
    io::print_hex(streams::OUTPUT, x, 16);
}

// Bytes, two digits each.
pub fn hex_bytes(s: &[u8]) {
    for b in s {
        io::print_hex(streams::OUTPUT, u64::from(*b), 2);
    }
}

// A name and what is said of it.
pub fn line(name: &[u8], said: &[u8]) {
    word(name);
    word(said);
}

// `refused N at P`, as the printed form has it, and the place beside it.
pub fn refused(refusal: Refusal) {
    let mut room = [0u8; 64];
    let n = put_refused(&mut room, 0, refusal);
    word(&room[0..n]);
    word(b" beside");
    number(told_of(refusal).beside);
}

// What a check says of a file.
pub fn check_line(name: &[u8], check: Result<(), Refusal>) {
    line(name, b": check ");
    match check {
        Ok(()) => {
            word(b"fine\n");
        }
        Err(refusal) => {
            refused(refusal);
            word(b"\n");
        }
    }
}

// A word and the sum of bytes.
pub fn sum(said: &[u8], s: &[u8]) {
    word(said);
    hex(xxh3(s));
}

// Prints the sum of the first n bytes, if there are so many.
pub fn sum_front(said: &[u8], s: &[u8], n: usize) {
    if n <= s.len() {
        sum(said, &s[0..n]);
    }
}

// What stands in an output before a call, so that each byte that a call leaves or writes shows in the output's sum.
pub fn pattern(out: &mut [u8]) {
    let mut x: u8 = 3;
    for b in out.iter_mut() {
        *b = x;
        x = x.wrapping_add(7);
    }
}

// The byte family: a fixed run of bytes, the same on every machine.
pub fn family(out: &mut [u8]) {
    let mut x: u64 = 1;
    for b in out.iter_mut() {
        x = (x * 1103515245 + 12345) % 0x8000_0000;
        *b = (x / 65536 % 256) as u8;
    }
}

// ---- the corpus on standard input: for each entry one byte and its name, four bytes and its bytes

// The next byte; none where the input ends.
pub fn read_byte() -> Option<u8> {
    let mut b = [0u8; 1];
    if io::read_full(0, &mut b) < 1 {
        return None;
    }
    Some(b[0])
}

// Reads a number of four bytes; 0 where the input ends before.
pub fn read_number() -> usize {
    let mut b = [0u8; 4];
    if io::read_full(0, &mut b) < 4 {
        return 0;
    }
    le::<4>(&b, 0) as usize
}

// Reads n bytes to the front of the lent space, if it has them; how many came.
pub fn read_front(space: &mut [u8], n: usize) -> usize
    ensures { result ≤ length space.new }
{
    if n <= space.len() {
        return io::read_full(0, &mut space[0..n]);
    }
    0
}

// The most entries of a corpus.
pub const MOST: usize = 100000;

// An entry of the corpus: how many bytes of its name stand at the front of one space, and how many of its own at the front of another.
#[derive(Clone, Copy)]
pub struct Entry {
    pub name: usize,
    pub size: usize,
}

// Reads the next entry; none where the input ended or the entry does not fit.
pub fn next_entry(name: &mut [u8], space: &mut [u8]) -> Option<Entry>
    ensures { IfSome result (λ e. (e.name ≤ length name.new) × (e.size ≤ length space.new)) }
{
    let n = read_byte()?;
    let came = read_front(name, n as usize);
    let size = read_number();
    let got = read_front(space, size);
    if got != size {
        return None;
    }
    Some(Entry {
        name: came,
        size: got,
    })
}

// Hands on each entry of the corpus in turn: its name, and its bytes, which may be overwritten.
pub fn each_entry<F: FnMut(&[u8], &mut [u8])>(name: &mut [u8], space: &mut [u8], mut visit: F)
    requires { F.IsAlwaysCallable visit }
{
    for _ in 0..MOST {
        match next_entry(name, space) {
            Some(e) => visit(&name[..e.name], &mut space[..e.size]),
            None => return,
        }
    }
}

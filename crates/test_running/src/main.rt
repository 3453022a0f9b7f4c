// Feeds running sums in many cuts: two chunks, single bytes, and chunks of sizes around those of stripes, buffers and blocks, with
// empty chunks between them and sums asked for midway. The expected output is made by second/.
#![tactic(auto)]

ghost use Rattle.std.specs.Prelude.{◌<◌};

use test_corpus::{family, hex, number, word};
use xxh3_running::{feed, new, sum};

fn told(name: &[u8], n: usize, x: u64) {
    word(name);
    number(n as u64);
    word(b" ");
    hex(x);
}

// The sum of s in two chunks, the first of them of `cut` bytes.
fn in_two(s: &[u8], cut: usize) -> u64 {
    if cut > s.len() {
        return 0;
    }
    let one = feed(new(), &s[0..cut]);
    let two = feed(one.state, &s[cut..]);
    sum(two.state)
}

fn cut_line(n: usize, x: u64, cuts: usize) {
    told(b"cut", n, x);
    number(cuts as u64);
    word(b"\n");
}

// All cuts of s in two: a line for each run of equal sums, with the number of cuts in it.
fn cut_lines(s: &[u8]) {
    let mut last = in_two(s, 0);
    let mut first: usize = 0;
    for cut in 1..=s.len() {
        let x = in_two(s, cut);
        if x != last {
            cut_line(s.len(), last, cut - first);
            last = x;
            first = cut;
        }
    }
    cut_line(s.len(), last, s.len() + 1 - first);
}

fn all_cuts(s: &[u8]) {
    for n in 0..601 {
        if n <= s.len() {
            cut_lines(&s[0..n]);
        }
    }
}

fn byte_line(n: usize, x: u64) {
    told(b"bytes", n, x);
    word(b"\n");
}

// One state, fed byte by byte, with the sum asked for after each.
fn byte_lines(s: &[u8]) {
    let mut st = new();
    byte_line(0, sum(st));
    for n in 0..s.len() {
        let fed = feed(st, &s[n..n + 1]);
        st = fed.state;
        byte_line(n + 1, sum(st));
    }
}

// s in chunks of `size` bytes, the last one shorter, each after an empty one; the sums asked for after each chunk are xored.
fn chunk_line(s: &[u8], size: usize)
    requires { 0 < size }
{
    let mut st = new();
    let mut asked: u64 = 0;
    for chunk in s.chunks(size) {
        let none = feed(st, &chunk[0..0]);
        let fed = feed(none.state, chunk);
        st = fed.state;
        asked ^= sum(st);
    }
    told(b"chunks", size, sum(st));
    word(b" ");
    hex(asked);
    word(b"\n");
}

// Chunks of the sizes from `first` to `last`, `step` apart.
fn size_lines(s: &[u8], first: usize, last: usize, step: usize)
    requires { (0 < first) × (0 < step) }
{
    for size in (first..=last).step_by(step) {
        chunk_line(s, size);
    }
}

// Chunks around a stripe, the buffer and a block, and m times as long.
fn chunk_lines(s: &[u8]) {
    for m in 1..5 {
        size_lines(s, 63 * m, 65 * m, m);
        size_lines(s, 239 * m, 257 * m, m);
        size_lines(s, 1023 * m, 1025 * m, m);
    }
}

fn main() {
    let mut space = io::large_buffer();
    family(&mut space);
    all_cuts(&space);
    if space.len() >= 8269 {
        byte_lines(&space[0..1100]);
        chunk_lines(&space[0..8269]);
    }
}

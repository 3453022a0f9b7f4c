// Prints the XXH3-64 of the byte family's first n bytes, for n from 0 to 1,100 and around each multiple of 64 up to 65,536, so that
// each stripe of a block is once the last, in every block. The expected output is made by second/.
#![tactic(auto)]

use test_corpus::{decimal, family, sum, word};

fn line(s: &[u8]) {
    decimal(s.len() as u64);
    sum(b" ", s);
    word(b"\n");
}

// The line of the first n bytes, or none where there are fewer.
fn line_of(s: &[u8], n: usize) {
    if n <= s.len() {
        line(&s[0..n]);
    }
}

fn short_lines(s: &[u8]) {
    for n in 0..=1100 {
        line_of(s, n);
    }
}

fn stripe_lines(s: &[u8]) {
    for n in (1152..=65536).step_by(64) {
        line_of(s, n - 1);
        line_of(s, n);
        line_of(s, n + 1);
    }
}

fn main() {
    let mut space = io::large_buffer();
    family(&mut space);
    short_lines(&space);
    stripe_lines(&space);
}

// Prints the summary of a file, for the programs over corpora.
#![tactic(auto)]

use codes::ids::Id;
use summary::figures::{Extremes, Summary};
use summary::summary;
use test_corpus::{decimal, hex, line, number, refused, word};

fn id(d: Id) {
    word(b" ");
    hex(d.hi);
    hex(d.lo);
}

fn extremes(e: Option<Extremes>) {
    match e {
        None => {
            word(b" without edges");
        }
        Some(
            Extremes {
                smallestkey,
                largestkey,
                smallestlog,
                largestlog,
            },
        ) => {
            word(b" from");
            id(smallestkey);
            word(b" to");
            id(largestkey);
            word(b" logs");
            number(smallestlog);
            word(b" to");
            number(largestlog);
        }
    }
}

// A bucket that holds keys.
fn bucket(i: usize, keys: u64) {
    if 0 < keys {
        number(i as u64);
        word(b":");
        decimal(keys);
    }
}

fn buckets(b: [u64; 64]) {
    for (i, keys) in b.iter().enumerate() {
        bucket(i, *keys);
    }
}

fn figures(s: Summary) {
    word(b" keys");
    number(s.keycount);
    word(b" edges");
    number(s.edgecount);
    word(b" tombstones");
    number(s.tombstones);
    word(b" degree");
    number(s.largestdegree);
    extremes(s.extremes);
    word(b" buckets");
    buckets(s.buckets);
}

// What the summary says of a file.
pub fn summary_line(name: &[u8], file: &[u8]) {
    line(name, b": summary");
    match summary(file) {
        Ok(s) => {
            figures(s);
        }
        Err(refusal) => {
            word(b" ");
            refused(refusal);
        }
    }
    word(b"\n");
}

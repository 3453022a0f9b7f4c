// The degree summary for C: numbers, and each key as its 16 bytes.
ghost use Rattle.std.specs.Prelude.{◌≡◌, Ok, Err};
ghost use Rattle.summary.specs.Summary.{nothing, summarised_of};
ghost use Rattle.edge_sst_c.specs.Desk.{check_told};
ghost use Rattle.edge_sst_c.specs.Summary.{none_told, extremes_told, figures_told, summary_told};

use super::header::id_told;
use refusal::{Refusal, told_of};
use summary::figures::{Extremes, Summary};
use summary::summary;

// A refusal's number and places, or zeros and what the summary says; where it is refused, all else is 0.
#[repr(C)]
#[derive(Drop)]
pub struct EdgeSstSummary {
    pub number: u64,
    pub place: u64,
    pub beside: u64,
    pub keycount: u64,
    pub edgecount: u64,
    pub tombstones: u64,
    pub largestdegree: u64,
    pub extremes: u64,
    pub smallestkey: [u8; 16],
    pub largestkey: [u8; 16],
    pub smallestlog: u64,
    pub largestlog: u64,
    pub buckets: [u64; 64],
}

// The smallest and largest, or zeros and that there are none.
#[derive(Drop)]
pub struct ExtremesTold {
    pub there: u64,
    pub smallestkey: [u8; 16],
    pub largestkey: [u8; 16],
    pub smallestlog: u64,
    pub largestlog: u64,
}

fn extremes_told(x: Option<Extremes>) -> ExtremesTold
    ensures { result ≡ extremes_told x }
{
    match x {
        None => ExtremesTold {
            there: 0,
            smallestkey: [0u8; 16],
            largestkey: [0u8; 16],
            smallestlog: 0,
            largestlog: 0,
        },
        Some(
            Extremes {
                smallestkey,
                largestkey,
                smallestlog,
                largestlog,
            },
        ) => ExtremesTold {
            there: 1,
            smallestkey: id_told(smallestkey),
            largestkey: id_told(largestkey),
            smallestlog,
            largestlog,
        },
    }
}

// What a summary says, beside no refusal.
fn figures_told(s: Summary) -> EdgeSstSummary
    ensures { result ≡ figures_told (check_told (Ok tt)) s (extremes_told s.extremes) }
{
    let x = extremes_told(s.extremes);
    let smallestkey = x.smallestkey;
    let largestkey = x.largestkey;
    let buckets = s.buckets;
    EdgeSstSummary {
        number: 0,
        place: 0,
        beside: 0,
        keycount: s.keycount,
        edgecount: s.edgecount,
        tombstones: s.tombstones,
        largestdegree: s.largestdegree,
        extremes: x.there,
        smallestkey,
        largestkey,
        smallestlog: x.smallestlog,
        largestlog: x.largestlog,
        buckets,
    }
}

// A refusal, and zeros.
fn no_figures(refusal: Refusal) -> EdgeSstSummary
    ensures { result ≡ figures_told (check_told (Err refusal)) nothing none_told }
{
    let told = told_of(refusal);
    EdgeSstSummary {
        number: told.number as u64,
        place: told.place,
        beside: told.beside,
        keycount: 0,
        edgecount: 0,
        tombstones: 0,
        largestdegree: 0,
        extremes: 0,
        smallestkey: [0u8; 16],
        largestkey: [0u8; 16],
        smallestlog: 0,
        largestlog: 0,
        buckets: [0u64; 64],
    }
}

// Sums a file's edges up, once the full check has passed.
#[unsafe(no_mangle)]
pub extern "C" fn edge_sst_summary(file: &[u8]) -> EdgeSstSummary
    ensures { result ≡ summary_told (summarised_of file.now) }
{
    match summary(file) {
        Ok(figures) => figures_told(figures),
        Err(refusal) => no_figures(refusal),
    }
}

// The degree summary: what the query planner asks of a file that the full check passes.
#![tactic(auto)]

ghost use Rattle.std.specs.Prelude.{◌≡◌, Ok};
ghost use Rattle.frame.specs.Open.{known_of};
ghost use Rattle.full_check.specs.Full.{checked_of};
ghost use Rattle.readout.specs.Edges.{edges_in};
ghost use Rattle.summary.specs.Summary.{dead_in, degrees_of, extremes_of, summary_of, summarised_of};
ghost use Rattle.batch_groups.specs.Groups.{groups_of};
ghost use Rattle.summary.specs.Tally.{tally_of};

pub mod dead;
pub mod figures;
pub mod logs;
pub mod tally;

use dead::dead_of;
use figures::{Extremes, Summary};
use frame::{Opened, bytes_of};
use full_check::checked;
use index::keys::key_at;
use logs::span_of;
use lookup::whole::tombstones_of;
use refusal::Refusal;
use tally::{Tally, tally_of};

// The degrees of a file that the full check passed.
fn tally_in(file: &[u8], o: Opened) -> Tally
    requires { checked_of file.now ≡ Ok o }
    ensures { result ≡ tally_of (degrees_of (groups_of (edges_in (known_of file.now o)))) }
{
    let partners = o.partners;
    let offsets = o.offsets;
    tally_of(
        bytes_of(file, partners),
        bytes_of(file, offsets),
        (o.bits / 8) as usize,
        o.keycount as usize,
    )
}

// Its dead edges. Unused bits are 0.
fn dead_in(file: &[u8], o: Opened) -> u64
    requires { checked_of file.now ≡ Ok o }
    ensures { result ≡ dead_in (edges_in (known_of file.now o)) }
{
    dead_of(tombstones_of(file, o))
}

// Its smallest and largest. Keys rise.
fn extremes_in(file: &[u8], o: Opened) -> Option<Extremes>
    requires { checked_of file.now ≡ Ok o }
    ensures { result ≡ extremes_of (edges_in (known_of file.now o)) }
{
    if o.edgecount == 0 {
        return None;
    }
    let keys = bytes_of(file, o.keys);
    let logs = o.logs;
    let span = span_of(bytes_of(file, logs), o.edgecount as usize);
    Some(Extremes {
        smallestkey: key_at(keys, 0),
        largestkey: key_at(keys, o.keycount as usize - 1),
        smallestlog: span.smallest,
        largestlog: span.largest,
    })
}

fn summary_in(file: &[u8], o: Opened) -> Summary
    requires { checked_of file.now ≡ Ok o }
    ensures { result ≡ summary_of (edges_in (known_of file.now o)) }
{
    let t = tally_in(file, o);
    let buckets = t.buckets;
    Summary {
        keycount: o.keycount,
        edgecount: o.edgecount,
        tombstones: dead_in(file, o),
        largestdegree: t.largest,
        extremes: extremes_in(file, o),
        buckets,
    }
}

// The summary of a file, if the full check passes. Any bytes may be lent; the first refusal is told.
pub fn summary(file: &[u8]) -> Result<Summary, Refusal>
    ensures { result ≡ summarised_of file.now }
{
    let opened = checked(file)?;
    Ok(summary_in(file, opened))
}

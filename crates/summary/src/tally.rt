// The degrees of all groups, in one pass: the largest, and how many are in each bucket.
ghost use Rattle.std.specs.Prelude.{◌≡◌, ◌+◌, ◌*◌, ◌<◌, ◌≤◌, true, length};
ghost use Rattle.frame.specs.Kind.{most_keys};
ghost use Rattle.index.specs.Order.{OffsetsRise};
ghost use Rattle.group.specs.Group.{degree_of};
ghost use Rattle.summary.specs.Summary.{in_bucket};
ghost use Rattle.summary.specs.Tally.{degree_told, degrees_at, AllTold, tally_of};

use codes::varint::varint_at;
use index::offsets::offset_at;

// The largest degree, 0 where there is none, and the buckets.
#[derive(Drop)]
pub struct Tally {
    pub largest: u64,
    pub buckets: [u64; 64],
}

// The bucket of a degree: the place of its highest one.
fn bucket_of(d: u64) -> usize
    requires { 1 ≤ d }
    ensures { (result < 64) × (in_bucket result d ≡ true) }
{
    63 - d.leading_zeros() as usize
}

// The degree that a group begins with, 0 where it has none.
fn degree_of(g: &[u8]) -> u64
    ensures { result ≡ degree_told (degree_of g.now) }
{
    match varint_at(g, 0) {
        Ok((value, _)) => value,
        Err(_) => 0,
    }
}

// The tally of n groups, whose offsets rise from 0 to the partners' length and which all have a degree.
pub fn tally_of(partners: &[u8], offs: &[u8], w: usize, n: usize) -> Tally
    requires { (3 ≤ w) × (w ≤ 6) × (n ≤ most_keys) × ((n + 1) * w ≤ length offs.now) × OffsetsRise offs.now w n (length partners.now) × AllTold partners.now offs.now w n }
    ensures { result ≡ tally_of (degrees_at partners.now offs.now w n 0) }
{
    let mut largest: u64 = 0;
    let mut buckets = [0u64; 64];
    let mut a: usize = 0;
    for i in 0..n {
        let e = offset_at(offs, w, i + 1) as usize;
        let d = degree_of(&partners[a..e]);
        let b = bucket_of(d);
        buckets[b] += 1;
        largest = largest.max(d);
        a = e;
    }
    Tally { largest, buckets }
}

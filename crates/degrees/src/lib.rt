// Degrees of groups, and how many edges stand before a group: as the start index says, without reading any degree; or the sum of
// the earlier degrees, of which only the first varint of each group is read.
#![tactic(auto)]

ghost use Rattle.std.specs.Prelude.{◌≡◌, ◌+◌, ◌*◌, ◌≤◌, ◌<◌, length};
ghost use Rattle.frame.specs.Kind as kind;
ghost use Rattle.degrees.specs.Degrees.{degree_in, edges_before, start_of, capped};

use codes::varint::varint_at;
use index::offsets::offset_at;
use index::starts::start_at;

// The degree of the group from a to e of the partners.
pub fn degree_in(partners: &[u8], a: usize, e: usize) -> Option<u64>
    ensures { result ≡ degree_in partners.now a e }
{
    let group = partners.get(a..e)?;
    let (degree, _) = varint_at(group, 0).ok()?;
    if degree == 0 {
        return None;
    }
    Some(degree)
}

// The edges before group n, if they are at most `most`. Each offset is read once.
pub fn edges_before(partners: &[u8], offs: &[u8], w: usize, n: usize, most: u64) -> Option<u64>
    requires { (3 ≤ w) × (w ≤ 6) × (n ≤ 16777215) × (n * w + w ≤ length offs.now) }
    ensures { result ≡ capped most (edges_before partners.now offs.now w n) }
{
    let mut sum: u64 = 0;
    let mut a = offset_at(offs, w, 0) as usize;
    for j in 0..n {
        let e = offset_at(offs, w, j + 1) as usize;
        let degree = degree_in(partners, a, e)?;
        if most - sum < degree {
            return None;
        }
        sum += degree;
        a = e;
    }
    Some(sum)
}

// Where the d edges of group i begin by the start index, if that is at most `most` and the next group begins d edges later.
pub fn start_of(starts: &[u8], i: usize, d: u64, most: u64) -> Option<u64>
    requires { (i < kind.most_keys) × (kind.starts_len (i + 1) ≤ length starts.now) }
    ensures { result ≡ capped most (start_of starts.now i d) }
{
    let edges = start_at(starts, i);
    let next = start_at(starts, i + 1);
    if edges <= most && next.checked_sub(edges) == Some(d) {
        return Some(edges);
    }
    None
}

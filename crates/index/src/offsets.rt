// Offsets: where each key's group begins among the partners, and after the last one their length.
ghost use Rattle.std.specs.Prelude.{◌≡◌, ◌+◌, ◌*◌, ◌^◌, ◌<◌, ◌≤◌, length, Err};
ghost use Rattle.frame.specs.Kind as kind;
ghost use Rattle.frame.specs.Open.{offset_at, offsets_check};

use super::rising::rising;
use codes::little::le;
use refusal::Refusal;

// Offset i, of w bytes. Each width has its own loads, and by these tests a loop over offsets becomes four, one for each width, which by
// a `match` it does not.
pub fn offset_at(offs: &[u8], w: usize, i: usize) -> u64
    requires { (3 ≤ w) × (w ≤ 6) × (i ≤ kind.most_keys) × (i * w + w ≤ length offs.now) }
    ensures { (result ≡ offset_at offs.now w i) × (result < 2 ^ 48) }
{
    let at = i * w;
    if w <= 3 {
        return le::<3>(offs, at);
    }
    if w <= 4 {
        return le::<4>(offs, at);
    }
    if w <= 5 {
        return le::<5>(offs, at);
    }
    le::<6>(offs, at)
}

// Rule 14 of n + 1 offsets: the first is 0, each is above the one before, the last is len.
pub fn offsets_check(offs: &[u8], w: usize, n: usize, len: u64) -> Result<(), Refusal>
    requires { (3 ≤ w) × (w ≤ 6) × (n ≤ kind.most_keys) × (kind.offsets_len n w ≤ length offs.now) }
    ensures { result ≡ offsets_check offs.now w n len }
{
    let rise = match w {
        3 => rising::<3>(offs, n, len),
        4 => rising::<4>(offs, n, len),
        5 => rising::<5>(offs, n, len),
        _ => rising::<6>(offs, n, len),
    };
    rise.map_err(|index| Refusal::Offset { index })
}

// Keys: 16 bytes each, strictly increasing; and finding one by halving.
ghost use Rattle.std.specs.Prelude.{◌≡◌, ◌+◌, ◌-◌, ◌*◌, ◌≤◌, length};
ghost use Rattle.codes.specs.Ids.{id_number, halves_at};
ghost use Rattle.frame.specs.Kind as kind;
ghost use Rattle.frame.specs.Open.{keys_from};
ghost use Rattle.index.specs.Find.{find_in};

use codes::ids::{Id, be64, compare, id_at, precedes};
use frame::kind::Keys;
use refusal::Refusal;
use std::cmp::Ordering;

// Where a key stands, or that it is not there; and how many keys were compared.
#[derive(Clone, Copy, Debug, PartialEq, Eq)]
pub enum Found {
    At { index: u64, compared: u64 },
    Absent { compared: u64 },
}

// Key k.
pub fn key_at(keys: &[u8], k: usize) -> Id
    requires { (k ≤ kind.most_keys) × (k * kind.key_size + kind.key_size ≤ length keys.now) }
    ensures { result ≡ halves_at keys.now (k * kind.key_size) }
{
    id_at(keys, k * (Keys::ROW as usize))
}

// Rule 13: the first of n keys that is not above the one before it. Upper halves are read once, and lower ones only where
// these are equal.
pub fn keys_check(keys: &[u8], n: usize) -> Result<(), Refusal>
    requires { (n ≤ kind.most_keys) × (n * kind.key_size ≤ length keys.now) }
    ensures { result ≡ keys_from (n - 1) keys.now 1 }
{
    if n == 0 {
        return Ok(());
    }
    let mut last = be64(keys, 0);
    for k in 1..n {
        let i = k * (Keys::ROW as usize);
        let hi = be64(keys, i);
        if !precedes(keys, i - (Keys::ROW as usize), i, last, hi) {
            return Err(Refusal::Key { index: k as u64 });
        }
        last = hi;
    }
    Ok(())
}

// The place of a key among n keys. The count is of keys compared, the one that was found too.
pub fn find(keys: &[u8], n: usize, key: Id) -> Found
    requires { (n ≤ kind.most_keys) × (n * kind.key_size ≤ length keys.now) }
    ensures { result ≡ find_in keys.now n (id_number key) }
{
    let mut low: usize = 0;
    let mut high = n;
    let mut compared: u64 = 0;
    // Stays a loop by hand: it halves, and its turns are counted (the library's search tells no count).
    while low < high {
        let middle = low + (high - low) / 2;
        compared += 1;
        match compare(key_at(keys, middle), key) {
            Ordering::Less => {
                low = middle + 1;
            }
            Ordering::Greater => {
                high = middle;
            }
            Ordering::Equal => {
                return Found::At {
                    index: middle as u64,
                    compared,
                };
            }
        }
    }
    Found::Absent { compared }
}

// Ids of 16 bytes. An id compares as one big-endian number; the code holds it as its two halves.
ghost use Rattle.std.specs.Prelude.{◌≡◌, ◌+◌, ◌≤◌, ◌<◌, ltb, eqb, length};
ghost use Rattle.std.proofs.lemmas.List.Edits.{sets};
ghost use Rattle.codes.specs.Ids.{be_at, be_bytes, turned, id_at, id_number, id_bytes, halves_at, order};

use super::little::{le, put_le};
use std::cmp::Ordering;

// An id as its upper and its lower half.
#[derive(Clone, Copy, Debug, PartialEq, Eq, PartialOrd, Ord)]
pub struct Id {
    pub hi: u64,
    pub lo: u64,
}

// The number with its eight bytes in the other order: one instruction.
fn swap(x: u64) -> u64
    ensures { result ≡ turned 8 x 0 }
{
    x.swap_bytes()
}

// The big-endian number of the eight bytes at `at`: one load and a swap.
pub fn be64(s: &[u8], at: usize) -> u64
    requires { at + 8 ≤ length s.now }
    ensures { result ≡ be_at s.now at 8 }
{
    swap(le::<8>(s, at))
}

// The id at `at`.
pub fn id_at(s: &[u8], at: usize) -> Id
    requires { at + 16 ≤ length s.now }
    ensures { result ≡ halves_at s.now at }
{
    let hi = be64(s, at);
    let lo = be64(s, at + 8);
    Id { hi, lo }
}

// Which of two ids comes first: the upper halves decide, and where they are equal the lower. This is `cmp`, and stays by hand: `cmp`
// works out both halves of both, which takes twice the instructions in a search and in the check of a batch.
pub fn compare(a: Id, b: Id) -> Ordering
    ensures { result ≡ order (id_number a) (id_number b) }
{
    if a.hi < b.hi {
        return Ordering::Less;
    }
    if b.hi < a.hi {
        return Ordering::Greater;
    }
    a.lo.cmp(&b.lo)
}

// Does the id at i come before the one at j? Their upper halves are a and b; the lower ones are read only where these
// are equal. Stays by hand: `<` of two ids would read both halves of both.
pub fn precedes(s: &[u8], i: usize, j: usize, a: u64, b: u64) -> bool
    requires { (i + 16 ≤ length s.now) × (j + 16 ≤ length s.now) × (a ≡ be_at s.now i 8) × (b ≡ be_at s.now j 8) }
    ensures { result ≡ ltb (id_at s.now i) (id_at s.now j) }
{
    if a < b {
        return true;
    }
    if b < a {
        return false;
    }
    let lower = be64(s, i + 8);
    lower < be64(s, j + 8)
}

// Writes the n low bytes of x at `at`, the highest first.
pub fn put_be(out: &mut [u8], at: usize, n: usize, x: u64)
    requires { at + n ≤ length out.old }
    ensures { out.new ≡ sets out.old at (be_bytes n x) }
{
    let mut y = x;
    for k in 0..n {
        out[at + (n - 1 - k)] = (y % 256) as u8;
        y = y / 256;
    }
}

// Writes the eight bytes of x at `at`, the highest first: a swap and one store.
pub fn put_be64(out: &mut [u8], at: usize, x: u64)
    requires { at + 8 ≤ length out.old }
    ensures { out.new ≡ sets out.old at (be_bytes 8 x) }
{
    put_le(out, at, 8, swap(x));
}

// Writes the id at `at`.
pub fn put_id(out: &mut [u8], at: usize, id: Id)
    requires { at + 16 ≤ length out.old }
    ensures { out.new ≡ sets out.old at (id_bytes id) }
{
    put_be64(out, at, id.hi);
    put_be64(out, at + 8, id.lo);
}

// Are two ids one?
pub fn same_id(a: Id, b: Id) -> bool
    ensures { result ≡ eqb (id_number a) (id_number b) }
{
    a == b
}

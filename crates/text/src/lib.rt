// Text put into a lent output: words, numbers and refusals, each at a place. Each answers the place after what it put, and asks
// that there is room for it.
#![tactic(auto)]

ghost use Rattle.std.specs.Prelude.{◌≡◌, ◌+◌, ◌≤◌, ◌++◌, length};
ghost use Rattle.base.specs.Put.{Put};
ghost use Rattle.text.specs.Text.{decimal, hex, refused_text};

use refusal::{Refusal, told_of};

// Bytes as they are.
pub fn put_word(out: &mut [u8], at: usize, word: &[u8]) -> usize
    requires { at + length word.now ≤ length out.old }
    ensures { Put out.old out.new at result word.now }
{
    let end = at + word.len();
    out[at..end].copy_from_slice(word);
    end
}

// A number in decimal, without leading zeros.
pub fn put_decimal(out: &mut [u8], at: usize, x: u64) -> usize
    requires { at + length (decimal x) ≤ length out.old }
    ensures { Put out.old out.new at result (decimal x) }
{
    let mut digits = [0u8; 20];
    let n = io::decimal(x, &mut digits);
    put_word(out, at, &digits[..n])
}

// A number as 16 hexadecimal digits in lower case.
pub fn put_hex(out: &mut [u8], at: usize, x: u64) -> usize
    requires { at + length (hex x) ≤ length out.old }
    ensures { Put out.old out.new at result (hex x) }
{
    let mut digits = [0u8; 16];
    let n = io::hex(x, 16, &mut digits);
    put_word(out, at, &digits[..n])
}

// A word and a number in decimal.
pub fn put_labelled(out: &mut [u8], at: usize, word: &[u8], x: u64) -> usize
    requires { at + length (word.now ++ decimal x) ≤ length out.old }
    ensures { Put out.old out.new at result (word.now ++ decimal x) }
{
    let mid = put_word(out, at, word);
    put_decimal(out, mid, x)
}

// A refusal: `refused N at P`.
pub fn put_refused(out: &mut [u8], at: usize, refusal: Refusal) -> usize
    requires { at + length (refused_text refusal) ≤ length out.old }
    ensures { Put out.old out.new at result (refused_text refusal) }
{
    let t = told_of(refusal);
    let mid = put_labelled(out, at, b"refused ", t.number as u64);
    put_labelled(out, mid, b" at ", t.place)
}

// Varints: numbers below 2^64 in their shortest form, seven bits to a byte, the lowest first; the top bit says that
// another byte follows.
ghost use Rattle.std.specs.Prelude.{◌≡◌, ◌+◌, ◌^◌, ◌≤◌, ◌<◌, length};
ghost use Rattle.base.specs.Put.{Put};
ghost use Rattle.codes.specs.Varint.{last_byte, var_from, varint_at, var_bytes};

// Why no number is read.
#[derive(Clone, Copy, Debug, PartialEq, Eq)]
pub enum Unread {
    // nine bytes or fewer that all say "more", none too, and no byte after them
    Cut,
    // a last byte of 0 after one to nine others: not the shortest form
    Long,
    // a tenth byte above 1: 2^64 or more, whatever follows
    Large,
}

// What the last byte b gives, byte k of the number (from 0), over x with the weight m. The tenth has room for one bit.
fn last_byte(b: u64, i: usize, x: u64, m: u64, k: usize) -> Result<(u64, usize), Unread>
    requires { (k ≤ 9) × (b < 128) × (x < m) × (m ≡ 128 ^ k) × (i + 1 < 2 ^ 64) }
    ensures { result ≡ last_byte b i x m }
{
    if b == 0 {
        if 1 < m {
            return Err(Unread::Long);
        }
        return Ok((x, i + 1));
    }
    if k == 9 {
        if 1 < b {
            return Err(Unread::Large);
        }
        return Ok((x + m, i + 1));
    }
    Ok((x + b * m, i + 1))
}

// What the bytes after the first give, byte k of the number at `at` + k, over what the first gives. Places are counted from
// the first byte, so that the compiler compares what is left with constants.
fn more_at(s: &[u8], at: usize, low: u64) -> Result<(u64, usize), Unread>
    requires { (at < length s.now) × (low < 128) }
    ensures { result ≡ var_from 9 s.now (at + 1) low 128 }
{
    let left = s.len() - at;
    let mut x = low;
    let mut m: u64 = 128;
    for k in 1..10 {
        if left <= k {
            return Err(Unread::Cut);
        }
        let b = s[at + k] as u64;
        if b < 128 {
            return last_byte(b, at + k, x, m, k);
        }
        if k == 9 {
            return Err(Unread::Large);
        }
        x = x + b % 128 * m;
        m = m * 128;
    }
    Err(Unread::Large)
}

// The number at `at`, and the place after it.
pub fn varint_at(s: &[u8], at: usize) -> Result<(u64, usize), Unread>
    ensures { result ≡ varint_at s.now at }
{
    if s.len() <= at {
        return Err(Unread::Cut);
    }
    let b = s[at] as u64;
    if b < 128 {
        return Ok((b, at + 1));
    }
    more_at(s, at, b % 128)
}

// The same, but a number of two bytes is read without a call too. Stays beside `varint_at`: where all are read this way, code that reads only degrees grows.
pub fn short_at(s: &[u8], at: usize) -> Result<(u64, usize), Unread>
    ensures { result ≡ varint_at s.now at }
{
    if s.len() <= at {
        return Err(Unread::Cut);
    }
    let b = s[at] as u64;
    if b < 128 {
        return Ok((b, at + 1));
    }
    if at + 1 < s.len() {
        let c = s[at + 1] as u64;
        if 1 <= c {
            if c < 128 {
                return Ok((b % 128 + 128 * c, at + 2));
            }
        }
    }
    more_at(s, at, b % 128)
}

// How many bytes the number takes: seven bits to a byte, from its highest bit that is set, and one byte for 0 as for 1, so the
// lowest bit is set first. No loop, as no processor foresees how many turns one would take. Where the highest bit is bit j,
// that is j / 7 + 1, or (9 * j + 73) / 64 for each j below 64: a shift and no division.
pub fn varint_len(x: u64) -> usize
    ensures { result ≡ length (var_bytes x) }
{
    let odd = x / 2 * 2 + 1;
    let top = 63 - u64::leading_zeros(odd) as usize;
    (9 * top + 73) / 64
}

// Writes the number at `at`, and answers the place after it.
pub fn put_varint(out: &mut [u8], at: usize, x: u64) -> usize
    requires { at + length (var_bytes x) ≤ length out.old }
    ensures { Put out.old out.new at result (var_bytes x) }
{
    let mut y = x;
    let mut i = at;
    // Stays a loop by hand: it ends by what is left of the number, not after so many turns.
    while 128 <= y {
        out[i] = (y % 128 + 128) as u8;
        y = y / 128;
        i = i + 1;
    }
    out[i] = y as u8;
    i + 1
}

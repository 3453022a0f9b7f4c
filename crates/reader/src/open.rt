// Opening a file: rules 1 to 15, with 36, then 37.
ghost use Rattle.std.specs.Prelude.{◌≡◌, not, ◌&&◌, ◌+◌, ◌-◌, ◌*◌, ◌≤◌, length};
ghost use Rattle.refusal.specs.declared.Refusal.{Refusal};
ghost use Rattle.refusal.specs.Check.{◌⊳◌, refuse};
ghost use Rattle.frame.specs.Kind as kind;
ghost use Rattle.frame.specs.Open.{keys_from, offsets_check, fences_good, indexed_check, known_of, bytes_at, content_check, open_of};
ghost use Rattle.reader.specs.Fit.{Fit};

use frame::{Framed, Opened, bytes_of};
use index::fences::fences_good;
use index::keys::keys_check;
use index::offsets::offsets_check;
use index::starts::starts_check;
use open_file::frames::frame_of;
use refusal::Refusal;

// Rules 13 and 14: keys, and offsets of w bytes into a partner section of `len` bytes.
fn index_check(keys: &[u8], offsets: &[u8], n: usize, w: usize, len: u64) -> Result<(), Refusal>
    requires { (n ≤ kind.most_keys) × (n * kind.key_size ≤ length keys.now) × (3 ≤ w) × (w ≤ 6) × (kind.offsets_len n w ≤ length offsets.now) }
    ensures { result ≡ keys_from (n - 1) keys.now 1 ⊳ offsets_check offsets.now w n len }
{
    keys_check(keys, n)?;
    offsets_check(offsets, w, n, len)
}

// Rule 15.
fn fence_check(fences: &[u8], keys: &[u8], n: usize) -> Result<(), Refusal>
    requires { (n ≤ kind.most_keys) × (n * kind.key_size ≤ length keys.now) }
    ensures { result ≡ refuse Refusal.Fences (not (fences_good fences.now keys.now n)) }
{
    if !fences_good(fences, keys, n) {
        return Err(Refusal::Fences);
    }
    Ok(())
}

// Rules 13 to 15. Two calls of `index_check` keep its loops in a function of their own.
fn content_check(
    keys: &[u8],
    offsets: &[u8],
    fenced: bool,
    fences: &[u8],
    n: usize,
    w: usize,
    len: u64,
) -> Result<(), Refusal>
    requires { (n ≤ kind.most_keys) × (n * kind.key_size ≤ length keys.now) × (3 ≤ w) × (w ≤ 6) × (kind.offsets_len n w ≤ length offsets.now) }
    ensures { result ≡ keys_from (n - 1) keys.now 1 ⊳ offsets_check offsets.now w n len ⊳ refuse Refusal.Fences (fenced && not (fences_good fences.now keys.now n)) }
{
    if !fenced {
        return index_check(keys, offsets, n, w, len);
    }
    index_check(keys, offsets, n, w, len)?;
    fence_check(fences, keys, n)
}

// Rule 37, where there is a start index.
#[tactic(auto, unfolding(frame::specs::Open::known_of))]
fn starts_of(file: &[u8], x: Framed) -> Result<(), Refusal>
    requires { Fit (length file.now) x }
    ensures { result ≡ indexed_check (known_of file.now x.opened) }
{
    let o = x.opened;
    if !o.indexed {
        return Ok(());
    }
    starts_check(bytes_of(file, o.starts), o.keycount as usize, o.edgecount)
}

// Rules 13 to 15 and 37 of a file whose frame is known.
fn content_of(file: &[u8], x: Framed) -> Result<(), Refusal>
    requires { Fit (length file.now) x }
    ensures { result ≡ content_check (known_of file.now x.opened) x.fenced (bytes_at file.now x.fences) }
{
    let o = x.opened;
    content_check(
        bytes_of(file, o.keys),
        bytes_of(file, o.offsets),
        x.fenced,
        bytes_of(file, x.fences),
        o.keycount as usize,
        (o.bits / 8) as usize,
        bytes_of(file, o.partners).len() as u64,
    )?;
    starts_of(file, x)
}

// What opening gives for any bytes: where the sections lie and the counts, or the first refusal.
pub fn open(file: &[u8]) -> Result<Opened, Refusal>
    ensures { result ≡ open_of file.now }
{
    let framed = frame_of(file)?;
    content_of(file, framed)?;
    Ok(framed.opened)
}

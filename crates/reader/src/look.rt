// Looking up a key: the workbench's calls. Partners alone, or with log numbers and dead marks; from a file, or from an
// opened record of earlier, whoever filled it. A refusal or absence writes nothing; what lies past the answer stays.
ghost use Rattle.std.specs.Prelude.{◌≡◌, true, false, not, ◌||◌, ◌+◌, leb, length, Err};
ghost use Rattle.codes.specs.Ids.{id_at};
ghost use Rattle.frame.specs.Open.{options_inside, record_within};
ghost use Rattle.lookup.specs.declared.Looked.{Looked};
ghost use Rattle.lookup.specs.Lookup.{look_of, look_with};
ghost use Rattle.lookup.specs.Calls.{alone, Alone, WholeBy};

use super::open::open;
use codes::ids::{Id, id_at};
use frame::bounds::Bounds;
use frame::{Opened, Range};
use lookup::Looked;
use lookup::partners::partners_of;
use lookup::whole::edges_of_key;
use open_counts::{sizes_good, width_good};
use refusal::Refusal;

// Does a range lie within so many bytes? Its start and length may be any numbers.
fn inside(size: u64, r: Range) -> bool
    ensures { result ≡ leb (r.start + r.len) size }
{
    r.start <= size && r.len <= size - r.start
}

// The same of a range that is looked at only where its section is there.
fn inside_if(there: bool, size: u64, r: Range) -> bool
    ensures { result ≡ (not there || leb (r.start + r.len) size) }
{
    !there || inside(size, r)
}

// Tombstones and start index.
fn options_inside(size: u64, o: Opened) -> bool
    ensures { result ≡ options_inside size o }
{
    inside_if(o.marked, size, o.dead) && inside_if(o.indexed, size, o.starts)
}

// Rule 21, of a file of that size.
#[tactic(auto, unfolding(frame::specs::Open::record_within))]
fn record_good(size: u64, o: Opened) -> bool
    ensures { result ≡ record_within size o }
{
    size <= Bounds::BYTES
        && inside(size, o.keys)
        && inside(size, o.offsets)
        && inside(size, o.partners)
        && inside(size, o.logs)
        && options_inside(size, o)
        && width_good(o.bits)
        && sizes_good(o)
}

// The partners of a key, by an opened record: 16 bytes each over the start of `out`.
pub fn partners_with(
    file: &[u8],
    o: Opened,
    key: &[u8; 16],
    out: &mut [u8],
) -> Result<Looked, Refusal>
    ensures { Alone (look_with false (alone (length out.old)) (id_at key.now 0) file.now o) result out.old out.new }
{
    if !record_good(file.len() as u64, o) {
        return Err(Refusal::Record);
    }
    partners_of(file, o, id_at(key, 0), out)
}

// The partners of a key of a file.
pub fn partners(file: &[u8], key: &[u8; 16], out: &mut [u8]) -> Result<Looked, Refusal>
    ensures { Alone (look_of false (alone (length out.old)) (id_at key.now 0) file.now) result out.old out.new }
{
    let opened = open(file)?;
    partners_of(file, opened, id_at(key, 0), out)
}

// The partners of a key with their log numbers and dead marks (0 live, 1 dead), by an opened record.
pub fn lookup_with(
    file: &[u8],
    o: Opened,
    key: &[u8; 16],
    out: &mut [u8],
    logs: &mut [u64],
    marks: &mut [u8],
) -> Result<Looked, Refusal>
    ensures { WholeBy (λ rooms. look_with true rooms (id_at key.now 0) file.now o) result out.old out.new logs.old logs.new marks.old marks.new }
{
    if !record_good(file.len() as u64, o) {
        return Err(Refusal::Record);
    }
    edges_of_key(file, o, id_at(key, 0), out, logs, marks)
}

// The same of a file.
pub fn lookup(
    file: &[u8],
    key: &[u8; 16],
    out: &mut [u8],
    logs: &mut [u64],
    marks: &mut [u8],
) -> Result<Looked, Refusal>
    ensures { WholeBy (λ rooms. look_of true rooms (id_at key.now 0) file.now) result out.old out.new logs.old logs.new marks.old marks.new }
{
    let opened = open(file)?;
    edges_of_key(file, opened, id_at(key, 0), out, logs, marks)
}

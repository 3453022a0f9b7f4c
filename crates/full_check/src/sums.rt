// Rule 22: the checksum of every section, of skipped kinds too.
ghost use Rattle.std.specs.Prelude.{◌≡◌, ◌+◌, ◌≤◌, length};
ghost use Rattle.frame.specs.Kind as kind;
ghost use Rattle.frame.specs.Frame.{rows_from, end_from, rows_of, body_of};
ghost use Rattle.xxh3_spec.specs.Xxh3.{xxh3};
ghost use Rattle.frame.specs.Open.{bytes_at};
ghost use Rattle.frame.specs.Frame.Laws.{Table};
ghost use Rattle.frame.specs.Open.Laws.{Frames};
ghost use Rattle.full_check.specs.Full.{sums_from};
ghost use Rattle.full_check.specs.Full.Laws.{RowsWithin};

use codes::little::le;
use frame::ends::body_of;
use frame::{Range, Row, bytes_of};
use open_table::row_at;
use refusal::Refusal;
use xxh3_whole::xxh3;

// The sum of the bytes from `start` on.
fn sum_of(file: &[u8], start: u64, len: u64) -> u64
    requires { start + len ≤ length file.now }
    ensures { result ≡ xxh3 (bytes_at file.now (record { start = start; len = len })) }
{
    xxh3(bytes_of(file, Range { start, len }))
}

// The first of `count` entries of the footer body b whose section does not have its checksum.
fn sums_from(file: &[u8], b: &[u8], count: usize) -> Result<(), Refusal>
    requires { (count ≤ kind.most_sections) × (end_from count b.now 2 ≤ length b.now) × (length b.now ≤ kind.most_bytes) × RowsWithin (length file.now) (rows_from count b.now 2) }
    ensures { result ≡ sums_from file.now (rows_from count b.now 2) 0 }
{
    let mut at: usize = 2;
    for k in 0..count {
        let row = row_at(b, at);
        if sum_of(file, row.start, row.len) != row.sum {
            return Err(Refusal::Sum { entry: k as u64 });
        }
        at += Row::ENTRY + row.namelen as usize;
    }
    Ok(())
}

// The same of all entries of b.
fn sums_in(file: &[u8], b: &[u8]) -> Result<(), Refusal>
    requires { Table b.now × (length b.now ≤ kind.most_bytes) × RowsWithin (length file.now) (rows_of b.now) }
    ensures { result ≡ sums_from file.now (rows_of b.now) 0 }
{
    sums_from(file, b, le::<2>(b, 0) as usize)
}

// The same of a file whose frame is good.
pub fn sums_check(file: &[u8]) -> Result<(), Refusal>
    requires { Frames file.now }
    ensures { result ≡ sums_from file.now (rows_of (body_of file.now)) 0 }
{
    sums_in(file, body_of(file))
}

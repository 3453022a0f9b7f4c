// The section list: a caller's table of section rows is filled, in table order.
#![tactic(auto)]

ghost use Rattle.std.specs.Prelude.{◌≡◌, length};
ghost use Rattle.frame.specs.Frame.{entry_count, body_of};
ghost use Rattle.frame.specs.Open.Laws.{Frames};
ghost use Rattle.listing.specs.List.{listed_of, rows_written, row_is, listed};

use codes::little::le;
use frame::Row;
use frame::ends::body_of;
use reader::open::open;
use reader::rows::section_at;
use refusal::Refusal;

// How many entries the table of a file with a good frame has.
fn count_of(file: &[u8]) -> usize
    requires { Frames file.now }
    ensures { result ≡ entry_count (body_of file.now) }
{
    le::<2>(body_of(file), 0) as usize
}

// How many rows are written into a table of so many, or the first refusal.
pub fn plan_for(file: &[u8], room: usize) -> Result<u64, Refusal>
    ensures { result ≡ listed_of file.now room }
{
    open(file)?;
    let count = count_of(file);
    if room < count {
        return Err(Refusal::Room {
            needed: count as u64,
        });
    }
    Ok(count as u64)
}

// Row i of a file: its name's place counts from the file's first byte. Zeros where there is no such entry.
pub fn row_of(file: &[u8], i: usize) -> Row
    ensures { result ≡ row_is file.now i }
{
    section_at(file, i).unwrap_or(Row::raw(0, 0, 0, 0))
}

// Fills the caller's table with a file's section rows, in table order. A refusal leaves all of it, and rows past the count
// stay.
pub fn list_sections(file: &[u8], rows: &mut [Row]) -> Result<u64, Refusal>
    ensures { (result ≡ listed_of file.now (length rows.old)) × (rows.new ≡ listed file.now (rows_written (listed_of file.now (length rows.old))) rows.old) }
{
    let count = plan_for(file, rows.len())?;
    for i in 0..count as usize {
        rows[i] = row_of(file, i);
    }
    Ok(count)
}

// The same for a table by value, which comes back: callers of this need no proof of their own over a lent table.
pub fn table_of(file: &[u8], t: [Row; 64]) -> [Row; 64]
    ensures { result ≡ listed file.now (rows_written (listed_of file.now (length t))) t }
{
    let mut s = t;
    let _ = list_sections(file, &mut s);
    s
}

// The section table of a file, entry by entry.
ghost use Rattle.std.specs.Prelude.{◌≡◌, ◌+◌, ◌≤◌, length};
ghost use Rattle.frame.specs.Kind as kind;
ghost use Rattle.reader.specs.Rows.{moved, row_in, row_of};

use codes::little::{byte, le};
use frame::Row;
use frame::bounds::Bounds;
use frame::ends::{Footer, Header, Trailer, body_of, foot_at, foot_len};
use open_table::row_at;

// The entry with its name's place counted from the file's first byte; `at` is where the footer body begins.
fn placed(at: u64, r: Row) -> Row
    requires { (at ≤ kind.most_bytes) × (r.nameat ≤ kind.most_bytes) }
    ensures { result ≡ moved at r }
{
    Row {
        nameat: at + r.nameat,
        ..r
    }
}

// Entry i of a footer body b that begins at `at`.
fn row_in(at: u64, b: &[u8], i: usize) -> Option<Row>
    requires { (at ≤ kind.most_bytes) × (2 ≤ length b.now) × (length b.now ≤ kind.most_bytes) }
    ensures { result ≡ row_in at b.now i }
{
    let count = le::<2>(b, 0) as usize;
    if count <= i {
        return None;
    }
    let mut p: usize = 2;
    for _k in 0..i {
        if b.len() < p + Row::ENTRY {
            return None;
        }
        p += Row::ENTRY + byte(b, p + 3) as usize;
    }
    if b.len() < p + Row::ENTRY {
        return None;
    }
    let name = byte(b, p + 3) as usize;
    if b.len() < p + Row::ENTRY + name + Footer::COUNTS {
        return None;
    }
    Some(placed(at, row_at(b, p)))
}

// Entry i of a file's section table, for any bytes: missing where the footer holds no such entry.
#[tactic(auto, unfolding(crate::specs::Rows::row_of))]
pub fn section_at(file: &[u8], i: usize) -> Option<Row>
    ensures { result ≡ row_of file.now i }
{
    let size = file.len();
    if size < Header::SIZE + Trailer::SIZE || Bounds::BYTES < size as u64 {
        return None;
    }
    let foot = foot_len(file);
    if foot < Footer::LEAST || size - Header::SIZE < foot {
        return None;
    }
    row_in(foot_at(file) as u64, body_of(file), i)
}

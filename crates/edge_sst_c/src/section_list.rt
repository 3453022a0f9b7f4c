// The section list for C: each row is seven numbers.
ghost use Rattle.std.specs.Prelude.{◌≡◌, ◌+◌, ◌*◌, ◌/◌, ◌≤◌, length};
ghost use Rattle.std.proofs.lemmas.List.Edits.{sets};
ghost use Rattle.listing.specs.List.{rows_written, listed_of};
ghost use Rattle.edge_sst_c.specs.SectionList.{listed_told, numbers_of, numbered};

use frame::Row;
use listing::{plan_for, row_of};
use refusal::{Refusal, told_of};

// A refusal's number and places, or zeros and how many rows were written; 0 where it is refused.
#[repr(C)]
#[derive(Drop)]
pub struct EdgeSstListed {
    pub number: u64,
    pub place: u64,
    pub beside: u64,
    pub rows: u64,
}

fn listed_told(l: Result<u64, Refusal>) -> EdgeSstListed
    ensures { result ≡ listed_told l }
{
    match l {
        Ok(rows) => EdgeSstListed {
            number: 0,
            place: 0,
            beside: 0,
            rows,
        },
        Err(refusal) => {
            let t = told_of(refusal);
            EdgeSstListed {
                number: t.number as u64,
                place: t.place,
                beside: t.beside,
                rows: 0,
            }
        }
    }
}

// Stores a row's numbers from `at` on.
fn tell_row(out: &mut [u64], at: usize, r: Row)
    requires { at + 7 ≤ length out.old }
    ensures { out.new ≡ sets out.old at (numbers_of r) }
{
    out[at] = r.kind as u64;
    out[at + 1] = r.codec as u64;
    out[at + 2] = r.nameat;
    out[at + 3] = r.namelen as u64;
    out[at + 4] = r.start;
    out[at + 5] = r.len;
    out[at + 6] = r.sum;
}

// Stores the numbers of the first n rows of a file.
fn tell_rows(file: &[u8], out: &mut [u64], n: usize)
    requires { 7 * n ≤ length out.old }
    ensures { out.new ≡ numbered file.now n out.old }
{
    for i in 0..n {
        tell_row(out, 7 * i, row_of(file, i));
    }
}

// Lists a file's sections, seven numbers for each.
#[unsafe(no_mangle)]
pub extern "C" fn edge_sst_sections(file: &[u8], numbers: &mut [u64]) -> EdgeSstListed
    ensures { (result ≡ listed_told (listed_of file.now (length numbers.old / 7))) × (numbers.new ≡ numbered file.now (rows_written (listed_of file.now (length numbers.old / 7))) numbers.old) }
{
    let answer = plan_for(file, numbers.len() / 7);
    tell_rows(file, numbers, answer.unwrap_or(0) as usize);
    listed_told(answer)
}

// The release desk's calls for C: the full check and the read-out.
ghost use Rattle.std.specs.Prelude.{◌≡◌, length};
ghost use Rattle.full_check.specs.Full.{full_check};
ghost use Rattle.readout.specs.ReadOut.{read_out_of, read_out_leaves};
ghost use Rattle.edge_sst_c.specs.Desk.{check_told, done_told};

use full_check::check;
use readout::read_out;
use refusal::{Refusal, told_of};

// A refusal's number and places, zeros where there is none.
#[repr(C)]
#[derive(Drop)]
pub struct EdgeSstTold {
    pub number: u64,
    pub place: u64,
    pub beside: u64,
}

// The same, and how many bytes were written; 0 where it is refused.
#[repr(C)]
#[derive(Drop)]
pub struct EdgeSstDone {
    pub number: u64,
    pub place: u64,
    pub beside: u64,
    pub bytes: u64,
}

// What a rule says.
pub fn check_told(c: Result<(), Refusal>) -> EdgeSstTold
    ensures { result ≡ check_told c }
{
    match c {
        Ok(()) => EdgeSstTold {
            number: 0,
            place: 0,
            beside: 0,
        },
        Err(refusal) => {
            let t = told_of(refusal);
            EdgeSstTold {
                number: t.number as u64,
                place: t.place,
                beside: t.beside,
            }
        }
    }
}

// Checks a file in full.
#[unsafe(no_mangle)]
pub extern "C" fn edge_sst_check(file: &[u8]) -> EdgeSstTold
    ensures { result ≡ check_told (full_check file.now) }
{
    check_told(check(file))
}

// How many bytes were written, or would be.
pub fn done_told(d: Result<u64, Refusal>) -> EdgeSstDone
    ensures { result ≡ done_told d }
{
    match d {
        Ok(bytes) => EdgeSstDone {
            number: 0,
            place: 0,
            beside: 0,
            bytes,
        },
        Err(refusal) => {
            let t = told_of(refusal);
            EdgeSstDone {
                number: t.number as u64,
                place: t.place,
                beside: t.beside,
                bytes: 0,
            }
        }
    }
}

// Reads a file out as a batch.
#[unsafe(no_mangle)]
pub extern "C" fn edge_sst_read_out(file: &[u8], out: &mut [u8]) -> EdgeSstDone
    ensures { (result ≡ done_told (read_out_of file.now (length out.old))) × (out.new ≡ read_out_leaves file.now out.old) }
{
    done_told(read_out(file, out))
}

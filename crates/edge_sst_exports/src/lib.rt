// The archive for include/edge_sst.h: each export calls the function of crates/edge_sst_c of its name, under the same clauses.
#![tactic(auto)]

ghost use Rattle.std.specs.Prelude.{◌≡◌, ◌/◌, true, false, length};
ghost use Rattle.codes.specs.Ids.{id_at};
ghost use Rattle.xxh3_spec.specs.Xxh3.{xxh3};
ghost use Rattle.xxh3_running.specs.Running.{state_of, new_state, feed_of, Leaves, sum_of};
ghost use Rattle.frame.specs.Open.{open_of};
ghost use Rattle.lookup.specs.Lookup.{look_of, look_with};
ghost use Rattle.lookup.specs.Calls.{alone};
ghost use Rattle.reader.specs.Header.{header_of};
ghost use Rattle.full_check.specs.Full.{full_check};
ghost use Rattle.listing.specs.List.{rows_written, listed_of};
ghost use Rattle.readout.specs.ReadOut.{read_out_of, read_out_leaves};
ghost use Rattle.summary.specs.Summary.{summarised_of};
ghost use Rattle.write_file.specs.Written.{needed_of};
ghost use Rattle.edge_sst_c.specs.Told.{opened_told};
ghost use Rattle.edge_sst_c.specs.Header.{header_told};
ghost use Rattle.edge_sst_c.specs.SectionList.{listed_told, numbered};
ghost use Rattle.edge_sst_c.specs.Look.{record_lent, PartnersTold, EdgesToldBy};
ghost use Rattle.edge_sst_c.specs.Desk.{check_told, done_told};
ghost use Rattle.edge_sst_c.specs.Summary.{summary_told};
ghost use Rattle.edge_sst_c.specs.Write.{WroteTold};

use edge_sst_c::EdgeSstOpened;
use edge_sst_c::desk::{EdgeSstDone, EdgeSstTold};
use edge_sst_c::figures::EdgeSstSummary;
use edge_sst_c::header::EdgeSstHeader;
use edge_sst_c::look::EdgeSstLooked;
use edge_sst_c::section_list::EdgeSstListed;
use xxh3_running::State;

// Opens a file.
#[unsafe(no_mangle)]
pub extern "C" fn edge_sst_open(file: &[u8]) -> EdgeSstOpened
    ensures { result ≡ opened_told (open_of file.now) }
{
    edge_sst_c::edge_sst_open(file)
}

// The header of a file.
#[unsafe(no_mangle)]
pub extern "C" fn edge_sst_header(file: &[u8]) -> EdgeSstHeader
    ensures { result ≡ header_told (header_of file.now) }
{
    edge_sst_c::header::edge_sst_header(file)
}

// Lists a file's sections, seven numbers for each.
#[unsafe(no_mangle)]
pub extern "C" fn edge_sst_sections(file: &[u8], numbers: &mut [u64]) -> EdgeSstListed
    ensures { (result ≡ listed_told (listed_of file.now (length numbers.old / 7))) × (numbers.new ≡ numbered file.now (rows_written (listed_of file.now (length numbers.old / 7))) numbers.old) }
{
    edge_sst_c::section_list::edge_sst_sections(file, numbers)
}

// The partners of a key, by an opened record: 16 bytes each over the start of `out`.
#[unsafe(no_mangle)]
pub extern "C" fn edge_sst_partners_with(
    file: &[u8],
    o: &[u64; 20],
    key: &[u8; 16],
    out: &mut [u8],
) -> EdgeSstLooked
    ensures { PartnersTold (look_with false (alone (length out.old)) (id_at key.now 0) file.now (record_lent o.now)) result out.old out.new }
{
    edge_sst_c::look::edge_sst_partners_with(file, o, key, out)
}

// The same of a file.
#[unsafe(no_mangle)]
pub extern "C" fn edge_sst_partners(file: &[u8], key: &[u8; 16], out: &mut [u8]) -> EdgeSstLooked
    ensures { PartnersTold (look_of false (alone (length out.old)) (id_at key.now 0) file.now) result out.old out.new }
{
    edge_sst_c::look::edge_sst_partners(file, key, out)
}

// The partners of a key with their log numbers and dead marks, by an opened record.
#[unsafe(no_mangle)]
pub extern "C" fn edge_sst_lookup_with(
    file: &[u8],
    o: &[u64; 20],
    key: &[u8; 16],
    out: &mut [u8],
    logs: &mut [u64],
    marks: &mut [u8],
) -> EdgeSstLooked
    ensures { EdgesToldBy (λ rooms. look_with true rooms (id_at key.now 0) file.now (record_lent o.now)) result out.old out.new logs.old logs.new marks.old marks.new }
{
    edge_sst_c::look::edge_sst_lookup_with(file, o, key, out, logs, marks)
}

// The same of a file.
#[unsafe(no_mangle)]
pub extern "C" fn edge_sst_lookup(
    file: &[u8],
    key: &[u8; 16],
    out: &mut [u8],
    logs: &mut [u64],
    marks: &mut [u8],
) -> EdgeSstLooked
    ensures { EdgesToldBy (λ rooms. look_of true rooms (id_at key.now 0) file.now) result out.old out.new logs.old logs.new marks.old marks.new }
{
    edge_sst_c::look::edge_sst_lookup(file, key, out, logs, marks)
}

// Checks a file in full.
#[unsafe(no_mangle)]
pub extern "C" fn edge_sst_check(file: &[u8]) -> EdgeSstTold
    ensures { result ≡ check_told (full_check file.now) }
{
    edge_sst_c::desk::edge_sst_check(file)
}

// Reads a file out as a batch.
#[unsafe(no_mangle)]
pub extern "C" fn edge_sst_read_out(file: &[u8], out: &mut [u8]) -> EdgeSstDone
    ensures { (result ≡ done_told (read_out_of file.now (length out.old))) × (out.new ≡ read_out_leaves file.now out.old) }
{
    edge_sst_c::desk::edge_sst_read_out(file, out)
}

// Sums a file's edges up, once the full check has passed.
#[unsafe(no_mangle)]
pub extern "C" fn edge_sst_summary(file: &[u8]) -> EdgeSstSummary
    ensures { result ≡ summary_told (summarised_of file.now) }
{
    edge_sst_c::figures::edge_sst_summary(file)
}

// How many bytes the file of a batch takes.
#[unsafe(no_mangle)]
pub extern "C" fn edge_sst_needed(batch: &[u8]) -> EdgeSstDone
    ensures { result ≡ done_told (needed_of batch.now) }
{
    edge_sst_c::write::edge_sst_needed(batch)
}

// Writes the file of a batch over the start of `out`.
#[unsafe(no_mangle)]
pub extern "C" fn edge_sst_write(batch: &[u8], out: &mut [u8]) -> EdgeSstDone
    ensures { WroteTold batch.now out.old result out.new }
{
    edge_sst_c::write::edge_sst_write(batch, out)
}

// The XXH3-64 of any bytes.
#[unsafe(no_mangle)]
pub extern "C" fn edge_sst_sum(bytes: &[u8]) -> u64
    ensures { result ≡ xxh3 bytes.now }
{
    edge_sst_c::write::edge_sst_sum(bytes)
}

// The state of a running sum before any chunk.
#[unsafe(no_mangle)]
pub extern "C" fn edge_sst_running_new() -> State
    ensures { result ≡ new_state }
{
    edge_sst_c::running::edge_sst_running_new()
}

// A chunk more, or 27 and all parts of the state stay.
#[unsafe(no_mangle)]
pub extern "C" fn edge_sst_running_feed(
    total: &mut u64,
    lanes: &mut [u64; 8],
    buffer: &mut [u8; 256],
    chunk: &[u8],
) -> EdgeSstTold
    ensures { (result ≡ check_told (feed_of (state_of total.old lanes.old buffer.old) chunk.now).told)
        × Leaves (feed_of (state_of total.old lanes.old buffer.old) chunk.now) total.new lanes.new buffer.new }
{
    edge_sst_c::running::edge_sst_running_feed(total, lanes, buffer, chunk)
}

// The sum of all bytes that were fed.
#[unsafe(no_mangle)]
pub extern "C" fn edge_sst_running_asked(total: u64, lanes: &[u64; 8], buffer: &[u8; 256]) -> u64
    ensures { result ≡ sum_of (state_of total lanes.now buffer.now) }
{
    edge_sst_c::running::edge_sst_running_asked(total, lanes, buffer)
}

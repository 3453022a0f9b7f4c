// The writer's calls for C, and the sum.
ghost use Rattle.std.specs.Prelude.{◌≡◌, length};
ghost use Rattle.xxh3_spec.specs.Xxh3.{xxh3};
ghost use Rattle.write_file.specs.Written.{needed_of};
ghost use Rattle.edge_sst_c.specs.Desk.{done_told};
ghost use Rattle.edge_sst_c.specs.Write.{WroteTold};

use super::desk::{EdgeSstDone, done_told};
use write_file::{needed, write};
use xxh3_whole::xxh3;

// How many bytes the file of a batch takes.
#[unsafe(no_mangle)]
pub extern "C" fn edge_sst_needed(batch: &[u8]) -> EdgeSstDone
    ensures { result ≡ done_told (needed_of batch.now) }
{
    done_told(needed(batch))
}

// Writes the file of a batch over the start of `out`.
#[unsafe(no_mangle)]
pub extern "C" fn edge_sst_write(batch: &[u8], out: &mut [u8]) -> EdgeSstDone
    ensures { WroteTold batch.now out.old result out.new }
{
    done_told(write(batch, out))
}

// The XXH3-64 of any bytes.
#[unsafe(no_mangle)]
pub extern "C" fn edge_sst_sum(bytes: &[u8]) -> u64
    ensures { result ≡ xxh3 bytes.now }
{
    xxh3(bytes)
}

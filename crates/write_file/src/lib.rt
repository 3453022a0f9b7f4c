// The writer: a batch in, a file out. It asks no memory: the batch is read and the output is lent.
#![tactic(auto)]

ghost use Rattle.std.specs.Prelude.{◌≡◌, Ok};
ghost use Rattle.write_file.specs.Written.{needed_of, Wrote};
ghost use Rattle.write_file.specs.Fine.{Planned};

use batch::Edge;
use batch_faults::check_batch;
use file::put_file;
use refusal::Refusal;
use write_plan::{Plan, measure};

pub mod file;

// What is counted of a batch without fault, where it is within the bounds.
fn plan_of(batch: &[u8]) -> Result<Plan, Refusal>
    ensures { Planned batch.now result }
{
    let tally = check_batch(batch)?;
    let n = (batch.len() - Edge::HEAD) / Edge::RECORD;
    measure(batch, n, tally.keys, tally.dead).ok_or(Refusal::Bounds)
}

// How many bytes the file of a batch takes.
pub fn needed(batch: &[u8]) -> Result<u64, Refusal>
    ensures { result ≡ needed_of batch.now }
{
    let plan = plan_of(batch)?;
    Ok(plan.bytes as u64)
}

// Writes the file of a batch over the start of out. A refusal writes nothing.
pub fn write(batch: &[u8], out: &mut [u8]) -> Result<u64, Refusal>
    ensures { Wrote batch.now out.old result out.new }
{
    let plan = plan_of(batch)?;
    write_plan(batch, plan, out)
}

// The same, once the batch is counted.
fn write_plan(batch: &[u8], plan: Plan, out: &mut [u8]) -> Result<u64, Refusal>
    requires { Planned batch.now (Ok plan) }
    ensures { Wrote batch.now out.old result out.new }
{
    let bytes = plan.bytes as u64;
    if out.len() < plan.bytes {
        return Err(Refusal::Room { needed: bytes });
    }
    put_file(batch, batch[1], &batch[2..Edge::HEAD], plan, out);
    Ok(bytes)
}

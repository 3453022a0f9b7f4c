// A program's standard input, output and error. The programs here end with status 0 in any case: what failed they say on standard error.
#![tactic(auto)]

ghost use Rattle.std.specs.Prelude.{◌≤◌, length, MatchResult};

use std::io::{Error, Read};

// The most bytes that a program here takes from standard input; with room for one more it sees that there are more.
pub const LONGEST: usize = 65536;

// A read that failed: how many bytes stand at the front of the space, and why there are no more.
#[derive(Debug, Drop)]
pub struct CutShort {
    pub bytes: usize,
    pub why: Error,
}

// Standard output and standard error, as the system numbers them.
pub const OUTPUT: i32 = 1;

const ERRORS: i32 = 2;

// Reads an input until it ends or the space is full: how many bytes stand at the front of the space. A read that fails ends it,
// and says how many stand there.
pub fn read_input<R: Read>(input: &mut R, space: &mut [u8]) -> Result<usize, CutShort>
    ensures { MatchResult result (λ n. n ≤ length space.new) (λ cut. cut.bytes ≤ length space.new) }
{
    let mut at = 0;
    // Stays a loop by hand: it goes on by as much as a read gives.
    while at < space.len() {
        let more = input
            .read(&mut space[at..])
            .map_err(|why| CutShort { bytes: at, why })?;
        if more == 0 {
            return Ok(at);
        }
        at += more;
    }
    Ok(at)
}

// Writes all of it to standard output; false where a write fails.
pub fn wrote(bytes: &[u8]) -> bool {
    io::write_all(OUTPUT, bytes)
}

// Says a line on standard error.
pub fn say(line: &[u8]) {
    io::write_all(ERRORS, line);
}

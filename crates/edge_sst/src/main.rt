// Prints a file of at most 65,536 bytes from standard input; for more it prints `too long`.
#![tactic(auto)]

use printing::{BATCH, print_file};
use streams::{LONGEST, read_input, say, wrote};

// Prints the input; false where a write failed.
fn printed(file: &[u8]) -> bool {
    if LONGEST < file.len() {
        return wrote(b"too long\n");
    }
    let mut room = [0u8; BATCH];
    let mut out = io::large_buffer();
    print_file(file, &mut room, &mut out)
}

fn main(rt: HostRuntime) {
    let mut space = [0u8; 65537];
    let Ok(n) = read_input(&mut rt.stdin(), &mut space) else {
        say(b"cannot read\n");
        return;
    };
    if !printed(&space[..n]) {
        say(b"cannot write\n");
    }
}

// Prints the XXH3-64 of at most 65,536 bytes of standard input as 16 hex digits; for more it prints `too long`.
#![tactic(auto)]

use streams::{LONGEST, read_input, say, wrote};

// Prints the sum; false where a write failed.
fn printed(bytes: &[u8]) -> bool {
    if LONGEST < bytes.len() {
        return wrote(b"too long\n");
    }
    if !io::print_hex(streams::OUTPUT, xxh3_whole::xxh3(bytes), 16) {
        return false;
    }
    wrote(b"\n")
}

fn main(rt: HostRuntime) {
    let mut space = [0u8; 65537];
    let Ok(n) = read_input(&mut rt.stdin(), &mut space) else {
        say(b"cannot read\n");
        return;
    };
    if !printed(&space[..n]) {
        say(b"cannot write\n");
    }
}

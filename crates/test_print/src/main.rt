// Prints every file of a corpus as the program `edge_sst` does. Corpus and expected lines are made by second/.
#![tactic(auto)]

ghost use Rattle.std.specs.Prelude.{◌≤◌, length};
ghost use Rattle.printing.specs.Printed.{line_room, longest, batch_room};

use printing::{BATCH, print_file};
use test_corpus::{MOST, line, next_entry, word};

// What is printed of a file, after its name.
fn print_named(name: &[u8], file: &[u8], room: &mut [u8], out: &mut [u8])
    requires { (length file.now ≤ longest) × (batch_room ≤ length room.old) × (line_room ≤ length out.old) }
{
    line(b"== ", name);
    word(b"\n");
    print_file(file, room, out);
}

// Every file of the corpus.
fn corpus(name: &mut [u8], space: &mut [u8], room: &mut [u8], out: &mut [u8])
    requires { (length space.old ≤ longest) × (batch_room ≤ length room.old) × (line_room ≤ length out.old) }
{
    // Stays a loop, and no call of `each_entry`: what a file may be long is required of what prints it.
    for _ in 0..MOST {
        match next_entry(name, space) {
            Some(e) => print_named(&name[..e.name], &space[..e.size], room, out),
            None => return,
        }
    }
}

fn main() {
    let mut name = [0u8; 256];
    let mut space = [0u8; 65536];
    let mut room = [0u8; BATCH];
    let mut out = io::large_buffer();
    corpus(&mut name, &mut space, &mut room, &mut out);
}

// Writes the few batches of a corpus that have more than 65,536 keys or edges or nearly so, and prints the answers.
#![tactic(auto)]

ghost use Rattle.std.specs.Prelude.{◌≡◌, length};

// Room for one of them, and for its file.
fn room() -> [u8; 3145728]
    ensures { 3145728 ≡ length result }
{
    [0; 3145728]
}

fn main() {
    let mut name = [0u8; 256];
    let mut space = room();
    let mut out = room();
    test_writing::corpus_large(&mut name, &mut space, &mut out);
}

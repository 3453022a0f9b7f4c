// Opens the few files of a corpus that have more than 65,536 keys or nearly so, and prints the verdict on each.
#![tactic(auto)]

ghost use Rattle.std.specs.Prelude.{◌≡◌, length};

// Room for one of them.
fn room() -> [u8; 4194304]
    ensures { 4194304 ≡ length result }
{
    [0; 4194304]
}

fn main() {
    let mut name = [0u8; 256];
    let mut space = room();
    test_opening::corpus(&mut name, &mut space);
}

// Writes every batch of a corpus and prints the answers. Corpus and expected lines are made by second/.
#![tactic(auto)]

fn main() {
    let mut name = [0u8; 256];
    let mut space = [0u8; 262144];
    let mut out = [0u8; 262144];
    let mut less = [0u8; 262144];
    test_writing::corpus(&mut name, &mut space, true, &mut out, &mut less);
}

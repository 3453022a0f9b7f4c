// Opens every file of a corpus and prints the verdict on each. Corpus and expected verdicts are made by second/.
#![tactic(auto)]

fn main() {
    let mut name = [0u8; 256];
    let mut space = io::large_buffer();
    test_opening::corpus(&mut name, &mut space);
}

// Looking up a key in what is known of a file: one part's partners now, even if another group of the file is bad.
#![tactic(auto)]

pub mod groups;
pub mod known;
pub mod partners;
pub mod whole;

// The answer of a lookup: the degree, the group's index among the keys and the keys compared; absence.
#[derive(Clone, Copy, Debug, PartialEq, Eq)]
pub enum Looked {
    Found {
        degree: u64,
        index: u64,
        compared: u64,
    },
    Absent {
        compared: u64,
    },
}

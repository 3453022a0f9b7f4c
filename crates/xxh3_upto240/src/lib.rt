// XXH3-64 of 0 to 240 bytes.
#![tactic(auto)]

pub mod medium;
pub mod small;

// XXH3-64 of more than 240 bytes.
#![tactic(auto)]

mod block;
pub mod large;

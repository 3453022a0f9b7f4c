// The two long parts of a file, written: its sections one after the other, and the footer body over them.
#![tactic(auto)]

pub mod footer;
pub mod payload;

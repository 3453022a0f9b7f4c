// The sections of a file, written from a batch: those with a part for each key, those with a part for each edge,
// the fences, and the start index.
#![tactic(auto)]

pub mod by_edge;
pub mod by_key;
pub mod fences;
pub mod starts;

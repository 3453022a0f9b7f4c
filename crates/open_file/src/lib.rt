// Rules 1 to 12, with 36, of a file, in their order: the frame, or the first refusal.
#![tactic(auto)]

pub mod ends;
pub mod frames;

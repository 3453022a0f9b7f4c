// The calls on a file: opening, its header, the sections by value, and lookups. No call has a `requires`: any bytes may be lent.
#![tactic(auto)]

pub mod header;
pub mod look;
pub mod open;
pub mod rows;

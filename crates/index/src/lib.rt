// The index of a file: its keys (rule 13) and the search among them, the offsets of their groups (rule 14), the fences (rule 15)
// and where the groups' log numbers begin (rule 37). Each call is lent the bytes of its sections; that the sections have the
// lengths that the counts give (rule 12) is asked of the caller.
#![tactic(auto)]

pub mod fences;
pub mod keys;
pub mod offsets;
mod rising;
pub mod starts;

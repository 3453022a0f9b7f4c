// The edges of a batch in their order, and the groups that they form: one group for each key.
// It has no code: see specs/.
#![tactic(auto)]

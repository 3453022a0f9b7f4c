// What every crate uses and no format knows of: `Determined`, `pick`, and the laws of lists laid over an output.
// It has no code: see specs/ and proofs/.
#![tactic(auto)]

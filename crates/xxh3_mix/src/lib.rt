// Sums, products, turns and mixes of 64 bits, and the words of the secret: what every length of XXH3 uses.
#![tactic(auto)]

pub mod mix;
pub mod product;
pub mod secret;

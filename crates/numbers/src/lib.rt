// Numbers in groups of seven bits.
#![tactic(auto)]

pub mod laws;
pub mod number;

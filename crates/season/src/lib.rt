// The calls of a depot as values, and one function that makes any of them.
#![tactic(auto)]

pub mod call;
pub mod play;

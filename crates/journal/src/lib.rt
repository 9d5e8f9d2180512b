// A store in lent bytes: accounts written one after another.
#![tactic(auto)]

mod entry;
pub mod journal;
pub mod laws;
mod skim;

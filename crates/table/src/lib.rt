// A store in lent memory.
#![tactic(auto)]

pub mod slot;
pub mod table;

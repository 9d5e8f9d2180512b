// One depot's books over any store: tills, drafts, slips and every call.
#![tactic(auto)]

pub mod depot;
pub mod draft;
pub mod kept;
pub mod laws;
pub mod slip;

// Three depots at one desk: lines in, answers out.
#![tactic(auto)]

pub mod desk;
pub mod place;
pub mod pocket;
pub mod which;

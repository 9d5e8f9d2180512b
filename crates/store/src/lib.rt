// What a store of accounts is, a store that is lent, a window over any store, and what the stores at the bottom share.
#![tactic(auto)]

pub mod bottom;
pub mod lent;
pub mod store;
pub mod window;

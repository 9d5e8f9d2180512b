// What travels between depots and what a journal keeps: account items, remarks and parcels.
#![tactic(auto)]

mod coded;
pub mod item;
pub mod laws;
pub mod parcel;
pub mod read;
pub mod write;

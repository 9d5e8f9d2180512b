// Stock accounts of eight depots: refusals, counts, figures, bookings and joins.
#![tactic(auto)]

pub mod account;
pub mod booking;
mod counts;
pub mod depot_number;
mod figures;
mod joins;
pub mod laws;
pub mod part;
pub mod refusal;
mod rules;
pub mod tally;

// A vote table: a carrier whose line is the numbers that a majority of the gateways has voted for.
#![tactic(auto)]

pub mod laws;
pub mod slot;
mod slots;
pub mod table;
mod vote;
pub mod voting;

// The script of events and the listing of their answers, as text.
#![tactic(auto)]

pub mod buffer;
pub mod command;
pub mod event;
pub mod fault;
pub mod line;
pub mod listing;
pub mod number;
pub mod row;

//! Rows built with a ticket, in memory that is handed over at each call.
#![tactic(auto)]

pub mod refusal;
pub mod ticket;
pub mod whole;

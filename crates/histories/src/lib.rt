//! Whole histories of calls, played on a table.
#![tactic(auto)]

pub mod call;
pub mod perform;
pub mod play;
pub mod reply;
pub mod standard;

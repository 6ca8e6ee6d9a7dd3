//! Sheets: a table's voices and rows as bytes, loaded and saved.
#![tactic(auto)]

pub mod laws;
pub mod load;
mod record;
pub mod refusal;
pub mod save;

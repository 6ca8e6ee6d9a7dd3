//! The table of voices and rows, with its calls: make, declare, post, solve, read, wipe. Each says what it does to the
//! table and its store as one call, and what then holds after whole histories of calls.
//!
//! Public are the table, what a search comes to (`outcome`), and why a call is refused (`refusal`); no public function
//! requires anything of its caller. The search itself is in the private module `engine`.
#![tactic(auto)]

mod engine;
pub mod outcome;
pub mod refusal;
mod table;

pub use crate::table::Table;

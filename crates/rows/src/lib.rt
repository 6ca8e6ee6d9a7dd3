//! Rows (constraints) and their bytes, what a kind and a bank of kinds have to do, and two banks
//! side by side.
#![tactic(auto)]

pub mod bank;
pub mod bytes;
pub mod kind;
pub mod limits;
pub mod member;
pub mod narrowing;
pub mod reading;
pub mod refusal;
pub mod row;
pub mod trace;
pub mod writer;

//! The search for a title's least lawful placing, as definitions: propagation, nodes, calls, whole histories of calls;
//! the function that propagates; and the theorems about all of it, each the contract of a function in `theorems`.
#![tactic(auto)]

pub mod propagation;
pub mod theorems;

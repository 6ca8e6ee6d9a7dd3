//! Keys of nodes, what a store of them is, and two stores: the shelf, which keeps keys in borrowed memory, and the
//! bare store, which keeps none.
#![tactic(auto)]

pub mod bare;
pub mod key;
pub mod shelf;
pub mod store;
mod words;

// The search, in memory that is reserved when it is made: its levels, the keys of its nodes, what a node is, and nodes
// opened one after the other.
pub(crate) mod keys;
pub(crate) mod level;
pub(crate) mod levels;
pub(crate) mod node;
pub(crate) mod state;
pub(crate) mod values;

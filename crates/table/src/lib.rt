// A table: a layer with labels, faces, levels and roots. Its capacity, its count, the tree of a row and its root, the scratch of a growth, and the refusals of calls.

#![tactic(auto)]

pub mod capacity;
pub mod layout;
pub mod level;
pub mod parts;
pub mod refusal;
pub mod scratch;
pub mod state;
pub mod tree;

// A tree of capacity 128 as one run of bytes.

#![tactic(auto)]

mod columns;
pub mod tree;

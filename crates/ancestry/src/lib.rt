// Ancestors of two rows of a stored tree, on any layer: the compressed step, and the stored answer from it.
// All of it only reads, and takes the same few steps on every layer. A function takes the parts that it reads, and no others.

#![tactic(auto)]

mod compressed;
pub mod row;
pub mod stored;

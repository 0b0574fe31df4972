// What rule 1 of inspection asks of a table beside its trees: lines and levels, and labels and faces.

#![tactic(auto)]

pub mod bounded;
pub mod lines;

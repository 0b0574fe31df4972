// A layer of numbered rows in lent parts: where a row's numbers stand, total reads and stores, and the check of a link. It knows no labels, levels or roots.

#![tactic(auto)]

pub mod check;
pub mod layout;
pub mod row;
pub mod write;

// What a growth decides before its first store: its refusals in their order, and the plan of the row that joins.

#![tactic(auto)]

pub mod leaf;
pub mod level;
pub mod root;
pub mod row;

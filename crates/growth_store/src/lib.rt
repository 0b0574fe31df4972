// The stores of a growth: those of a row that joins as planned, and those of a first node. Nothing is refused here.

#![tactic(auto)]

pub mod start;
pub mod store;

// A row that stands alone joins under a row: its seat is found, which only reads, then it is stored. No labels, levels or roots.

#![tactic(auto)]

pub mod attach;
mod chain;
mod check_walk;
mod copied;
pub mod lone;
mod rows;
pub mod seat;
pub mod store;

// A call of the log program on its tables, and what it prints: a letter and values.

#![tactic(auto)]

pub mod reply;
pub mod serve;

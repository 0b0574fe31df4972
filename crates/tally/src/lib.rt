// A tally of labels: how many nodes carry each, and which label most carry.

#![tactic(auto)]

pub mod count;
pub mod fit;
pub mod layout;
pub mod most;

// Numbers in a run of bytes: words of 16, 32 and 64 bits, low byte first, and levels in two's complement.

#![tactic(auto)]

pub mod sign;
pub mod word;

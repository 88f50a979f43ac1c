//! The machine with words that carry their kinds, which is stuck at an operand of a wrong kind. On a valid image it
//! never is, and does what the machine does.
#![tactic(auto)]

pub mod law;

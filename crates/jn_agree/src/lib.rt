//! What an image owes to its program, as definitions.
//!
//! Nothing here computes but the types of the selectors: `specs/` says what the numbers of an image stand for, when an
//! arena matches a heap, when a code goes with its body, and when an image agrees with a program.
#![tactic(auto)]

pub mod selectors;

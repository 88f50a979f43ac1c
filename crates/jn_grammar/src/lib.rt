//! The theory of reading: the whole grammar, from names to programs.
//!
//! `specs/` has a reader as plain functions on words, and a machine of what is still expected, one step a word.
//! `proofs/` shows that the reader reads exactly the grammar, and that the machine does what the reader does.
#![tactic(auto)]

pub mod fault;
pub mod laws;
pub mod shape;

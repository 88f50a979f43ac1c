//! Worked examples of what types, sharing and programs mean: small programs, and what the definitions say of them.
//!
//! Nothing here computes: `specs/` has the programs with their rows, and each empty function carries some of them.
#![tactic(auto)]

pub mod run_examples;
pub mod sharing_examples;
pub mod type_examples;

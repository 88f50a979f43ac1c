//! Runs as the repetition of a step, for the meaning of programs and for the machine alike.
//!
//! `specs/` has the definitions: a step that leads on or ends a run, at most n of them, the report of a run, and what one
//! frame does in a step. A step is a function, or a relation. Their laws are the contracts of the functions in `law`.
#![tactic(auto)]

pub mod law;

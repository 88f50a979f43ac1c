//! The laws of types, members and slots that soundness and the images need, each carried by an empty function.
//!
//! Nothing here computes: `specs/` says the laws, in the words of the crates below.
#![tactic(auto)]

pub mod bounds;
pub mod scopes;
pub mod sources;
pub mod stores;
pub mod universe;
pub mod views;
pub mod written;

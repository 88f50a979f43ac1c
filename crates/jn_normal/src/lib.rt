//! Normal forms of types, and substitution of paths, in a scope.
//!
//! Each atom of a type is rewritten bind by bind from the newest back (`rewriting`), and the atoms are then put in
//! order without doubles (`substitution`). Contracts cite the definitions of `jn_sem`: the result is the one type
//! that they pin down.
#![tactic(auto)]

mod compare;
mod conjunct;
mod rewriting;
pub mod rows;
mod substitution;

pub use conjunct::{Conjunct, further};
pub use substitution::{moved, normal, subst};

//! For each node of a graph what chains of edges reach from it. `jn_reach` has the definitions and other closures.
//!
//! The time, which is in no contract, is that of the answer and of the edges from its nodes, but for the logarithm of
//! a sort: a search costs nothing for a node that it doesn't reach.
#![tactic(auto)]

mod marks;
mod rows;

pub use rows::closure;

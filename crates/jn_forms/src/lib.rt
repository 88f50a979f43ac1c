//! The normal form of a type where variables are in scope.
//!
//! The variables have their types as they are: nothing is interned, and nothing is asked of them. A scope that fits has no
//! bound of more than 255 names; where a rewriting would take more levels off a path, it is refused for want of memory.
#![tactic(auto)]

mod normal;

pub use normal::normal_atoms;

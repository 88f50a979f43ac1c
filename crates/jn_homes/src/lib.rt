//! Where a path of a program stands in its text, and the declaration at a declared path.
#![tactic(auto)]

mod homes;

pub use homes::{decl_at, decl_near, home_near, home_of};

//! What a program is judged by outside its bodies: names that stand twice ([`check_names`]), and its class table, its
//! headers, its members, the limits of entries and slots, and its sharing constraints ([`check_headers`]).
//!
//! `bodies` has the head of each declared body, `least` finds that of a least body; `methods`, `members`, `constructors`
//! and `classes` judge the members of classes, `shared` makes groups and slots, `constraints` asks the constraints.
#![tactic(auto)]

mod alike;
mod bodies;
mod check;
mod classes;
mod constraints;
mod constructors;
mod headers;
mod judge;
mod least;
mod listed;
mod members;
mod methods;
mod places;
mod shared;
mod twice;
mod unknown;

pub use check::check_names;
pub use jn_heads::CheckFault;
pub use judge::{Headers, check_headers};

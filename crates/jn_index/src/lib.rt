//! Keys with their places, found by halves. A key is a list of numbers.
#![tactic(auto)]

mod index;

pub use index::{Placed, indexed, is_first, place_of};

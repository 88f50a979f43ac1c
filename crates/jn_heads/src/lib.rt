//! What the header of a method stands for: its parameters, its result and its sharing constraints.
//!
//! `header_of` gives the parameters of a method in scope and the number of its result's type, `pledge_of` the two
//! sides of a constraint; both answer the first refusal else. Types are in normal form, as numbers of a pool. The
//! judges of headers and of bodies stand on it, and so does [`CheckFault`], which both answer.
#![tactic(auto)]

mod fault;
mod params;
mod place;
mod sides;
mod written;

pub use fault::CheckFault;
pub use params::{Header, header_of, start};
pub use place::{Place, spot};
pub use sides::{Pledge, pledge_of, side_of};
pub use written::{is_formed, of_names, type_at};

//! Which images are valid: the first fault of one that is not, and images of which it is known.
//!
//! [`verify`] is the one call. It looks at the rows, then at the codes, each in one pass from its first instruction
//! on, and last at the start, and it gives back the image it was handed, as a [`Good`], exactly where the definition
//! finds nothing wrong. Each test of the definition is a function of the same name, whose answer is the definition's.
//!
//! For each instruction that has been led to, the kinds of its operands are kept until the pass over its code ends.
//! Lists of kinds share their tails, so an instruction costs at most one kind more.
#![tactic(auto)]

mod good;
mod numbers;
mod own;
mod pass;
mod rows;
mod tails;
mod takes;

pub use good::{Good, verify};

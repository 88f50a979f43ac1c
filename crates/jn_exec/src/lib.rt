//! What the bytes of a file are as an image: the machine that is to run it, or the line that tells what is wrong with them.
#![tactic(auto)]

mod loading;
mod words;

pub use loading::{law, load};
pub use words::fault_line;

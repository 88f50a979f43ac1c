//! The file of an image: its bytes, and the image of bytes.
#![tactic(auto)]

mod bytes;
mod counted;
mod entries;
mod fields;
mod instrs;
mod lists;
mod puts;
mod reading;
mod stop;
mod writing;

pub use reading::read_image;
pub use writing::write_image;

//! The whole image of a program: rows, selectors, groups, texts and codes, joined.
#![tactic(auto)]

pub mod codes;
pub mod groups;
mod law;
pub mod lists;
mod start;
pub mod whole;

pub use law::{
    entries_are_few, joined_are_images, joined_stand, lowered_have_shapes, selectors_are_few,
    verdict_grants_rows,
};
pub use start::start_code;
pub use whole::image;

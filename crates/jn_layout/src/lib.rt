//! The rows of an image: for each class its members, the codes that it runs, the slots that it reads, and its
//! counterparts. [`selectors`] gives what the rows name methods and fields by, and [`rows_are_faultless`] is the law that
//! no row of an image with them has a fault.
#![tactic(auto)]

mod declared;
mod finder;
mod keys;
mod kin;
mod law;
mod lookups;
mod pairs;
mod parts;
mod rows;
mod selecting;

pub use law::rows_are_faultless;
pub use rows::{class_rows, group_firsts};
pub use selecting::selectors;

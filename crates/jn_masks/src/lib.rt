//! Sets of masks: finite sets of the numbers from 0 to 255. No call takes memory.
#![tactic(auto)]

mod sets;

pub use sets::{add, drop, has, join, within};

//! The meaning of a program, run plainly.
//!
//! A run is a list of frames over a heap of objects, as the definition has it: each charge is one act of the frame at work. What
//! a body has still to do is a stack of its parts, which are taken apart as they come to the top (`work`, `open`).
#![tactic(auto)]

mod act;
mod binding;
mod bounds;
mod calling;
mod charging;
mod classes;
mod creating;
mod did;
mod dispatch;
mod doing;
mod entering;
mod fault;
mod finding;
mod frame;
mod getting;
mod heap;
mod leaving;
mod locals;
mod normal;
mod numbers;
mod open;
mod operators;
mod parameters;
mod path_behind;
mod pile;
mod plain;
mod running;
mod seen;
mod settling;
mod starting;
mod terms;
mod typing;
mod value;
mod viewing;
mod work;
mod world;

pub use fault::MeanFault;
pub use running::run_with;
pub use world::World;

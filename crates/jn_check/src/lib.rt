//! Statements, whole bodies, and the verdict of a program.
//!
//! `check_body` gives what a body refuses first, or the marks by which it is known. `check` gives the verdict of a
//! program, with what it is known by where it passes: `check_bodies` goes over its bodies, and `has_main` tells whether
//! it has a `main` to begin with.
#![tactic(auto)]

mod assign;
mod blocks;
mod body;
mod dropping;
mod exprs;
mod leaving;
mod locals;
mod main_class;
mod masks;
mod sets;
mod simple;
mod state;
mod stops;
mod types;
mod verdict;
mod walk;
mod world;

pub use assign::check_assign;
pub use blocks::check_stmts;
pub use body::check_body;
pub use exprs::{check_below, type_alone};
pub use locals::check_local;
pub use masks::{joined, with_masks};
pub use sets::check_set;
pub use simple::{check_call, check_condition, check_print, check_return};
pub use state::Locals;
pub use stops::all_stop;
pub use types::local_type;
pub use verdict::check;
pub use world::World;

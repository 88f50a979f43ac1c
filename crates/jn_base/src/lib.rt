//! The syntax tree of Jand, its paths, and the refusals of the verdict.
//!
//! The tree is plain data: a list is an `Items` and a box a `Boxed`, which contracts see as the list
//! of its elements and as its value, so that a contract compares trees by what they hold.
//!
//! The class table is here as definitions alone: where declarations stand, supers, members, the
//! universe, the class order, and what is refused of them. In definitions a path is a list of names
//! with the innermost name first, in code with the outermost first. `laws` carries what is proved of
//! the definitions, `examples` small programs worked out by them.
#![tactic(auto)]

pub mod compare;
pub mod examples;
pub mod forms;
pub mod laws;
pub mod names;
pub mod path;
pub mod refusal;
pub mod token;
pub mod tree;
pub mod types;
pub mod word;

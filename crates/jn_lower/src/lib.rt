//! From bodies to codes.
//!
//! A code is emitted from its first instruction to its last. What was emitted stays, but for the jumps that are patched
//! once their target is known.
#![tactic(auto)]

pub mod bounds;
pub mod calls;
pub mod classes;
pub mod cursor;
pub mod emitter;
pub mod ending;
pub mod formed;
pub mod kinds;
pub mod known;
pub mod law;
pub mod leaves;
pub mod locals;
pub mod members;
pub mod param_vars;
pub mod params;
pub mod path_behind;
pub mod selecting;
pub mod straight;
pub mod walk;
pub mod walk_body;
pub mod walk_exprs;
pub mod walk_locals;
pub mod walk_members;
pub mod walk_new;
pub mod walk_stmts;
pub mod walk_super;

pub use emitter::Emitter;
pub use walk_body::lower;

//! Whether a sharing constraint holds: [`holds`] says so, or shows the first class, in class order, that refutes it,
//! and where that has a counterpart in the target's family that is in the target, the first field, by name, that
//! doesn't pass.
//!
//! `specs/Held` says what an answer means; `Holds` is a definition of `jn_sem`. No call takes memory.
#![tactic(auto)]

mod held;
mod passing;
mod target;

pub use held::{Held, holds};
pub use passing::is_masked;

//! Types by numbers: a pool that shows the term of each number, and scopes that bind paths to numbers.
//!
//! A pool is a plain list of terms. A call that adds a term leaves each older number its term, also after a refusal,
//! so that numbers that a caller holds keep their meaning. Contracts see a pool as the list of its terms, and a scope
//! of numbers as the list of binds of `jn_base` (`specs/Pools`).
#![tactic(auto)]

mod compare;
mod places;
mod pool;
mod scope;
mod terms;

pub use compare::is_type;
pub use places::{bind_of, place_of};
pub use pool::{Pool, TyId};
pub use scope::{Bind, Scope};
pub use terms::copied_type;

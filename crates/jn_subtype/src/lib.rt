//! Which types are below which, in a scope: whether a value of one may stand where the other is due.
//!
//! Two class types are compared atom by atom: each atom of the upper one has to be the end of a chain of widening
//! steps from an atom of the lower one, and the masks of the lower one have to be within the upper one's. Steps 1 and
//! 2 loosen exact names and anchors (`climbs`), step 4 puts a super in place of the bound (`spreads`), and step 3 an
//! atom of a path's type in place of the path (`enters`). A chain ends without a step 3 (`ends`), or goes on from a
//! turn: steps 1 and 2, one step 4 or none, and one step 3 (`turns`), which leads to an older path. So the search
//! (`below`) ends. Contracts cite the definitions of `jn_sem`.
#![tactic(auto)]

mod below;
mod bounds;
mod climbs;
mod ends;
mod enters;
mod judge;
mod spreads;
mod turns;

pub use bounds::{atom_bound, path_bound, scope_bound};
pub use judge::{Judge, judges_stay};

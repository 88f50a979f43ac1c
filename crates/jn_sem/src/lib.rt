//! What types, sharing and programs mean, as definitions, and their laws.
//!
//! Nothing here computes: `specs/` has the definitions, and `laws` carries what is proved of them.
#![tactic(auto)]

pub mod acts;
pub mod finding;
pub mod heaps;
pub mod laws;
pub mod outcome;
pub mod runs;
pub mod sharing;

//! Two machines in lockstep, of which the first is a relation and is charged, and the second is a function.
//!
//! `specs/Together` has the definitions. The law of `law` says that the runs of two machines that go on together
//! agree.
#![tactic(auto)]

pub mod law;

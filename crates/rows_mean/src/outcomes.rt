//! How outcomes are written in the cases.

use crate::running::Ended;
use jn_sem::outcome::{Outcome, Why};
use std::alloc::{AllocError, Global};

/// The word of an outcome, with the cause where it is Stuck.
pub fn outcome_text(alloc: Global, came: Ended) -> Result<String, AllocError> {
    match came {
        Ended::Ran(Outcome::Ends) => String::from_str(alloc, "Ends"),
        Ended::Ran(Outcome::Null) => String::from_str(alloc, "Null"),
        Ended::Ran(Outcome::Zero) => String::from_str(alloc, "Zero"),
        Ended::Ran(Outcome::Arena) => String::from_str(alloc, "Arena"),
        Ended::Ran(Outcome::Depth) => String::from_str(alloc, "Depth"),
        Ended::Ran(Outcome::More) => String::from_str(alloc, "More"),
        Ended::Ran(Outcome::Stuck(why)) => stuck_text(alloc, why),
        Ended::WriteFault => String::from_str(alloc, "WriteFault"),
        Ended::Refused => String::from_str(alloc, "it is refused outside its bodies"),
    }
}

fn stuck_text(alloc: Global, why: Why) -> Result<String, AllocError> {
    match why {
        Why::Missing => String::from_str(alloc, "Stuck(Missing)"),
        Why::Foreign => String::from_str(alloc, "Stuck(Foreign)"),
        Why::Masked => String::from_str(alloc, "Stuck(Masked)"),
        Why::Kind => String::from_str(alloc, "Stuck(Kind)"),
    }
}

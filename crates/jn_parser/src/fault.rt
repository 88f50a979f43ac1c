//! Why there is no tree.

ghost use Rattle.std.specs.Prelude.{◌≡◌, length};
ghost use Rattle.jn_parser.specs.declared.fault.ParseFault.TheVariants as faults;
ghost use Rattle.jn_parser.specs.declared.fault.Stop.TheVariants as stops;

use jn_base::refusal::Refusal;
use jn_grammar::fault::Fault;
use std::alloc::{AllocError, AllocFailed};

/// Why there is no tree.
#[derive(Debug, Drop)]
pub enum ParseFault {
    /// The source is refused by E03, E01 or E04.
    Refused(Refusal),
    /// There was no memory for the tree.
    Memory,
}

impl From<AllocError> for ParseFault {
    ghost from_gives = { λ _ e. e ≡ faults.Memory };

    fn from(_error: AllocError) -> ParseFault {
        ParseFault::Memory
    }
}

/// Why reading stopped.
#[derive(Clone, Copy, Debug, PartialEq, Eq)]
pub enum Stop {
    /// At a word with which no program goes on, or that passes a limit.
    Refused(Fault),
    /// There was no memory for the tree.
    Memory,
}

impl From<AllocError> for Stop {
    ghost from_gives = { λ _ e. e ≡ stops.Memory };

    fn from(_error: AllocError) -> Stop {
        Stop::Memory
    }
}

impl<T: Drop> From<AllocFailed<T>> for Stop {
    ghost from_gives = { λ _ e. e ≡ stops.Memory };

    fn from(_error: AllocFailed<T>) -> Stop {
        Stop::Memory
    }
}

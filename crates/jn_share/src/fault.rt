use jn_base::refusal::Refusal;
use std::alloc::{AllocError, AllocFailed};

/// Why a program has no groups.
#[derive(Debug, Drop)]
pub enum ShareFault {
    /// A listed name is refused, with E12.
    Refused(Refusal),
    /// There was no memory. No program has this fault.
    Memory,
}

impl From<AllocError> for ShareFault {
    ghost use Rattle.std.specs.Prelude.{◌≡◌};
    ghost use Rattle.jn_share.specs.declared.fault.ShareFault.TheVariants.{Memory};

    ghost from_gives = { λ _ e. e ≡ Memory };

    fn from(_error: AllocError) -> ShareFault {
        ShareFault::Memory
    }
}

impl<T: Drop> From<AllocFailed<T>> for ShareFault {
    ghost use Rattle.std.specs.Prelude.{◌≡◌};
    ghost use Rattle.jn_share.specs.declared.fault.ShareFault.TheVariants.{Memory};

    ghost from_gives = { λ _ e. e ≡ Memory };

    fn from(_error: AllocFailed<T>) -> ShareFault {
        ShareFault::Memory
    }
}

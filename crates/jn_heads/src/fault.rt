//! Why a program isn't passed.

use jn_base::refusal::Refusal;
use std::alloc::{AllocError, AllocFailed};

/// Why a program isn't passed.
#[derive(Debug, Drop)]
pub enum CheckFault {
    /// The program breaks a rule.
    Refused(Refusal),
    /// Memory ran out.
    Memory,
}

impl From<AllocError> for CheckFault {
    ghost use Rattle.std.specs.Prelude.{◌≡◌};
    ghost use Rattle.jn_heads.specs.declared.fault.CheckFault.TheVariants.{Memory};

    ghost from_gives = { λ _ e. e ≡ Memory };

    fn from(_error: AllocError) -> CheckFault {
        CheckFault::Memory
    }
}

impl<T: Drop> From<AllocFailed<T>> for CheckFault {
    ghost use Rattle.std.specs.Prelude.{◌≡◌};
    ghost use Rattle.jn_heads.specs.declared.fault.CheckFault.TheVariants.{Memory};

    ghost from_gives = { λ _ e. e ≡ Memory };

    fn from(_error: AllocFailed<T>) -> CheckFault {
        CheckFault::Memory
    }
}

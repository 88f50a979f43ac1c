use jn_io::Failed;
use std::alloc::{AllocError, AllocFailed};

/// Why a run was broken off.
#[derive(Clone, Copy, Debug, PartialEq, Eq)]
pub enum MeanFault {
    /// The sink failed, and its count of faults rose.
    WriteFault,
    /// Memory ran out.
    Memory,
}

impl From<AllocError> for MeanFault {
    ghost use Rattle.std.specs.Prelude.{◌≡◌};
    ghost use Rattle.jn_meaning.specs.declared.fault.MeanFault.TheVariants.{Memory};

    ghost from_gives = { λ _ e. e ≡ Memory };

    fn from(_error: AllocError) -> MeanFault {
        MeanFault::Memory
    }
}

impl<T: Drop> From<AllocFailed<T>> for MeanFault {
    ghost use Rattle.std.specs.Prelude.{◌≡◌};
    ghost use Rattle.jn_meaning.specs.declared.fault.MeanFault.TheVariants.{Memory};

    ghost from_gives = { λ _ e. e ≡ Memory };

    fn from(_error: AllocFailed<T>) -> MeanFault {
        MeanFault::Memory
    }
}

impl From<Failed> for MeanFault {
    ghost use Rattle.std.specs.Prelude.{◌≡◌};
    ghost use Rattle.jn_meaning.specs.declared.fault.MeanFault.TheVariants.{WriteFault};

    ghost from_gives = { λ _ e. e ≡ WriteFault };

    fn from(_error: Failed) -> MeanFault {
        MeanFault::WriteFault
    }
}

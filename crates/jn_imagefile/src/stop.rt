//! Why reading stops.

ghost use Rattle.std.specs.Prelude.{◌≡◌};
ghost use Rattle.jn_imagefile.specs.declared.stop.Stop.TheVariants.{Memory};

use jn_code::FieldKind;
use std::alloc::{AllocError, AllocFailed};

/// Why reading stops. The number is that of the bytes from the field's first to the end of the file.
#[derive(Debug, Drop)]
pub enum Stop {
    Memory,
    Short(usize),
    Magic,
    Bad(usize, FieldKind),
}

impl From<AllocError> for Stop {
    ghost from_gives = { λ _ e. e ≡ Memory };

    fn from(_e: AllocError) -> Stop {
        Stop::Memory
    }
}

impl<T: Drop> From<AllocFailed<T>> for Stop {
    ghost from_gives = { λ _ e. e ≡ Memory };

    fn from(_e: AllocFailed<T>) -> Stop {
        Stop::Memory
    }
}

use jn_base::path::Path;
use std::alloc::{AllocError, AllocFailed};

/// Why a table has no answer.
#[derive(Debug, Drop)]
pub enum TableFault {
    /// The path is not in the universe. The number is how many of its first names make a path that is.
    NoClass(u8),
    /// The first path, in class order, whose supers have both kinds.
    Kind(Path),
    /// The first path, in class order, that is its own strict super.
    Cycle(Path),
    /// The 4,097th path in class order.
    TooMany(Path),
    /// There was no memory. No program has this fault.
    Memory,
}

impl From<AllocError> for TableFault {
    ghost use Rattle.std.specs.Prelude.{◌≡◌};
    ghost use Rattle.jn_table.specs.declared.fault.TableFault.TheVariants.{Memory};

    ghost from_gives = { λ _ e. e ≡ Memory };

    fn from(_error: AllocError) -> TableFault {
        TableFault::Memory
    }
}

impl<T: Drop> From<AllocFailed<T>> for TableFault {
    ghost use Rattle.std.specs.Prelude.{◌≡◌};
    ghost use Rattle.jn_table.specs.declared.fault.TableFault.TheVariants.{Memory};

    ghost from_gives = { λ _ e. e ≡ Memory };

    fn from(_error: AllocFailed<T>) -> TableFault {
        TableFault::Memory
    }
}

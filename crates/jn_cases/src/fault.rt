//! Why a file of cases can't be read.
ghost use Rattle.std.specs.Prelude.{◌≡◌};
ghost use Rattle.jn_cases.specs.declared.fault.CasesFault.TheVariants.{Memory};

use std::alloc::{AllocError, AllocFailed};
use thiserror::Error;

/// Why a file of cases, or the bytes of a case, can't be read. A line is the file's, from 1.
#[derive(Error, Debug, Drop, Clone, Copy, PartialEq)]
pub enum CasesFault {
    /// The text is no TOML.
    #[error("line {line}: this is no TOML")]
    NotToml { line: u32 },
    /// Something other than a list of tables under `case` stands in the file.
    #[error("there is more than a list of cases here, or it is none")]
    NotCases,
    /// A case has no name.
    #[error("line {line}: this case has no name")]
    NoName { line: u32 },
    /// What stands under a key of bytes gives none.
    #[error("line {line}: this case has a key whose bytes can't be read")]
    NoBytes { line: u32 },
    /// What stands under a key of texts is no list of texts.
    #[error("line {line}: this case has a key that has no list of texts")]
    NoTexts { line: u32 },
    /// What stands under a key of numbers is no list of numbers, or has a negative one.
    #[error("line {line}: this case has a key that has no list of numbers")]
    NoNumbers { line: u32 },
    /// There is no memory.
    #[error("there is no memory")]
    Memory,
}

impl From<AllocError> for CasesFault {
    ghost from_gives = { λ _ fault. fault ≡ Memory };

    fn from(_: AllocError) -> CasesFault {
        CasesFault::Memory
    }
}

impl<T: Drop> From<AllocFailed<T>> for CasesFault {
    ghost from_gives = { λ _ fault. fault ≡ Memory };

    fn from(_: AllocFailed<T>) -> CasesFault {
        CasesFault::Memory
    }
}

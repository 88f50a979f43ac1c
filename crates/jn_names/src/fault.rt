ghost use Rattle.jn_names.specs.Answers.{IsFault, shown_at};

use jn_base::names::Spot;
use jn_base::path::Path;
use jn_base::refusal::{Refusal, Rule};
use jn_base::tree::{Name, Place};
use sqlite_items::Items;
use std::alloc::{AllocError, AllocFailed, Global};

/// Why a term or a type stands for nothing.
#[derive(Debug, Drop)]
pub enum NameFault {
    /// It is refused, with E06, E14, E15, E22 or E27.
    Refused(Refusal),
    /// There was no memory. No term has this fault.
    Memory,
}

impl From<AllocError> for NameFault {
    ghost use Rattle.std.specs.Prelude.{◌≡◌};
    ghost use Rattle.jn_names.specs.declared.fault.NameFault.TheVariants.{Memory};

    ghost from_gives = { λ _ e. e ≡ Memory };

    fn from(_error: AllocError) -> NameFault {
        NameFault::Memory
    }
}

impl<T: Drop> From<AllocFailed<T>> for NameFault {
    ghost use Rattle.std.specs.Prelude.{◌≡◌};
    ghost use Rattle.jn_names.specs.declared.fault.NameFault.TheVariants.{Memory};

    ghost from_gives = { λ _ e. e ≡ Memory };

    fn from(_error: AllocFailed<T>) -> NameFault {
        NameFault::Memory
    }
}

/// The refusal by a rule, at a place, with the spot's class and a member or other name; or want of memory.
pub fn refused(alloc: Global, rule: Rule, at: Place, spot: &Spot, member: Name) -> NameFault
    ensures { IsFault result (shown_at rule at spot.now member) }
{
    match Items::from_slice(alloc, spot.class.names.as_slice()) {
        Err(_) => NameFault::Memory,
        Ok(names) => NameFault::Refused(Refusal {
            rule,
            at,
            class: Some(Path { names }),
            member: Some(member),
            limit: None,
        }),
    }
}

ghost use Rattle.std.specs.Prelude.{MatchOption, IfOk};
ghost use Rattle.jn_base.specs.declared.tree.Program.{Program};
ghost use Rattle.jn_base.specs.Resolve.{FirstUnknown, FoundOut, FoundNowhere, FirstSought, Sought};
ghost use Rattle.jn_table.specs.Tables.{IsFilled};
ghost use Rattle.jn_names.specs.Seeking.{told};

use crate::bound::Bound;
use jn_base::tree::Name;
use jn_table::Table;
use std::alloc::{AllocError, Global};

/// Where names are found: with so many last names of the class taken off, or the first one that is unknown.
#[derive(Clone, Copy)]
pub enum Found {
    Without(usize),
    Unknown(Name),
}

/// The first of the names, the outermost first, that is no member of the bound before it.
pub fn first_unknown(
    alloc: Global,
    t: &Table,
    from: &Bound,
    names: &[Name],
) -> Result<Option<Name>, AllocError>
    ensures { IfOk result (λ o. (p : Program) → IsFilled p t.now → FirstUnknown p from.now names.now o) }
{
    let mut at = from.without(alloc, 0)?;
    for name in names {
        at.push(*name)?;
        if !at.is_known(t) {
            return Ok(Some(*name));
        }
    }
    Ok(None)
}

/// How many last names of the class are taken off where the name is found.
fn found_out(
    alloc: Global,
    t: &Table,
    class: &Bound,
    name: Name,
) -> Result<Option<usize>, AllocError>
    ensures { IfOk result (λ o. (p : Program) → IsFilled p t.now
        → MatchOption o (FoundNowhere p class.now name) (λ k. FoundOut p class.now name k)) }
{
    for k in 0..=class.depth() {
        let mut at = class.without(alloc, k)?;
        at.push(name)?;
        if at.is_known(t) {
            return Ok(Some(k));
        }
    }
    Ok(None)
}

/// Where names are found whose first one is found with `k` last names of the class taken off.
fn found_behind(
    alloc: Global,
    t: &Table,
    class: &Bound,
    k: usize,
    name: Name,
    others: &[Name],
) -> Result<Found, AllocError>
    ensures { IfOk result (λ f. (p : Program) → IsFilled p t.now → FoundOut p class.now name k
        → FirstSought p class.now name others.now (told f)) }
{
    let mut at = class.without(alloc, k)?;
    at.push(name)?;
    match first_unknown(alloc, t, &at, others)? {
        None => Ok(Found::Without(k)),
        Some(unknown) => Ok(Found::Unknown(unknown)),
    }
}

/// Where names are found in the class.
pub fn sought(alloc: Global, t: &Table, class: &Bound, names: &[Name]) -> Result<Found, AllocError>
    ensures { IfOk result (λ f. (p : Program) → IsFilled p t.now → Sought p class.now names.now (told f)) }
{
    match names.split_first() {
        None => Ok(Found::Without(class.depth())),
        Some((name, others)) => match found_out(alloc, t, class, *name)? {
            None => Ok(Found::Unknown(*name)),
            Some(k) => found_behind(alloc, t, class, k, *name, others),
        },
    }
}

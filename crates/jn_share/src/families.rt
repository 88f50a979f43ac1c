ghost use Rattle.std.specs.Prelude.{◌≡◌, ◌↔◌, ◌∷◌, [], map, IfOk, IsTrue};
ghost use Rattle.jn_base.specs.declared.tree.Program.{Program};
ghost use Rattle.jn_base.specs.Universe.{InUniverse};
ghost use Rattle.jn_table.specs.Tables.{IsFilled};
ghost use Rattle.jn_sem.specs.NotFamily.{not_family, listed_names};
ghost use Rattle.jn_share.specs.Listing.{listed_of, IsFault, PassesOr, SaysStrict, SaysNoClass, SaysLacks, SaysRefused};

use crate::fault::ShareFault;
use crate::listed::{InList, ListedName};
use crate::paths::{family, family_of, in_family};
use crate::trail::Trail;
use jn_base::path::Path;
use jn_base::refusal::{Refusal, Rule};
use jn_base::tree::{Name, Named};
use jn_table::Table;
use sqlite_items::Items;
use std::alloc::{AllocError, Global};

/// Whether the family is a super of that of the path, and another one.
fn is_strict_super(
    alloc: Global,
    t: &Table,
    names: &[Name],
    above: &Trail,
) -> Result<bool, AllocError>
    ensures { IfOk result (SaysStrict t.now names.now above.now) }
{
    let own = family_of(alloc, names)?;
    if own.is(above) {
        return Ok(false);
    }
    Ok(own.is_below(t, above))
}

/// Whether the name is that of a family: a top-level name.
pub fn is_family(alloc: Global, t: &Table, name: Name) -> Result<bool, AllocError>
    ensures { IfOk result (λ told. (p : Program) → IsFilled p t.now → IsTrue told ↔ InUniverse p (name ∷ [])) }
{
    let path = family(alloc, name)?;
    Ok(path.is_known(t))
}

/// Whether the list is one of `shares`, and the family of the name has no such class.
fn lacks_class(
    alloc: Global,
    t: &Table,
    at: &[Name],
    list: InList,
    name: Name,
) -> Result<bool, AllocError>
    ensures { IfOk result (SaysNoClass t.now at.now list name) }
{
    match list {
        InList::Adapts => Ok(false),
        InList::Shares => {
            let there = in_family(alloc, at, name)?;
            Ok(!there.is_class(t))
        }
    }
}

/// Whether a name in a list of the declaration at a path lacks what a family in that list must have.
pub fn lacks(
    alloc: Global,
    t: &Table,
    at: &[Name],
    list: InList,
    name: Named,
) -> Result<bool, AllocError>
    ensures { IfOk result (SaysLacks t.now at.now list name) }
{
    let above = family(alloc, name.name)?;
    if !is_strict_super(alloc, t, at, &above)? {
        return Ok(true);
    }
    lacks_class(alloc, t, at, list, name.name)
}

/// Whether the listed name is refused.
fn is_refused(alloc: Global, t: &Table, x: &ListedName) -> Result<bool, AllocError>
    ensures { IfOk result (SaysRefused t.now x.now) }
{
    if !is_family(alloc, t, x.name.name)? {
        return Ok(false);
    }
    lacks(alloc, t, x.at.names.as_slice(), x.list, x.name)
}

/// The refusal of a listed name, or want of memory.
fn refusal(alloc: Global, x: &ListedName) -> ShareFault
    ensures { IsFault result (not_family (listed_of x.now)) }
{
    match Items::from_slice(alloc, x.at.names.as_slice()) {
        Err(_) => ShareFault::Memory,
        Ok(names) => ShareFault::Refused(Refusal {
            rule: Rule::E12,
            at: x.name.at,
            class: Some(Path { names }),
            member: None,
            limit: None,
        }),
    }
}

/// The refusal of the first of the listed names that is refused.
pub fn check(alloc: Global, t: &Table, xs: &[ListedName]) -> Result<(), ShareFault>
    ensures { (p : Program) → IsFilled p t.now → map listed_of xs.now ≡ listed_names p → PassesOr p result }
{
    for x in xs {
        if is_refused(alloc, t, x)? {
            return Err(refusal(alloc, x));
        }
    }
    Ok(())
}

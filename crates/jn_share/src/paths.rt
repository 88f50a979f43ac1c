ghost use Rattle.std.specs.Prelude.{◌≡◌, ◌≤◌, ◌∷◌, [], ◌↔◌, Some, length, drop, reverse, IfOk, IsTrue};
ghost use Rattle.jn_base.specs.declared.tree.Name.{Name as AName};
ghost use Rattle.jn_sem.specs.Sharing.{family_of, in_family};
ghost use Rattle.jn_share.specs.Pairing.{HaveOneFamily};

use crate::trail::Trail;
use jn_base::compare::{is_name, same_names};
use jn_base::tree::Name;
use sqlite_items::at;
use std::alloc::{AllocError, Global};

/// The path of the family with this name.
pub fn family(alloc: Global, name: Name) -> Result<Trail, AllocError>
    ensures { IfOk result (λ path. path ≡ name ∷ []) }
{
    let mut path = Trail::root(alloc);
    path.push(name)?;
    Ok(path)
}

/// The path of the family of a path: of its outermost name.
pub fn family_of(alloc: Global, names: &[Name]) -> Result<Trail, AllocError>
    ensures { IfOk result (λ path. (X : AName) → family_of (reverse names.now) ≡ Some X → path ≡ X ∷ []) }
{
    match at(names, 0) {
        None => Ok(Trail::root(alloc)),
        Some(name) => family(alloc, *name),
    }
}

/// The names behind the first one.
fn behind_first(names: &[Name]) -> &[Name]
    requires { 1 ≤ length names.now }
    ensures { result.now ≡ drop 1 names.now }
{
    &names[1..]
}

/// The path in another family.
pub fn in_family(alloc: Global, names: &[Name], family: Name) -> Result<Trail, AllocError>
    ensures { IfOk result (λ path. path ≡ in_family family (reverse names.now)) }
{
    let mut path = Trail::root(alloc);
    if names.is_empty() {
        return Ok(path);
    }
    path.push(family)?;
    path.extend(behind_first(names))?;
    Ok(path)
}

/// Whether both paths have one family.
pub fn one_family(names: &[Name], others: &[Name]) -> bool
    ensures { IsTrue result ↔ HaveOneFamily (reverse names.now) (reverse others.now) }
{
    match at(names, 0) {
        None => false,
        Some(name) => match at(others, 0) {
            None => false,
            Some(other) => is_name(*name, *other),
        },
    }
}

/// Whether both are one path.
pub fn one_path(names: &[Name], others: &[Name]) -> bool
    ensures { IsTrue result ↔ (reverse names.now ≡ reverse others.now) }
{
    same_names(names, others)
}

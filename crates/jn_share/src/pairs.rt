ghost use Rattle.std.specs.Prelude.{◌≡◌, ◌<◌, ◌≤◌, ◌↔◌, Some, slice_get, length, map, reverse, IfOk, IfSome, IfNone, OnOk, IsTrue};
ghost use Rattle.jn_reach.specs.Pairs.{AreBelow};
ghost use Rattle.jn_base.specs.declared.tree.Program.{Program};
ghost use Rattle.jn_base.specs.Paths.{Path as APath};
ghost use Rattle.jn_table.specs.Tables.{IsFilled, IsFilledAt};
ghost use Rattle.jn_sem.specs.Sharing.{IsClass};
ghost use Rattle.jn_share.specs.declared.listed.InList.TheVariants as lists;
ghost use Rattle.jn_share.specs.Listing.{listed_of};
ghost use Rattle.jn_share.specs.Pairing.{Meets, IsAt, ClassTold, PartnerIs, RowIs, StandsBefore, AddsPairs, SaysAdds, AreByFamily, ArePairs};

use crate::listed::{InList, ListedName};
use crate::paths::{family_of, in_family, one_family, one_path};
use crate::trail::Trail;
use jn_base::tree::{Kind, Name};
use jn_table::{ClassId, Table};
use sqlite_items::at;
use std::alloc::{AllocError, Global};

/// The number, where its row is filled.
pub fn filled(t: &Table, k: usize) -> Option<ClassId>
    ensures some { IfSome result (λ id. (id.0 ≡ k) × IsFilledAt t.now id × (k < length t.now.known.items)) }
    ensures none { IfNone result (length t.now.known.items ≤ k) }
{
    if k < t.known().len() {
        return Some(ClassId(k as u16));
    }
    None
}

/// Whether the path of the number is a class.
pub fn is_class(t: &Table, k: usize) -> bool
    requires { k < length t.now.known.items }
    ensures { (p : Program) (R : APath) → IsFilled p t.now → IsAt t.now.known.items k R
        → IsTrue result ↔ IsClass p R }
{
    match t.row(ClassId(k as u16)).kind {
        Kind::Class => true,
        Kind::Package => false,
    }
}

/// Whether the listed name speaks of the path.
fn meets(x: &ListedName, names: &[Name]) -> bool
    ensures { IsTrue result ↔ Meets (listed_of x.now) (reverse names.now) }
{
    let at = x.at.names.as_slice();
    match x.list {
        InList::Adapts => {
            if names.len() < 2 {
                return false;
            }
            one_family(names, at)
        }
        InList::Shares => one_path(names, at),
    }
}

/// The names of the path of the number.
pub fn names_at(t: &Table, k: usize) -> &[Name]
    requires { k < length t.now.known.items }
    ensures { slice_get t.now.known.items k ≡ Some (record { names = result.now }) }
{
    t.known()[k].names.as_slice()
}

/// The number of the path, where it is a class.
fn class_number(t: &Table, path: &Trail) -> Option<usize>
    ensures some { IfSome result (λ j. (j < length t.now.known.items) × IsAt t.now.known.items j path.now) }
    ensures is { (p : Program) → IsFilled p t.now → ClassTold p path.now result }
{
    match path.number(t) {
        None => None,
        Some(id) => {
            let j = id.0 as usize;
            if is_class(t, j) {
                return Some(j);
            }
            None
        }
    }
}

/// The number of the class with which the listed name relates the class of the number.
fn partner(alloc: Global, t: &Table, x: &ListedName, k: usize) -> Result<Option<usize>, AllocError>
    ensures below { IfOk result (λ o. IfSome o
        (λ j. (k < length t.now.known.items) × (j < length t.now.known.items))) }
    ensures is { IfOk result (λ o. (p : Program) → IsFilled p t.now
        → PartnerIs p t.now.known.items (listed_of x.now) k o) }
{
    if k >= t.known().len() {
        return Ok(None);
    }
    let names = names_at(t, k);
    if !meets(x, names) {
        return Ok(None);
    }
    if !is_class(t, k) {
        return Ok(None);
    }
    let there = in_family(alloc, names, x.name.name)?;
    Ok(class_number(t, &there))
}

/// Adds the pair of the number of a class with that of the class with which the listed name relates it.
fn add_pair(
    alloc: Global,
    t: &Table,
    x: &ListedName,
    k: usize,
    pairs: &mut Vec<(usize, usize)>,
) -> Result<(), AllocError>
    ensures below { OnOk result (AreBelow (length t.now.known.items) pairs.old.items
        → AreBelow (length t.now.known.items) pairs.new.items) }
    ensures adds { OnOk result ((p : Program) → IsFilled p t.now → AddsPairs p t.now.known.items (listed_of x.now)
        (λ i. i ≡ k) pairs.old.items pairs.new.items) }
{
    match partner(alloc, t, x, k)? {
        None => Ok(()),
        Some(j) => {
            pairs.push((k, j))?;
            Ok(())
        }
    }
}

/// Adds the pairs of those of the numbers whose classes the listed name relates.
fn add_among(
    alloc: Global,
    t: &Table,
    x: &ListedName,
    numbers: &[usize],
    pairs: &mut Vec<(usize, usize)>,
) -> Result<(), AllocError>
    ensures below { OnOk result (AreBelow (length t.now.known.items) pairs.old.items
        → AreBelow (length t.now.known.items) pairs.new.items) }
    ensures adds { OnOk result ((p : Program) → IsFilled p t.now
        → AddsPairs p t.now.known.items (listed_of x.now) (StandsBefore numbers.now (length numbers.now))
        pairs.old.items pairs.new.items) }
{
    for k in numbers {
        add_pair(alloc, t, x, *k, pairs)?;
    }
    Ok(())
}

/// The numbers in the row.
fn row_at(rows: &[Vec<usize>], k: usize) -> &[usize]
    ensures { RowIs rows.now k result.now }
{
    match at(rows, k) {
        None => &[],
        Some(row) => row,
    }
}

/// Adds the pairs of the classes that a name in a list of `adapts` relates. `classes` has the numbers of each family.
fn add_adapted(
    alloc: Global,
    t: &Table,
    classes: &[Vec<usize>],
    x: &ListedName,
    pairs: &mut Vec<(usize, usize)>,
) -> Result<(), AllocError>
    requires { x.now.list ≡ lists.Adapts }
    ensures below { OnOk result (AreBelow (length t.now.known.items) pairs.old.items
        → AreBelow (length t.now.known.items) pairs.new.items) }
    ensures adds { OnOk result (SaysAdds t.now classes.now x.now pairs.old.items pairs.new.items) }
{
    let family = family_of(alloc, x.at.names.as_slice())?;
    match family.number(t) {
        None => Ok(()),
        Some(id) => add_among(alloc, t, x, row_at(classes, id.0 as usize), pairs),
    }
}

/// Adds the pair of the classes that a name in a list of `shares` relates.
fn add_shared(
    alloc: Global,
    t: &Table,
    x: &ListedName,
    pairs: &mut Vec<(usize, usize)>,
) -> Result<(), AllocError>
    requires { x.now.list ≡ lists.Shares }
    ensures below { OnOk result (AreBelow (length t.now.known.items) pairs.old.items
        → AreBelow (length t.now.known.items) pairs.new.items) }
    ensures adds { OnOk result ((p : Program) → IsFilled p t.now → AddsPairs p t.now.known.items (listed_of x.now)
        (λ k. k < length t.now.known.items) pairs.old.items pairs.new.items) }
{
    match t.find(&x.at) {
        None => Ok(()),
        Some(id) => add_pair(alloc, t, x, id.0 as usize, pairs),
    }
}

/// Adds the pairs of the numbers of the classes that the listed name relates.
fn add_pairs(
    alloc: Global,
    t: &Table,
    classes: &[Vec<usize>],
    x: &ListedName,
    pairs: &mut Vec<(usize, usize)>,
) -> Result<(), AllocError>
    ensures below { OnOk result (AreBelow (length t.now.known.items) pairs.old.items
        → AreBelow (length t.now.known.items) pairs.new.items) }
    ensures adds { OnOk result (SaysAdds t.now classes.now x.now pairs.old.items pairs.new.items) }
{
    match x.list {
        InList::Adapts => add_adapted(alloc, t, classes, x, pairs),
        InList::Shares => add_shared(alloc, t, x, pairs),
    }
}

/// The pairs of the numbers of the classes that the listed names relate. `classes` has the numbers of each family.
pub fn pairs_of(
    alloc: Global,
    t: &Table,
    classes: &[Vec<usize>],
    xs: &[ListedName],
) -> Result<Vec<(usize, usize)>, AllocError>
    ensures below { IfOk result (λ pairs. AreBelow (length t.now.known.items) pairs.items) }
    ensures exact { IfOk result (λ pairs. (p : Program) → IsFilled p t.now
        → AreByFamily t.now.known.items classes.now
        → ArePairs p t.now.known.items (map listed_of xs.now) pairs.items) }
{
    let mut pairs = Vec::new(alloc);
    for x in xs {
        add_pairs(alloc, t, classes, x, &mut pairs)?;
    }
    Ok(pairs)
}

ghost use Rattle.std.specs.Prelude.{◌≡◌, ◌<◌, length, slice_index, IfOk};
ghost use Rattle.jn_share.specs.Rows.{OwnIs, IsGroupRow, SaysOwn, SaysGroup, SaysRows};

use crate::pairs::{filled, is_class};
use jn_table::{ClassId, Table};
use sqlite_items::at;
use std::alloc::{AllocError, Global};

/// A class with its family, both by their numbers.
#[derive(Clone, Copy, Debug, PartialEq, Eq)]
pub struct FamilyClass {
    pub family: ClassId,
    pub class: ClassId,
}

/// The first number of the group of a class, and the class with its family. A package has neither.
#[derive(Clone, Copy, Debug, PartialEq, Eq)]
pub struct GroupRow {
    pub group: Option<usize>,
    pub own: Option<FamilyClass>,
}

/// The class at `k` with its family, where there is a class. `families` has the family of each number.
fn own_of(t: &Table, families: &[usize], k: usize) -> Option<FamilyClass>
    requires { k < length t.now.known.items }
    ensures { SaysOwn t.now families.now k (λ p R. OwnIs p t.now.known.items k R result) }
{
    if !is_class(t, k) {
        return None;
    }
    match at(families, k) {
        None => None,
        Some(number) => match filled(t, *number) {
            None => None,
            Some(family) => Some(FamilyClass {
                family,
                class: ClassId(k as u16),
            }),
        },
    }
}

/// The first number of the group of the path at `k`, where it is a class.
fn group_of(t: &Table, firsts: &[usize], k: usize) -> Option<usize>
    requires k { k < length t.now.known.items }
    requires firsts { length firsts.now ≡ length t.now.known.items }
    ensures { SaysGroup t.now firsts.now k result }
{
    if !is_class(t, k) {
        return None;
    }
    Some(firsts[k])
}

/// The row of the path at `k`.
fn row_of(t: &Table, firsts: &[usize], families: &[usize], k: usize) -> GroupRow
    requires k { k < length t.now.known.items }
    requires firsts { length firsts.now ≡ length t.now.known.items }
    ensures { SaysOwn t.now families.now k (λ p R. IsGroupRow p t.now.known.items firsts.now k R result) }
{
    let group = group_of(t, firsts, k);
    let own = own_of(t, families, k);
    GroupRow { group, own }
}

/// The rows of all numbers.
pub fn rows_of(
    alloc: Global,
    t: &Table,
    firsts: &[usize],
    families: &[usize],
) -> Result<Vec<GroupRow>, AllocError>
    requires { length firsts.now ≡ length t.now.known.items }
    ensures { IfOk result (λ rows. SaysRows t.now firsts.now families.now rows.items) }
{
    let mut rows = Vec::new(alloc);
    for k in 0..t.known().len() {
        rows.push(row_of(t, firsts, families, k))?;
    }
    Ok(rows)
}

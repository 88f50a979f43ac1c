ghost use Rattle.std.specs.Prelude.{◌↔◌, ◌≡◌, ◌≤◌, ◌<◌, All, Any, Some, ℕ, length, map, slice_get, slice_index, IsTrue, IfOk, IfSome, IfNone};
ghost use Rattle.jn_reach.specs.Pairs.{AreBelow, AreMembers};
ghost use Rattle.jn_base.specs.declared.tree.Program.{Program};
ghost use Rattle.jn_base.specs.declared.refusal.Refusal.{Refusal};
ghost use Rattle.jn_table.specs.Tables.{IsFilled};
ghost use Rattle.jn_table.specs.declared.class.ClassId.{ClassId as AClassId};
ghost use Rattle.jn_sem.specs.NotFamily.{IsFirstNotFamily, listed_names};
ghost use Rattle.jn_share.specs.Groups.{HasGroup, HasClass, HasCounterpart, AreGroups, StartsOf};
ghost use Rattle.jn_share.specs.Listing.{listed_of};
ghost use Rattle.jn_share.specs.Pairing.{ArePairs};
ghost use Rattle.jn_share.specs.Refining.{AreLow};
ghost use Rattle.jn_share.specs.Rows.{LinkFirsts, SaysLinked};

use crate::families::check;
use crate::fault::ShareFault;
use crate::homes::homes_of;
use crate::listed::{ListedName, listed_names};
use crate::pairs::pairs_of;
use crate::prepared::families_of;
use crate::rows::{GroupRow, rows_of};
use jn_base::tree::{Place, Program};
use jn_reach::{class_firsts, class_members};
use jn_table::{ClassId, Table};
use sqlite_items::at;
use std::alloc::{AllocError, Global};

/// The groups of a program's classes.
#[derive(Drop)]
pub struct Groups {
    rows: Vec<GroupRow>,
    /// For the first number of each group the numbers of the group.
    members: Vec<Vec<usize>>,
    /// The home of each number.
    homes: Vec<Option<Place>>,
}

/// For each number the first one that is linked with it, and for each of these first ones all that are.
#[derive(Drop)]
struct Linked {
    firsts: Vec<usize>,
    members: Vec<Vec<usize>>,
}

/// The group of the number, where it has one.
fn group(rows: &[GroupRow], id: ClassId) -> Option<usize>
    ensures some { IfSome result (λ f. HasGroup rows.now id f) }
    ensures none { IfNone result ((f : ℕ) → HasGroup rows.now id f → ⊥) }
{
    match at(rows, id.0 as usize) {
        None => None,
        Some(row) => row.group,
    }
}

/// Whether both are one number.
fn is_id(a: ClassId, b: ClassId) -> bool
    ensures { IsTrue result ↔ (a ≡ b) }
{
    a.0 == b.0
}

/// The class of the row of the number, where its family is this one.
fn class_in(rows: &[GroupRow], k: usize, family: ClassId) -> Option<ClassId>
    ensures some { IfSome result (λ w. HasClass rows.now k family w) }
    ensures none { IfNone result ((w : AClassId) → HasClass rows.now k family w → ⊥) }
{
    match at(rows, k) {
        None => None,
        Some(row) => match row.own {
            None => None,
            Some(x) => {
                if is_id(x.family, family) {
                    return Some(x.class);
                }
                None
            }
        },
    }
}

/// The first class of the numbers that is in the family.
fn first_in(rows: &[GroupRow], numbers: &[usize], family: ClassId) -> Option<ClassId>
    ensures some { IfSome result (λ w. Any (λ k. HasClass rows.now k family w) numbers.now) }
    ensures none { IfNone result ((w : AClassId) → Any (λ k. HasClass rows.now k family w) numbers.now → ⊥) }
{
    for k in numbers {
        if let Some(class) = class_in(rows, *k, family) {
            return Some(class);
        }
    }
    None
}

/// The counterpart of the number in the family.
fn counterpart(
    rows: &[GroupRow],
    members: &[Vec<usize>],
    id: ClassId,
    family: ClassId,
) -> Option<ClassId>
    ensures some { IfSome result (λ w. HasCounterpart rows.now members.now id family w) }
    ensures none { IfNone result ((w : AClassId) → HasCounterpart rows.now members.now id family w → ⊥) }
{
    match group(rows, id) {
        None => None,
        Some(first) => match at(members, first) {
            None => None,
            Some(numbers) => first_in(rows, numbers, family),
        },
    }
}

/// The first number of the group of each number, by the pairs of the listed names.
fn firsts_of(alloc: Global, t: &Table, pairs: &[(usize, usize)]) -> Result<Vec<usize>, AllocError>
    requires { AreBelow (length t.now.known.items) pairs.now }
    ensures long { IfOk result (λ firsts. length firsts.items ≡ length t.now.known.items) }
    ensures low { IfOk result (λ firsts. (a : ℕ) → slice_index firsts.items a ≤ a) }
    ensures within { IfOk result (λ firsts. All (λ f. f < length firsts.items) firsts.items) }
    ensures links { IfOk result (λ firsts. (p : Program) → IsFilled p t.now
        → ArePairs p t.now.known.items (listed_names p) pairs.now → LinkFirsts p t.now.known.items firsts.items) }
{
    class_firsts(alloc, t.known().len(), pairs)
}

/// What the listed names link. `families` has the family of each number.
fn links_of(
    alloc: Global,
    t: &Table,
    families: &[usize],
    names: &[ListedName],
) -> Result<Linked, AllocError>
    requires { AreLow families.now }
    ensures long { IfOk result (λ w. length w.firsts.items ≡ length t.now.known.items) }
    ensures low { IfOk result (λ w. (a : ℕ) → slice_index w.firsts.items a ≤ a) }
    ensures members { IfOk result (λ w. AreMembers w.firsts.items w.members.items) }
    ensures links { IfOk result (λ w. SaysLinked t.now families.now names.now w.firsts.items) }
{
    let classes = class_members(alloc, families)?;
    let pairs = pairs_of(alloc, t, &classes, names)?;
    let firsts = firsts_of(alloc, t, &pairs)?;
    let members = class_members(alloc, &firsts)?;
    Ok(Linked { firsts, members })
}

/// The groups of the listed names.
fn groups_of(
    alloc: Global,
    p: &Program,
    t: &Table,
    names: &[ListedName],
) -> Result<Groups, AllocError>
    ensures { IfOk result (λ groups. IsFilled p.now t.now → map listed_of names.now ≡ listed_names p.now
        → AreGroups p.now t.now.known.items groups) }
{
    let homes = homes_of(alloc, p, t)?;
    let families = families_of(alloc, t)?;
    let linked = links_of(alloc, t, &families, names)?;
    let rows = rows_of(alloc, t, &linked.firsts, &families)?;
    Ok(Groups {
        rows,
        members: linked.members,
        homes,
    })
}

/// The first number of the group of the row, which is that of the number; the number itself where there is none.
fn start_of(row: &GroupRow, k: usize) -> usize
    ensures low { result ≤ k }
    ensures is { (f : ℕ) → row.now.group ≡ Some f → f ≤ k → result ≡ f }
{
    match row.group {
        None => k,
        Some(first) => first.min(k),
    }
}

impl Groups {
    ghost use Rattle.jn_base.specs.declared.tree.Place.{Place as APlace};
    ghost use Rattle.jn_share.specs.Groups.{SaysRelated, SaysCounterpart, GroupsGive, RefusedOr};

    /// The groups of a program by a table in which its universe is filled, or the refusal of the first listed name that
    /// is refused.
    pub fn build(alloc: Global, p: &Program, t: &Table) -> Result<Groups, ShareFault>
        ensures gives { IsFilled p.now t.now → GroupsGive p.now t.now.known.items result }
        ensures refused { IsFilled p.now t.now → (r : Refusal) → IsFirstNotFamily p.now r → RefusedOr r result }
    {
        let names = listed_names(alloc, p)?;
        match check(alloc, t, &names) {
            Err(fault) => Err(fault),
            Ok(()) => {
                let groups = groups_of(alloc, p, t, &names)?;
                Ok(groups)
            }
        }
    }

    /// Whether the classes of two numbers are related. A package is related to nothing.
    pub fn related(&self, a: ClassId, b: ClassId) -> bool
        ensures { SaysRelated self.now a b result }
    {
        match group(&self.rows, a) {
            None => false,
            Some(f) => match group(&self.rows, b) {
                None => false,
                Some(g) => f == g,
            },
        }
    }

    /// The counterpart of a class in a family, both by their numbers, where it has one there.
    pub fn counterpart(&self, a: ClassId, family: ClassId) -> Option<ClassId>
        ensures { SaysCounterpart self.now a family result }
    {
        counterpart(&self.rows, &self.members, a, family)
    }

    /// The home of a number; the start of the file where it has none.
    pub fn home(&self, k: usize) -> Place
        ensures { (at : APlace) → slice_get self.now.homes.items k ≡ Some (Some at) → result ≡ at }
    {
        match at(&self.homes, k) {
            Some(Some(home)) => *home,
            _ => Place { line: 1, column: 1 },
        }
    }

    /// For each number the first one of its group; the number itself where it has none.
    pub fn starts(&self, alloc: Global) -> Result<Vec<usize>, AllocError>
        ensures long { IfOk result (λ parts. length parts.items ≡ length self.now.rows.items) }
        ensures low { IfOk result (λ parts. AreLow parts.items) }
        ensures is { IfOk result (λ parts. StartsOf self.now.rows.items parts.items (length self.now.rows.items)) }
    {
        let mut parts = Vec::new(alloc);
        for (k, row) in self.rows.iter().enumerate() {
            parts.push(start_of(row, k))?;
        }
        Ok(parts)
    }
}

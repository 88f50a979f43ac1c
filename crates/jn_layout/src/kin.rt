ghost use Rattle.std.specs.Prelude.{◌≡◌, ◌<◌, ◌≤◌, ◌↔◌, ℕ, [], ◌∷◌, Some, Contains, length, IsTrue, IfOk, IfSome, IfNone};
ghost use Rattle.jn_reach.specs.Graph.{Lists};
ghost use Rattle.jn_base.specs.declared.tree.Name.{Name as AName};
ghost use Rattle.jn_base.specs.declared.tree.Program.{Program};
ghost use Rattle.jn_base.specs.Paths.{Path as APath};
ghost use Rattle.jn_table.specs.Tables.{IsFilled, IsFilledAt};
ghost use Rattle.jn_sem.specs.Sharing.{IsClass, family_of};
ghost use Rattle.jn_share.specs.Members.{MembersAre};
ghost use Rattle.jn_share.specs.Pairing.{IsAt};
ghost use Rattle.jn_share.specs.Prepared.{FamiliesTo};
ghost use Rattle.jn_share.specs.Refining.{AreLow};
ghost use Rattle.jn_layout.specs.Kin.{AreKin, OfGroups, HasEarlier, FirstAt, FirstOf, SaysClass, members_of};

use jn_base::tree::Kind;
use jn_reach::class_members;
use jn_share::Groups;
use jn_table::{ClassId, Table};
use sqlite_items::at;
use std::alloc::{AllocError, Global};

/// Which classes are related, by their numbers.
#[derive(Drop)]
pub struct Kin {
    /// For each number one that all of its group have.
    pub starts: Vec<usize>,
    /// For each of these the numbers of the group, in ascending order.
    pub numbers: Vec<Vec<usize>>,
}

/// The numbers of each group.
pub fn kin_of(alloc: Global, g: &Groups) -> Result<Kin, AllocError>
    ensures { IfOk result (λ kin. AreKin g.now kin) }
{
    let starts = g.starts(alloc)?;
    let numbers = class_members(alloc, &starts)?;
    Ok(Kin { starts, numbers })
}

/// The numbers of the group of the number.
pub fn related_to(kin: &Kin, k: usize) -> &[usize]
    ensures { MembersAre (members_of kin.now) k result.now }
{
    match at(&kin.starts, k) {
        None => &[],
        Some(start) => match at(&kin.numbers, *start) {
            None => &[],
            Some(numbers) => numbers,
        },
    }
}

/// Whether the row of the number is that of a class.
fn has_class_row(t: &Table, k: usize) -> bool
    requires { k < length t.now.known.items }
    ensures { SaysClass t.now k result }
{
    match t.row(ClassId(k as u16)).kind {
        Kind::Class => true,
        Kind::Package => false,
    }
}

/// Whether the number is that of a class.
pub fn is_class(t: &Table, k: usize) -> bool
    ensures within { IsTrue result → k < length t.now.known.items }
    ensures is { SaysClass t.now k result }
{
    if k >= t.known().len() {
        return false;
    }
    has_class_row(t, k)
}

/// Whether the number is that of a class, and lower.
fn is_earlier(t: &Table, j: usize, k: usize) -> bool
    ensures is { (p : Program) (R : APath) → IsFilled p t.now → IsAt t.now.known.items j R
        → IsTrue result ↔ ((j < k) × IsClass p R) }
    ensures within { IsTrue result → j < length t.now.known.items }
{
    if j >= k {
        return false;
    }
    is_class(t, j)
}

/// Whether one of the numbers is that of a class, and lower.
fn has_earlier(t: &Table, numbers: &[usize], k: usize) -> bool
    ensures { (p : Program) → IsFilled p t.now → IsTrue result ↔ HasEarlier p t.now.known.items numbers.now k }
{
    for j in numbers {
        if is_earlier(t, *j, k) {
            return true;
        }
    }
    false
}

/// Whether the number is that of the first class of a group.
pub fn is_first(t: &Table, kin: &Kin, k: usize) -> bool
    ensures { OfGroups t.now kin.now (λ p. IsTrue result ↔ FirstAt p t.now.known.items k) }
{
    if !is_class(t, k) {
        return false;
    }
    !has_earlier(t, related_to(kin, k), k)
}

/// The numbers of the first classes of all groups.
pub fn firsts_of(alloc: Global, t: &Table, kin: &Kin) -> Result<Vec<usize>, AllocError>
    ensures { IfOk result (λ all. OfGroups t.now kin.now (λ p. Lists (FirstAt p t.now.known.items) all.items)) }
{
    let mut all = Vec::new(alloc);
    for k in 0..t.known().len() {
        if is_first(t, kin, k) {
            all.push(k)?;
        }
    }
    Ok(all)
}

/// The first of the numbers that is that of the first class of a group.
fn first_among(t: &Table, kin: &Kin, numbers: &[usize]) -> Option<usize>
    ensures some { IfSome result (λ f. Contains numbers.now f × OfGroups t.now kin.now (λ p. FirstAt p
        t.now.known.items f)) }
    ensures none { IfNone result (OfGroups t.now kin.now (λ p. (f : ℕ) → Contains numbers.now f
        → FirstAt p t.now.known.items f → ⊥)) }
{
    for f in numbers {
        if is_first(t, kin, *f) {
            return Some(*f);
        }
    }
    None
}

/// The number of the first class that is related to that of the number.
pub fn first_of(t: &Table, kin: &Kin, k: usize) -> Option<usize>
    ensures some { IfSome result (λ f. OfGroups t.now kin.now (λ p. (V : APath) → IsAt t.now.known.items k V
        → IsClass p V → FirstOf p t.now.known.items V f)) }
    ensures none { IfNone result (OfGroups t.now kin.now (λ p. (V : APath) → IsAt t.now.known.items k V
        → IsClass p V → ⊥)) }
{
    first_among(t, kin, related_to(kin, k))
}

/// The number of the family of the number, where those of all lower numbers are known.
fn family_number(t: &Table, families: &[usize], id: ClassId) -> usize
    requires filled { IsFilledAt t.now id }
    requires long { length families.now ≡ id.0 }
    requires low { AreLow families.now }
    ensures low { result ≤ id.0 }
    ensures is { (p : Program) (V : APath) (X : AName) → IsFilled p t.now
        → FamiliesTo t.now.known.items id.0 families.now → IsAt t.now.known.items id.0 V → family_of V ≡ Some X
        → IsAt t.now.known.items result (X ∷ []) }
{
    match t.row(id).up {
        None => id.0 as usize,
        Some(up) => match at(families, up.0 as usize) {
            None => id.0 as usize,
            Some(family) => *family,
        },
    }
}

/// For each number that of its family.
pub fn families_of(alloc: Global, t: &Table) -> Result<Vec<usize>, AllocError>
    ensures long { IfOk result (λ all. length all.items ≡ length t.now.known.items) }
    ensures low { IfOk result (λ all. AreLow all.items) }
    ensures is { IfOk result (λ all. (p : Program) → IsFilled p t.now
        → FamiliesTo t.now.known.items (length t.now.known.items) all.items) }
{
    let mut all = Vec::new(alloc);
    for k in 0..t.known().len() {
        let family = family_number(t, &all, ClassId(k as u16));
        all.push(family)?;
    }
    Ok(all)
}

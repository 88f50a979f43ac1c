ghost use Rattle.std.specs.Prelude.{◌≡◌, ◌<◌, ◌≤◌, [], ◌∷◌, ℕ, List, Contains, Some, slice_get, length, map, IfOk, IfSome, IfNone};
ghost use Rattle.jn_reach.specs.Graph.{Lists};
ghost use Rattle.jn_base.specs.declared.tree.Name.{Name as AName};
ghost use Rattle.jn_base.specs.declared.tree.Program.{Program};
ghost use Rattle.jn_base.specs.Paths.{Path as APath};
ghost use Rattle.jn_table.specs.declared.table.Table.{Table as ATable};
ghost use Rattle.jn_table.specs.Rows.{IsRow};
ghost use Rattle.jn_table.specs.Tables.{IsFilled};
ghost use Rattle.jn_sem.specs.Sharing.{IsClass, Related, family_of};
ghost use Rattle.jn_share.specs.Pairing.{IsAt};
ghost use Rattle.jn_agree.specs.Naming.{Naming};
ghost use Rattle.jn_agree.specs.Rows.{UpIs, GroupIs, HasOther, FirstsAre};
ghost use Rattle.jn_layout.specs.Kin.{OfGroups, FirstAt};
ghost use Rattle.jn_layout.specs.Pairs.{AreEntries, Gathers, OnlyIs};
ghost use Rattle.jn_layout.specs.Parts.{AreClassesOf, MemberAt, member_pair, OtherPair, OfFamilies, OfKin};

use crate::kin::{Kin, first_of, is_class, related_to};
use crate::pairs::{Pair, in_order};
use jn_table::{Row, RowMember, Table};
use sqlite_items::at;
use std::alloc::{AllocError, Global};

/// The number of the class in which that of the row stands, 65535 at the top.
pub fn up_of(row: &Row) -> u16
    ensures { (p : Program) (t : ATable) (n : Naming) (R : APath) → AreClassesOf t n → IsRow p t.known.items R row.now
        → UpIs n R result }
{
    match row.up {
        None => 65535,
        Some(up) => up.0,
    }
}

/// The number in two bytes.
pub fn two_bytes(k: usize) -> u16
    ensures { k ≤ 65535 → result ≡ k }
{
    k.min(65535) as u16
}

/// The number in four bytes.
pub fn four_bytes(k: usize) -> u32
    ensures { k < 4294967296 → result ≡ k }
{
    k.min(4_294_967_295) as u32
}

/// The number of the family of the class of the number.
pub fn family_of(families: &[usize], k: usize) -> u16
    ensures { (t : ATable) → OfFamilies t families.now (λ p n. (R : APath) (Y : AName) → IsAt t.known.items k R
        → family_of R ≡ Some Y → slice_get n.classes result ≡ Some (Y ∷ [])) }
{
    match at(families, k) {
        None => 65535,
        Some(family) => two_bytes(*family),
    }
}

/// The place of the number.
fn place_of(firsts: &[usize], first: usize) -> Option<usize>
    ensures some { IfSome result (λ g. slice_get firsts.now g ≡ Some first) }
    ensures none { IfNone result (Contains firsts.now first → ⊥) }
{
    for (place, other) in firsts.iter().enumerate() {
        if *other == first {
            return Some(place);
        }
    }
    None
}

/// The number of the group of the class, 65535 for a package. The first classes of the groups are these.
pub fn group_of(t: &Table, kin: &Kin, firsts: &[usize], k: usize) -> u16
    ensures { OfGroups t.now kin.now (λ p. (n : Naming) (R : APath) → Lists (FirstAt p t.now.known.items) firsts.now
        → FirstsAre p n.groups → length n.groups < 65535 → IsAt t.now.known.items k R → GroupIs p n R result) }
{
    if !is_class(t, k) {
        return 65535;
    }
    match first_of(t, kin, k) {
        None => 65535,
        Some(first) => match place_of(firsts, first) {
            None => 65535,
            Some(group) => two_bytes(group),
        },
    }
}

/// The members with the numbers of their names.
fn member_pairs(alloc: Global, members: &[RowMember]) -> Result<Vec<Pair>, AllocError>
    ensures { IfOk result (λ all. all.items ≡ map member_pair members.now) }
{
    let mut all = Vec::new(alloc);
    for m in members {
        all.push(Pair {
            key: m.name.0,
            value: m.id.0 as u32,
        })?;
    }
    Ok(all)
}

/// The members of the class, by the numbers of their names.
pub fn members_of(alloc: Global, row: &Row) -> Result<Vec<Pair>, AllocError>
    ensures { IfOk result (λ all. (p : Program) (t : ATable) (n : Naming) (R : APath) → IsFilled p t
        → AreClassesOf t n → IsRow p t.known.items R row.now → AreEntries (MemberAt n R) all.items) }
{
    let pairs = member_pairs(alloc, &row.members)?;
    in_order(pairs)
}

/// The family of the class `j` with that class, where it is another family than that of the class `k`.
fn other_pair(families: &[usize], k: usize, j: usize) -> Option<Pair>
    ensures { (t : ATable) → OfFamilies t families.now (λ p n. (R S : APath) → IsAt t.known.items k R
        → IsAt t.known.items j S → Related p S R → OnlyIs (OtherPair p n R j) result) }
{
    match at(families, k) {
        None => None,
        Some(own) => match at(families, j) {
            None => None,
            Some(family) => {
                if *own == *family {
                    return None;
                }
                let key = four_bytes(*family);
                let value = four_bytes(j);
                Some(Pair { key, value })
            }
        },
    }
}

/// The class `j` with its family, where it is a class of another family than the class `k`.
fn other_at(t: &Table, families: &[usize], k: usize, j: usize) -> Option<Pair>
    ensures { OfFamilies t.now families.now (λ p n. (R : APath) → IsAt t.now.known.items k R
        → ((S : APath) → IsAt t.now.known.items j S → IsClass p S → Related p S R)
        → OnlyIs (OtherPair p n R j) result) }
{
    if !is_class(t, j) {
        return None;
    }
    other_pair(families, k, j)
}

/// The counterparts of the class `k` among these numbers, which are those of its group.
fn other_pairs(
    alloc: Global,
    t: &Table,
    families: &[usize],
    numbers: &[usize],
    k: usize,
) -> Result<Vec<Pair>, AllocError>
    ensures { IfOk result (λ all. OfFamilies t.now families.now (λ p n. (R : APath) → IsAt t.now.known.items k R
        → ((j : ℕ) (S : APath) → Contains numbers.now j → IsAt t.now.known.items j S → IsClass p S → Related p S R)
        → Gathers (OtherPair p n R) numbers.now all.items)) }
{
    let mut all = Vec::new(alloc);
    for j in numbers {
        match other_at(t, families, k, *j) {
            None => {}
            Some(pair) => all.push(pair)?,
        }
    }
    Ok(all)
}

/// The counterparts of the class in other families, by the numbers of these. A package has none.
pub fn others_of(
    alloc: Global,
    t: &Table,
    kin: &Kin,
    families: &[usize],
    k: usize,
) -> Result<Vec<Pair>, AllocError>
    ensures { IfOk result (λ all. OfKin t.now kin.now families.now (λ p n. (R : APath)
        → IsAt t.now.known.items k R → AreEntries (HasOther p n R) all.items)) }
{
    if !is_class(t, k) {
        let none = Vec::new(alloc);
        return in_order(none);
    }
    let pairs = other_pairs(alloc, t, families, related_to(kin, k), k)?;
    in_order(pairs)
}

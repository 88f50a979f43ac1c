ghost use Rattle.std.specs.Prelude.{◌≡◌, ◌<◌, ◌≤◌, ◌⊎◌, ◌↔◌, false, true, [], ℕ, Some, Contains, slice_get, length, IsTrue, IfOk};
ghost use Rattle.std.specs.List.Sorted.{IsStrictlyIncreasing};
ghost use Rattle.jn_base.specs.declared.tree.Name.{Name as AName};
ghost use Rattle.jn_base.specs.declared.tree.Program.{Program};
ghost use Rattle.jn_base.specs.Paths.{Path as APath};
ghost use Rattle.jn_table.specs.Tables.{IsFilled, IsFilledAt};
ghost use Rattle.jn_table.specs.declared.field_types.FieldTy.{FieldTy as AFieldTy};
ghost use Rattle.jn_sem.specs.Sharing.{IsClass as IsClassOf, HangsOnThis};
ghost use Rattle.jn_sem.specs.Slots.{FieldHangs};
ghost use Rattle.jn_share.specs.Firsts.{PlaceIs, SaysDecl, HasOther, AreRelated, IsFirstSlot, AreFieldFirsts, FirstsTo};
ghost use Rattle.jn_share.specs.Members.{AreGroupMembers};
ghost use Rattle.jn_share.specs.Pairing.{IsAt};
ghost use Rattle.jn_share.specs.Parting.{SamePart, SameField};
ghost use Rattle.jn_share.specs.Prepared.{IsDecl};
ghost use Rattle.jn_share.specs.Refining.{AreSettled, SaysClass, SaysOfAll};

use crate::alike::{decls_of, hangs_on_this, same_field};
use crate::field_first::FieldFirst;
use crate::groups::Groups;
use crate::members::{GroupMembers, members_of};
use crate::pairs::{filled, is_class};
use crate::prepared::Prepared;
use jn_base::compare::is_name;
use jn_base::tree::Name;
use jn_table::{ClassId, FieldTypes, Table};
use sqlite_items::at;
use std::alloc::{AllocError, Global};

/// The place of the name, none where it isn't there.
fn place_of(names: &[Name], name: Name) -> Option<usize>
    ensures { PlaceIs names.now name result }
{
    for i in 0..names.len() {
        if is_name(names[i], name) {
            return Some(i);
        }
    }
    None
}

/// What stands at the place.
fn number_at(numbers: &[usize], i: usize) -> Option<usize>
    ensures { result ≡ slice_get numbers.now i }
{
    numbers.get(i).copied()
}

/// The number of the declaration of the field of the number's class, none where it has no such field.
fn decl_of(t: &Table, all: &Prepared, id: ClassId, field: Name) -> Option<usize>
    requires { IsFilledAt t.now id }
    ensures { SaysDecl t.now all.now id field result }
{
    match place_of(&t.row(id).fields, field) {
        None => None,
        Some(i) => number_at(decls_of(all, id), i),
    }
}

/// Whether the path of the first number is a class that has the field, and has it as one field with the class of the
/// second.
fn has_same(
    t: &Table,
    g: &Groups,
    types: &FieldTypes,
    all: &Prepared,
    parts: &[usize],
    r: usize,
    v: ClassId,
    field: Name,
    dv: usize,
) -> bool
    ensures within { IsTrue result → r < length t.now.known.items }
    ensures yes { IsTrue result → SaysClass t.now g.now types.now all.now v.0 (λ p V. (R : APath)
        → IsAt t.now.known.items r R → IsDecl p t.now.known.items types.now.list.items V field dv
        → IsClassOf p R × SameField p (SamePart t.now.known.items parts.now) R V field) }
    ensures no { result ≡ false → SaysClass t.now g.now types.now all.now v.0 (λ p V. (R : APath)
        → IsAt t.now.known.items r R → IsDecl p t.now.known.items types.now.list.items V field dv → IsClassOf p R
        → HasOther p (SamePart t.now.known.items parts.now) V field R) }
{
    match filled(t, r) {
        None => false,
        Some(id) => {
            if !is_class(t, r) {
                return false;
            }
            match decl_of(t, all, id, field) {
                None => false,
                Some(dr) => same_field(t, g, types, all, parts, id, dr, v, dv),
            }
        }
    }
}

/// The first of the numbers whose class has the field in one slot with the class, in their order; the class itself
/// where there is none before it.
fn first_same(
    t: &Table,
    g: &Groups,
    types: &FieldTypes,
    all: &Prepared,
    parts: &[usize],
    among: &[usize],
    v: ClassId,
    field: Name,
    dv: usize,
) -> usize
    requires { IsStrictlyIncreasing among.now }
    ensures { SaysClass t.now g.now types.now all.now v.0 (λ p V. AreSettled p t.now.known.items parts.now
        → AreRelated p t.now.known.items among.now V → IsDecl p t.now.known.items types.now.list.items V field dv
        → IsFirstSlot p t.now.known.items V field result) }
{
    for r in among {
        if *r >= v.0 as usize {
            return v.0 as usize;
        }
        if has_same(t, g, types, all, parts, *r, v, field, dv) {
            return *r;
        }
    }
    v.0 as usize
}

/// Whether the type of the declaration hangs on `this`.
fn hangs_at(types: &FieldTypes, d: usize) -> bool
    ensures { (x : AFieldTy) → slice_get types.now.list.items d ≡ Some x → IsTrue result ↔ HangsOnThis x.ty }
{
    match at(&types.list, d) {
        None => false,
        Some(x) => hangs_on_this(&x.ty),
    }
}

/// The number, or 0 where there is none.
fn or_zero(number: Option<usize>) -> usize
    ensures { (d : ℕ) → number ≡ Some d → result ≡ d }
{
    match number {
        None => 0,
        Some(d) => d,
    }
}

/// The field of the class, by its declaration.
fn field_first(
    t: &Table,
    g: &Groups,
    types: &FieldTypes,
    all: &Prepared,
    parts: &[usize],
    among: &[usize],
    v: ClassId,
    field: Name,
    declared: Option<usize>,
) -> FieldFirst
    requires { IsStrictlyIncreasing among.now }
    ensures field { result.field ≡ field }
    ensures is { SaysClass t.now g.now types.now all.now v.0 (λ p V. AreSettled p t.now.known.items parts.now
        → AreRelated p t.now.known.items among.now V → (d : ℕ) → declared ≡ Some d
        → IsDecl p t.now.known.items types.now.list.items V field d
        → IsFirstSlot p t.now.known.items V field result.first × ((result.hangs ≡ true) ↔ FieldHangs p V field)) }
{
    let d = or_zero(declared);
    FieldFirst {
        field,
        first: first_same(t, g, types, all, parts, among, v, field, d),
        hangs: hangs_at(types, d),
    }
}

/// The fields of a class.
fn firsts_row(
    alloc: Global,
    t: &Table,
    g: &Groups,
    types: &FieldTypes,
    all: &Prepared,
    parts: &[usize],
    among: &[usize],
    v: ClassId,
) -> Result<Vec<FieldFirst>, AllocError>
    requires filled { IsFilledAt t.now v }
    requires ascending { IsStrictlyIncreasing among.now }
    ensures { IfOk result (λ row. SaysClass t.now g.now types.now all.now v.0
        (λ p V. AreSettled p t.now.known.items parts.now → AreRelated p t.now.known.items among.now V
        → AreFieldFirsts p t.now.known.items V row.items)) }
{
    let fields = t.row(v).fields.as_slice();
    let decls = decls_of(all, v);
    let mut row = Vec::new(alloc);
    for i in 0..fields.len() {
        let d = number_at(decls, i);
        row.push(field_first(t, g, types, all, parts, among, v, fields[i], d))?;
    }
    Ok(row)
}

/// The fields of a class; a package has none.
fn class_row(
    alloc: Global,
    t: &Table,
    g: &Groups,
    types: &FieldTypes,
    all: &Prepared,
    parts: &[usize],
    lists: &GroupMembers,
    v: ClassId,
) -> Result<Vec<FieldFirst>, AllocError>
    requires filled { IsFilledAt t.now v }
    requires within { v.0 < length t.now.known.items }
    requires lists { AreGroupMembers g.now lists.now }
    ensures class { IfOk result (λ row. SaysClass t.now g.now types.now all.now v.0
        (λ p V. AreSettled p t.now.known.items parts.now → AreFieldFirsts p t.now.known.items V row.items)) }
    ensures package { IfOk result (λ row. (p : Program) (V : APath) → IsFilled p t.now
        → IsAt t.now.known.items v.0 V → (IsClassOf p V → ⊥) → row.items ≡ []) }
{
    if !is_class(t, v.0 as usize) {
        return Ok(Vec::new(alloc));
    }
    let among = members_of(lists, v.0 as usize);
    let row = firsts_row(alloc, t, g, types, all, parts, among, v)?;
    Ok(row)
}

/// The fields of each class.
pub fn firsts_of(
    alloc: Global,
    t: &Table,
    g: &Groups,
    types: &FieldTypes,
    all: &Prepared,
    parts: &[usize],
    lists: &GroupMembers,
) -> Result<Vec<Vec<FieldFirst>>, AllocError>
    requires { AreGroupMembers g.now lists.now }
    ensures long { IfOk result (λ rows. length rows.items ≡ length t.now.known.items) }
    ensures firsts { IfOk result (λ rows. SaysOfAll t.now g.now types.now all.now
        (λ p. AreSettled p t.now.known.items parts.now → FirstsTo p t.now (length t.now.known.items) rows.items)) }
{
    let mut rows = Vec::new(alloc);
    for k in 0..t.known().len() {
        let row = class_row(alloc, t, g, types, all, parts, lists, ClassId(k as u16))?;
        rows.push(row)?;
    }
    Ok(rows)
}

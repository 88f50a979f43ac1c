//! Masks by their names.

ghost use Rattle.std.specs.Prelude.{◌≡◌, ◌↔◌, IsTrue};
ghost use Rattle.jn_base.specs.Atoms.{HasMask};
ghost use Rattle.jn_base.specs.ResolveTypes.{mask_names};
ghost use Rattle.jn_sem.specs.Values.{Masked};
ghost use Rattle.jn_base.specs.ClassOrder.{name_bytes};
ghost use Rattle.jn_rules.specs.Questions.{masks_of, mask_cmp, IsFirstMask, Answers, Finds};
ghost use Rattle.jn_expr.specs.Masking.{IsEarlier, NextFirst};

use jn_base::tree::{Name, Program};
use jn_base::types::{Masks, Ty};
use jn_masks::has;
use std::cmp::Ordering;

/// The masks of a type, none where it is no class type.
pub fn masks_of(ty: &Ty) -> Masks
    ensures { result ≡ masks_of ty.now }
{
    match ty {
        Ty::Class(_, m) => *m,
        Ty::Int => Masks([0, 0, 0, 0]),
        Ty::Bool => Masks([0, 0, 0, 0]),
        Ty::Null => Masks([0, 0, 0, 0]),
        Ty::Void => Masks([0, 0, 0, 0]),
    }
}

/// Whether `i` is one of the masks, and its name is that of the field.
fn is_mask(m: Masks, i: usize, name: Name, field: Name) -> bool
    ensures { IsTrue result ↔ (HasMask m i × (name ≡ field)) }
{
    i < 256 && name.0 == field.0 && has(m, i as u8)
}

/// Whether the field is one of the masks, whose names these are.
fn has_mask(m: Masks, names: &[Name], field: Name) -> bool
    ensures { IsTrue result ↔ Masked names.now m field }
{
    for (i, name) in names.iter().enumerate() {
        if is_mask(m, i, *name, field) {
            return true;
        }
    }
    false
}

/// Whether the field is masked.
pub fn is_masked(m: Masks, names: &[Name], field: Name) -> bool
    ensures { Answers (Masked names.now m field) result }
{
    has_mask(m, names, field)
}

/// The bytes of a name, none where there is no such name.
fn text_of(p: &Program, n: Name) -> &[u8]
    ensures { result.now ≡ name_bytes p.now n }
{
    match p.names.as_slice().get(n.0 as usize) {
        Some(text) => text.bytes.as_slice(),
        None => &[],
    }
}

/// By the bytes of the names, and then by their numbers.
fn mask_order(p: &Program, a: Name, b: Name) -> Ordering
    ensures { result ≡ mask_cmp p.now a b }
{
    text_of(p, a).cmp(text_of(p, b)).then(a.0.cmp(&b.0))
}

/// Whether the number is one of the masks.
fn is_in(m: Masks, i: usize) -> bool
    ensures { IsTrue result ↔ HasMask m i }
{
    i < 256 && has(m, i as u8)
}

/// The first of what was found and another name.
fn earlier(p: &Program, found: Option<Name>, name: Name) -> Name
    ensures { IsEarlier p.now found name result }
{
    match found {
        None => name,
        Some(other) => match mask_order(p, name, other) {
            Ordering::Less => name,
            Ordering::Equal => other,
            Ordering::Greater => other,
        },
    }
}

/// What is found behind the name of the number `i`.
fn next_first(p: &Program, m: Masks, i: usize, name: Name, found: Option<Name>) -> Option<Name>
    ensures { NextFirst p.now m i name found result }
{
    if is_in(m, i) {
        return Some(earlier(p, found, name));
    }
    found
}

/// The first mask by name, where there is one. `names` has the names of the program's masks.
pub fn first_mask(p: &Program, m: Masks, names: &[Name]) -> Option<Name>
    ensures { names.now ≡ mask_names p.now → Finds (IsFirstMask p.now m) result }
{
    let mut found = None;
    for (i, name) in names.iter().enumerate() {
        found = next_first(p, m, i, *name, found);
    }
    found
}

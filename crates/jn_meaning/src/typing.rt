//! Whether a value is in a type.

ghost use Rattle.std.specs.Prelude.{◌≡◌, ◌↔◌, IsTrue, IfOk};
ghost use Rattle.jn_base.specs.Atoms.{HasMask};
ghost use Rattle.jn_sem.specs.Sharing.{IsClass};
ghost use Rattle.jn_sem.specs.Values.{Masked, FieldsFilled};
ghost use Rattle.jn_sem.specs.State.{HasValue, IsIn};
ghost use Rattle.jn_meaning.specs.World.{Stands};
ghost use Rattle.jn_meaning.specs.Values.{path_at, value_of};
ghost use Rattle.jn_meaning.specs.Heaps.{heap_of};
ghost use Rattle.jn_meaning.specs.Seen.{views_of};
ghost use Rattle.jn_meaning.specs.Typing.{TakesNull, OfClass, IsObjectIn};

use crate::classes::is_class;
use crate::fault::MeanFault;
use crate::finding::slot_at;
use crate::heap::{Heap, value_at};
use crate::seen::{Seen, is_in_type};
use crate::value::Value;
use crate::world::World;
use jn_base::tree::Name;
use jn_base::types::{Masks, Ty};
use jn_masks::has;
use jn_table::{ClassId, Table};
use std::alloc::Global;

/// Whether `i` is one of the masks, and its name is that of the field.
fn is_mask(m: Masks, i: usize, name: Name, field: Name) -> bool
    ensures { IsTrue result ↔ (HasMask m i × (name ≡ field)) }
{
    i < 256 && name.0 == field.0 && has(m, i as u8)
}

/// Whether the field is one of the masks.
fn is_masked(m: Masks, names: &[Name], field: Name) -> bool
    ensures { IsTrue result ↔ Masked names.now m field }
{
    for (i, name) in names.iter().enumerate() {
        if is_mask(m, i, *name, field) {
            return true;
        }
    }
    false
}

/// Whether the field of the object has a value, as the class sees it.
fn has_value(w: &World, t: &Table, h: &Heap, o: usize, id: ClassId, f: Name) -> bool
    requires stands { Stands w.now t.now }
    requires class { IsClass w.now.program.now (path_at t.now.known.items id) }
    ensures { IsTrue result ↔ HasValue w.now.program.now (heap_of t.now.known.items h.now) o (path_at t.now.known.items id) f }
{
    match slot_at(w, t, id, f) {
        None => false,
        Some(s) => match value_at(t, h, o, s) {
            None => false,
            Some(_) => true,
        },
    }
}

/// Whether it has one, or is masked.
fn is_given(w: &World, t: &Table, h: &Heap, o: usize, id: ClassId, m: Masks, f: Name) -> bool
    requires stands { Stands w.now t.now }
    requires class { IsClass w.now.program.now (path_at t.now.known.items id) }
    ensures { IsTrue result ↔ ((Masked w.now.masks.now m f → ⊥) → HasValue w.now.program.now (heap_of t.now.known.items h.now) o (path_at t.now.known.items id) f) }
{
    if is_masked(m, w.masks, f) {
        return true;
    }
    has_value(w, t, h, o, id, f)
}

/// Whether each field of the class has one, but for the masked ones.
fn fields_filled(w: &World, t: &Table, h: &Heap, o: usize, id: ClassId, m: Masks) -> bool
    requires stands { Stands w.now t.now }
    requires class { IsClass w.now.program.now (path_at t.now.known.items id) }
    ensures { IsTrue result ↔ FieldsFilled w.now.program.now w.now.masks.now (HasValue w.now.program.now (heap_of t.now.known.items h.now) o (path_at t.now.known.items id)) m (path_at t.now.known.items id) }
{
    for field in &t.row(id).fields {
        if !is_given(w, t, h, o, id, m, *field) {
            return false;
        }
    }
    true
}

fn is_int(ty: &Ty) -> bool
    ensures { IsTrue result ↔ (ty.now ≡ Ty.Int) }
{
    match ty {
        Ty::Int => true,
        Ty::Bool => false,
        Ty::Null => false,
        Ty::Void => false,
        Ty::Class(_, _) => false,
    }
}

fn is_bool(ty: &Ty) -> bool
    ensures { IsTrue result ↔ (ty.now ≡ Ty.Bool) }
{
    match ty {
        Ty::Bool => true,
        Ty::Int => false,
        Ty::Null => false,
        Ty::Void => false,
        Ty::Class(_, _) => false,
    }
}

fn takes_null(ty: &Ty) -> bool
    ensures { IsTrue result ↔ TakesNull ty.now }
{
    match ty {
        Ty::Class(_, _) => true,
        Ty::Null => true,
        Ty::Int => false,
        Ty::Bool => false,
        Ty::Void => false,
    }
}

/// Whether a reference is in a class type.
fn is_object_in(
    alloc: Global,
    w: &World,
    t: &Table,
    h: &Heap,
    seen: &Seen,
    ty: &Ty,
    m: Masks,
    o: usize,
    id: ClassId,
) -> Result<bool, MeanFault>
    requires stands { Stands w.now t.now }
    requires form { OfClass ty.now m }
    ensures { IfOk result (λ b. IsTrue b ↔ IsObjectIn w.now t.now.known.items h.now seen.now ty.now o id) }
{
    if !is_class(t, id) {
        return Err(MeanFault::Memory);
    }
    if !is_in_type(alloc, t, seen, ty, id)? {
        return Ok(false);
    }
    Ok(fields_filled(w, t, h, o, id, m))
}

/// Whether a value is in a type, by these views.
pub fn is_in(
    alloc: Global,
    w: &World,
    t: &Table,
    h: &Heap,
    seen: &Seen,
    ty: &Ty,
    v: Value,
) -> Result<bool, MeanFault>
    requires { Stands w.now t.now }
    ensures { IfOk result (λ b. IsTrue b ↔ IsIn w.now.program.now (views_of t.now.known.items seen.now) (heap_of t.now.known.items h.now) ty.now (value_of t.now.known.items v)) }
{
    match v {
        Value::Number(_) => Ok(is_int(ty)),
        Value::Truth(_) => Ok(is_bool(ty)),
        Value::Null => Ok(takes_null(ty)),
        Value::Reference(o, id) => match ty {
            Ty::Class(_, m) => is_object_in(alloc, w, t, h, seen, ty, *m, o, id),
            Ty::Int => Ok(false),
            Ty::Bool => Ok(false),
            Ty::Null => Ok(false),
            Ty::Void => Ok(false),
        },
    }
}

//! What a field gives, and a reference as the class of another family sees it.

ghost use Rattle.std.specs.Prelude.{◌≡◌, ◌↔◌, Any, IsTrue, IfOk};
ghost use Rattle.jn_sem.specs.Sharing.{IsClass, HangsOnThis, family_of};
ghost use Rattle.jn_share.specs.Parts.{IsThis, OfThis};
ghost use Rattle.jn_meaning.specs.World.{Stands};
ghost use Rattle.jn_meaning.specs.Values.{path_at, value_of};
ghost use Rattle.jn_meaning.specs.Heaps.{heap_of};
ghost use Rattle.jn_meaning.specs.Asked.{FamilyTold, ViewTold, ReadTold, GotTold};

use crate::classes::{is_class, names_at};
use crate::did::Ending;
use crate::fault::MeanFault;
use crate::finding::{counterpart, slot_at};
use crate::heap::{Heap, value_at};
use crate::operators::Made;
use crate::terms::field_type;
use crate::value::Value;
use crate::world::World;
use jn_base::tree::Name;
use jn_base::types::{Anchor, Atom, Ty};
use jn_sem::outcome::Why;
use jn_table::{ClassId, Table};
use sqlite_items::at;
use std::alloc::Global;

/// Whether the anchor is one of `this`.
fn is_this(anchor: Anchor) -> bool
    ensures { IsTrue result ↔ IsThis anchor }
{
    match anchor {
        Anchor::Root => false,
        Anchor::Up(path, _) => path == 0,
    }
}

/// Whether the anchor of one of the atoms is one of `this`.
fn some_this(xs: &[Atom]) -> bool
    ensures { IsTrue result ↔ Any OfThis xs.now }
{
    for x in xs {
        if is_this(x.anchor) {
            return true;
        }
    }
    false
}

/// Whether the type hangs on `this`.
fn hangs_on_this(ty: &Ty) -> bool
    ensures { IsTrue result ↔ HangsOnThis ty.now }
{
    match ty {
        Ty::Class(xs, _) => some_this(xs.as_slice()),
        Ty::Int => false,
        Ty::Bool => false,
        Ty::Null => false,
        Ty::Void => false,
    }
}

/// The family of a class.
fn family_at(t: &Table, id: ClassId) -> Option<Name>
    ensures { FamilyTold t.now.known.items id result }
{
    match at(names_at(t, id), 0) {
        None => None,
        Some(name) => Some(*name),
    }
}

/// A reference as the class of that family sees its object.
fn reference_as(
    alloc: Global,
    w: &World,
    t: &Table,
    family: Name,
    o: usize,
    id: ClassId,
) -> Result<Made, MeanFault>
    requires { Stands w.now t.now }
    ensures { IfOk result (λ m. ViewTold w.now.program.now t.now.known.items family (Value.Reference o id) m) }
{
    if !is_class(t, id) {
        return Err(MeanFault::Memory);
    }
    let found = counterpart(alloc, w, t, family, id)?;
    match found {
        None => Ok(Made::Fails(Ending::Stuck(Why::Missing))),
        Some(other) => Ok(Made::Gives(Value::Reference(o, other))),
    }
}

/// A value as the class of that family sees its object; null stays null.
pub fn viewed(
    alloc: Global,
    w: &World,
    t: &Table,
    family: Name,
    v: Value,
) -> Result<Made, MeanFault>
    requires { Stands w.now t.now }
    ensures { IfOk result (λ m. ViewTold w.now.program.now t.now.known.items family v m) }
{
    match v {
        Value::Reference(o, id) => reference_as(alloc, w, t, family, o, id),
        Value::Null => Ok(Made::Gives(Value::Null)),
        Value::Number(_) => Ok(Made::Fails(Ending::Stuck(Why::Kind))),
        Value::Truth(_) => Ok(Made::Fails(Ending::Stuck(Why::Kind))),
    }
}

/// What a field of the type gives where its slot has the reference, read at the class.
fn read_reference(
    alloc: Global,
    w: &World,
    t: &Table,
    id: ClassId,
    ty: &Ty,
    o: usize,
    other: ClassId,
) -> Result<Made, MeanFault>
    requires { Stands w.now t.now }
    ensures { IfOk result (λ m. ReadTold w.now.program.now t.now.known.items id ty.now (Value.Reference o other) m) }
{
    if !hangs_on_this(ty) {
        return Ok(Made::Gives(Value::Reference(o, other)));
    }
    match family_at(t, id) {
        None => Ok(Made::Fails(Ending::Stuck(Why::Missing))),
        Some(family) => viewed(alloc, w, t, family, Value::Reference(o, other)),
    }
}

/// What a field of the type gives where its slot has the value, read at the class.
fn read_value(
    alloc: Global,
    w: &World,
    t: &Table,
    id: ClassId,
    ty: &Ty,
    v: Value,
) -> Result<Made, MeanFault>
    requires { Stands w.now t.now }
    ensures { IfOk result (λ m. ReadTold w.now.program.now t.now.known.items id ty.now v m) }
{
    match v {
        Value::Reference(o, other) => read_reference(alloc, w, t, id, ty, o, other),
        Value::Null => Ok(Made::Gives(Value::Null)),
        Value::Number(z) => Ok(Made::Gives(Value::Number(z))),
        Value::Truth(b) => Ok(Made::Gives(Value::Truth(b))),
    }
}

/// What the field of the object gives, as the class sees it.
pub fn field_value(
    alloc: Global,
    w: &World,
    t: &mut Table,
    h: &Heap,
    o: usize,
    id: ClassId,
    f: Name,
) -> Result<Made, MeanFault>
    requires stands { Stands w.now t.old }
    requires class { IsClass w.now.program.now (path_at t.old.known.items id) }
    ensures told { IfOk result (λ m. GotTold w.now.program.now t.old.known.items h.now o id f m) }
    ensures kept { t.new ≡ t.old }
{
    let found = field_type(alloc, w, t, id, f)?;
    match found {
        None => Ok(Made::Fails(Ending::Stuck(Why::Missing))),
        Some(ty) => match slot_at(w, t, id, f) {
            None => Ok(Made::Fails(Ending::Stuck(Why::Missing))),
            Some(s) => match value_at(t, h, o, s) {
                None => Ok(Made::Fails(Ending::Stuck(Why::Masked))),
                Some(v) => read_value(alloc, w, t, id, &ty, v),
            },
        },
    }
}

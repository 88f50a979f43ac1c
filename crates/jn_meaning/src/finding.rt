//! What a step asks of the program: bodies, fields, slots and counterparts.

ghost use Rattle.std.specs.Prelude.{◌≡◌, ◌≤◌, [], ◌∷◌, reverse, drop, length, IfOk, option_copied};
ghost use Rattle.jn_base.specs.Duplicates.{duplicates};
ghost use Rattle.jn_base.specs.Members.{MethodAt, FieldAt};
ghost use Rattle.jn_base.specs.Paths.{methods, fields};
ghost use Rattle.jn_table.specs.Tables.{IsFilledAt};
ghost use Rattle.jn_sem.specs.Sharing.{IsClass, in_family};
ghost use Rattle.jn_share.specs.Slots.{HasSlot};
ghost use Rattle.jn_meaning.specs.World.{Stands};
ghost use Rattle.jn_meaning.specs.Values.{path_at};
ghost use Rattle.jn_meaning.specs.Tells.{Tells, IsMethodNamed, IsFieldNamed, BodyTold, SlotTold, OneSlotTold, CounterpartTold};

use crate::classes::{class_at, names_at};
use crate::heap::Slot;
use crate::world::World;
use jn_base::path::Path;
use jn_base::tree::{Field, Member, Method, Name, Program};
use jn_homes::decl_near;
use jn_names::Least;
use jn_table::{ClassId, Table};
use sqlite_items::{Items, at};
use std::alloc::{AllocError, Global};

/// A body that was found: the class that declares it, and the method.
#[derive(Clone, Copy)]
pub struct Found<'a> {
    pub class: ClassId,
    pub method: &'a Method,
}

/// The member, where it is a method of this name.
fn method_of(member: &Member, m: Name) -> Option<&Method>
    ensures { Tells (IsMethodNamed (methods (member.now ∷ [])) m) (option_copied result) }
{
    match member {
        Member::Body(x) => { if x.name.name.0 == m.0 { Some(x) } else { None } }
        Member::Inner(_) => None,
        Member::Slot(_) => None,
    }
}

/// The first method of this name.
fn method_named(members: &[Member], m: Name) -> Option<&Method>
    ensures { Tells (IsMethodNamed (methods members.now) m) (option_copied result) }
{
    for member in members {
        if let Some(x) = method_of(member, m) {
            return Some(x);
        }
    }
    None
}

/// The member, where it is a field of this name.
fn field_of(member: &Member, f: Name) -> Option<&Field>
    ensures { Tells (IsFieldNamed (fields (member.now ∷ [])) f) (option_copied result) }
{
    match member {
        Member::Slot(x) => { if x.name.name.0 == f.0 { Some(x) } else { None } }
        Member::Inner(_) => None,
        Member::Body(_) => None,
    }
}

/// The first field of this name.
fn field_named(members: &[Member], f: Name) -> Option<&Field>
    ensures { Tells (IsFieldNamed (fields members.now) f) (option_copied result) }
{
    for member in members {
        if let Some(x) = field_of(member, f) {
            return Some(x);
        }
    }
    None
}

/// The method of this name in the declaration at the path of a number.
fn method_at<'a>(p: &'a Program, t: &Table, id: ClassId, m: Name) -> Option<&'a Method>
    requires { duplicates p.now ≡ [] }
    ensures { Tells (MethodAt p.now (path_at t.now.known.items id) m) (option_copied result) }
{
    match at(t.known(), id.0 as usize) {
        None => None,
        Some(path) => match decl_near(p, path, t.way(path)) {
            None => None,
            Some(decl) => method_named(decl.members.as_slice(), m),
        },
    }
}

/// The field of this name in the declaration at the path of a number.
pub fn field_at<'a>(p: &'a Program, t: &Table, id: ClassId, f: Name) -> Option<&'a Field>
    requires { duplicates p.now ≡ [] }
    ensures { Tells (FieldAt p.now (path_at t.now.known.items id) f) (option_copied result) }
{
    match at(t.known(), id.0 as usize) {
        None => None,
        Some(path) => match decl_near(p, path, t.way(path)) {
            None => None,
            Some(decl) => field_named(decl.members.as_slice(), f),
        },
    }
}

/// The least body of a method at a class.
pub fn body_of<'a>(w: &World<'a>, t: &Table, id: ClassId, m: Name) -> Option<Found<'a>>
    requires stands { Stands w.now t.now }
    requires filled { IsFilledAt t.now id }
    ensures { BodyTold w.now.program.now t.now.known.items id m result }
{
    match w.members.least(id, m) {
        Least::None => None,
        Least::Many(_, _) => None,
        Least::One(class) => match method_at(w.program, t, class, m) {
            None => None,
            Some(method) => Some(Found { class, method }),
        },
    }
}

/// Whether a class has one slot for the field with another one, which has that slot number for it.
fn has_slot(w: &World, t: &Table, k: ClassId, id: ClassId, f: Name, slot: u8) -> bool
    ensures { OneSlotTold w.now t.now k id f slot result }
{
    if !w.groups.related(k, id) {
        return false;
    }
    match w.slots.slot(k, f) {
        None => false,
        Some(other) => other == slot,
    }
}

/// The first class that has one slot for the field with a class that has that slot number for it.
fn first_with(w: &World, t: &Table, id: ClassId, f: Name, slot: u8) -> Option<Slot>
    requires stands { Stands w.now t.now }
    requires class { IsClass w.now.program.now (path_at t.now.known.items id) }
    requires has { HasSlot w.now.slots.now id f slot }
    ensures { SlotTold w.now.program.now t.now.known.items id f result }
{
    for k in 0..t.known().len() {
        let class = ClassId(k as u16);
        if has_slot(w, t, class, id, f, slot) {
            return Some(Slot { class, field: f });
        }
    }
    None
}

/// The slot of a field of a class.
pub fn slot_at(w: &World, t: &Table, id: ClassId, f: Name) -> Option<Slot>
    requires stands { Stands w.now t.now }
    requires class { IsClass w.now.program.now (path_at t.now.known.items id) }
    ensures { SlotTold w.now.program.now t.now.known.items id f result }
{
    match w.slots.slot(id, f) {
        None => None,
        Some(slot) => first_with(w, t, id, f, slot),
    }
}

/// The names behind the first one.
fn behind_first(names: &[Name]) -> &[Name]
    requires { 1 ≤ length names.now }
    ensures { result.now ≡ drop 1 names.now }
{
    &names[1..]
}

/// The path in another family.
fn in_family(alloc: Global, names: &[Name], family: Name) -> Result<Path, AllocError>
    ensures { IfOk result (λ path. reverse path.names ≡ in_family family (reverse names.now)) }
{
    let mut list = Items::new(alloc);
    if names.is_empty() {
        return Ok(Path { names: list });
    }
    list.push(family)?;
    let inner = behind_first(names);
    for name in inner {
        list.push(*name)?;
    }
    Ok(Path { names: list })
}

/// The counterpart of a class in a family.
pub fn counterpart(
    alloc: Global,
    w: &World,
    t: &Table,
    family: Name,
    id: ClassId,
) -> Result<Option<ClassId>, AllocError>
    requires stands { Stands w.now t.now }
    requires class { IsClass w.now.program.now (path_at t.now.known.items id) }
    ensures { IfOk result (λ o. CounterpartTold w.now.program.now t.now.known.items family id o) }
{
    let path = in_family(alloc, names_at(t, id), family)?;
    match class_at(t, &path) {
        None => Ok(None),
        Some(other) => {
            if w.groups.related(id, other) {
                Ok(Some(other))
            } else {
                Ok(None)
            }
        }
    }
}

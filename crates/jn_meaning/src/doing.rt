//! Acts that look at objects and at the program.

ghost use Rattle.std.specs.Prelude.{◌≡◌, ◌↔◌, ◌<◌, List, length, slice_get, Some, IsTrue, IfOk};
ghost use Rattle.jn_base.specs.declared.path.Path.{Path as ShownPath};
ghost use Rattle.jn_base.specs.declared.names.Var.{Var as AVar};
ghost use Rattle.jn_sem.specs.Acts as acts;
ghost use Rattle.jn_sem.specs.Sharing.{IsClass};
ghost use Rattle.jn_sem.specs.Slots.{IsSlot};
ghost use Rattle.jn_meaning.specs.World.{Stands};
ghost use Rattle.jn_meaning.specs.Values.{path_at};
ghost use Rattle.jn_meaning.specs.Heaps.{slot_of};
ghost use Rattle.jn_meaning.specs.Doing.{MadeDid, GetsAt, FitsFrame, Done, Changed, PutsAt, PutsIn};

use crate::classes::is_class;
use crate::did::{Did, Ending};
use crate::fault::MeanFault;
use crate::finding::slot_at;
use crate::frame::Frame;
use crate::getting::field_value;
use crate::heap::{Heap, Slot, store};
use crate::locals::{Locals, view_in};
use crate::operators::Made;
use crate::seen::Seen;
use crate::terms::field_type;
use crate::typing::is_in;
use crate::value::Value;
use crate::world::World;
use jn_base::tree::Name;
use jn_base::types::Ty;
use jn_sem::outcome::Why;
use jn_table::{ClassId, Table};
use sqlite_items::at;
use std::alloc::{AllocError, Global};

/// The frame goes on with the value, or the run ends.
pub fn go_on<'a>(f: &mut Frame<'a>, made: Made) -> Result<Did<'a>, AllocError>
    ensures { IfOk result (λ d. MadeDid f.old made d f.new) }
{
    match made {
        Made::Fails(o) => Ok(Did::Ended(o)),
        Made::Gives(v) => {
            f.vals.push(v)?;
            Ok(Did::Went)
        }
    }
}

/// A field of an object.
fn get_at<'a>(
    alloc: Global,
    w: &World,
    t: &mut Table,
    f: &mut Frame<'a>,
    h: &Heap,
    o: usize,
    id: ClassId,
    field: Name,
) -> Result<Did<'a>, MeanFault>
    requires { Stands w.now t.old }
    ensures did { IfOk result (λ d. GetsAt w.now.program.now t.old.known.items h.now o id field f.old d f.new) }
    ensures kept { t.new ≡ t.old }
{
    if !is_class(t, id) {
        return Err(MeanFault::Memory);
    }
    let made = field_value(alloc, w, t, h, o, id, field)?;
    let did = go_on(f, made)?;
    Ok(did)
}

/// A field.
pub fn get<'a>(
    alloc: Global,
    w: &World,
    t: &mut Table,
    f: &mut Frame<'a>,
    h: &Heap,
    field: Name,
) -> Result<Did<'a>, MeanFault>
    requires { Stands w.now t.old }
    ensures did { IfOk result (λ d. Done w.now t.old h.now (acts.Get field) f.old d f.new) }
    ensures kept { t.new ≡ t.old }
{
    match f.vals.pop() {
        None => Ok(Did::Ended(Ending::Stuck(Why::Missing))),
        Some(v) => match v {
            Value::Reference(o, id) => get_at(alloc, w, t, f, h, o, id, field),
            Value::Null => Ok(Did::Ended(Ending::AtNull)),
            Value::Number(_) => Ok(Did::Ended(Ending::Stuck(Why::Kind))),
            Value::Truth(_) => Ok(Did::Ended(Ending::Stuck(Why::Kind))),
        },
    }
}

/// Whether the value is in the type, by the views of the frame.
pub fn fits(
    alloc: Global,
    w: &World,
    t: &Table,
    h: &Heap,
    f: &Frame,
    ty: &Ty,
    v: Value,
) -> Result<bool, MeanFault>
    requires { Stands w.now t.now }
    ensures { IfOk result (λ b. IsTrue b ↔ FitsFrame w.now.program.now t.now.known.items h.now f.now ty.now v) }
{
    let seen = Seen {
        this: view_in(f.this),
        locals: &f.locals,
    };
    is_in(alloc, w, t, h, &seen, ty, v)
}

/// Whether it is in the type of the variable at that place.
pub fn fits_at(
    alloc: Global,
    w: &World,
    t: &Table,
    h: &Heap,
    f: &Frame,
    i: usize,
    v: Value,
) -> Result<bool, MeanFault>
    requires { Stands w.now t.now }
    ensures { IfOk result (λ b. (x : AVar) → slice_get f.now.locals.vars.list i ≡ Some x → IsTrue b ↔ FitsFrame w.now.program.now t.now.known.items h.now f.now x.ty v) }
{
    match at(f.locals.vars.list.as_slice(), i) {
        None => Err(MeanFault::Memory),
        Some(var) => fits(alloc, w, t, h, f, &var.ty, v),
    }
}

/// An assignment.
pub fn assign<'a>(
    alloc: Global,
    w: &World,
    t: &Table,
    f: &mut Frame<'a>,
    h: &Heap,
    x: Name,
) -> Result<Did<'a>, MeanFault>
    requires { Stands w.now t.now }
    ensures { IfOk result (λ d. Done w.now t.now h.now (acts.Assign x) f.old d f.new) }
{
    match f.vals.pop() {
        None => Ok(Did::Ended(Ending::Stuck(Why::Missing))),
        Some(v) => match f.locals.newest(x) {
            None => Ok(Did::Ended(Ending::Stuck(Why::Missing))),
            Some(i) => {
                if i >= f.locals.values.len() {
                    return Err(MeanFault::Memory);
                }
                if !fits_at(alloc, w, t, h, f, i, v)? {
                    return Ok(Did::Ended(Ending::Stuck(Why::Foreign)));
                }
                f.locals.set(i, v);
                Ok(Did::Went)
            }
        },
    }
}

/// The slot of the object gets the value, where it is in the type.
fn put_in<'a>(
    alloc: Global,
    w: &World,
    t: &Table,
    h: &mut Heap,
    o: usize,
    id: ClassId,
    s: Slot,
    ty: &Ty,
    v: Value,
) -> Result<Did<'a>, MeanFault>
    requires { Stands w.now t.now }
    ensures { IfOk result (λ d. PutsIn w.now.program.now t.now.known.items h.old o id s ty.now v d h.new) }
{
    if o >= h.objects.len() {
        return Ok(Did::Ended(Ending::Stuck(Why::Missing)));
    }
    let none = Locals::new(alloc);
    let seen = Seen {
        this: Some(id),
        locals: &none,
    };
    if !is_in(alloc, w, t, h, &seen, ty, v)? {
        return Ok(Did::Ended(Ending::Stuck(Why::Foreign)));
    }
    if store(t, h, o, s, v)? {
        Ok(Did::Went)
    } else {
        Err(MeanFault::Memory)
    }
}

/// A field of an object gets the value.
fn put_at<'a>(
    alloc: Global,
    w: &World,
    t: &mut Table,
    h: &mut Heap,
    o: usize,
    id: ClassId,
    field: Name,
    v: Value,
) -> Result<Did<'a>, MeanFault>
    requires { Stands w.now t.old }
    ensures did { IfOk result (λ d. PutsAt w.now.program.now t.old.known.items h.old o id field v d h.new) }
    ensures kept { t.new ≡ t.old }
{
    if !is_class(t, id) {
        return Err(MeanFault::Memory);
    }
    let found = field_type(alloc, w, t, id, field)?;
    match found {
        None => Ok(Did::Ended(Ending::Stuck(Why::Missing))),
        Some(ty) => match slot_at(w, t, id, field) {
            None => Ok(Did::Ended(Ending::Stuck(Why::Missing))),
            Some(s) => put_in(alloc, w, t, h, o, id, s, &ty, v),
        },
    }
}

/// A field assignment.
pub fn put<'a>(
    alloc: Global,
    w: &World,
    t: &mut Table,
    f: &mut Frame<'a>,
    h: &mut Heap,
    field: Name,
) -> Result<Did<'a>, MeanFault>
    requires { Stands w.now t.old }
    ensures did { IfOk result (λ d. Changed w.now t.old (acts.Put field) f.old h.old d f.new h.new) }
    ensures kept { t.new ≡ t.old }
{
    match f.vals.pop() {
        None => Ok(Did::Ended(Ending::Stuck(Why::Missing))),
        Some(v) => match f.vals.pop() {
            None => Ok(Did::Ended(Ending::Stuck(Why::Missing))),
            Some(r) => match r {
                Value::Reference(o, id) => put_at(alloc, w, t, h, o, id, field, v),
                Value::Null => Ok(Did::Ended(Ending::AtNull)),
                Value::Number(_) => Ok(Did::Ended(Ending::Stuck(Why::Kind))),
                Value::Truth(_) => Ok(Did::Ended(Ending::Stuck(Why::Kind))),
            },
        },
    }
}

//! New objects.

ghost use Rattle.std.specs.Prelude.{◌≡◌, ◌∷◌, [], List, reverse, IfOk, OnOk, MatchOption, slice_get, Bool};
ghost use Rattle.jn_base.specs.declared.path.Path.{Path as ShownPath};
ghost use Rattle.jn_sem.specs.Acts as acts;
ghost use Rattle.jn_sem.specs.Sharing.{IsClass};
ghost use Rattle.jn_sem.specs.Does as does;
ghost use Rattle.jn_sem.specs.Does.{zero_of, kept};
ghost use Rattle.jn_meaning.specs.World.{Stands};
ghost use Rattle.jn_meaning.specs.Values.{path_at, value_of, values_of};
ghost use Rattle.jn_meaning.specs.Frames.{frame_of};
ghost use Rattle.jn_meaning.specs.Creating.{AreFieldNames, FreshTold, FreshAdded, NoneFresh, AllFresh, LastTold, ConstructorTold, MadeIn, MadeAlone, MadeCalling, ConstructsAs, MakesAs, NewNamed, Acted};

use crate::classes::{class_at, names_at};
use crate::did::{Called, Callee, Did, Ending};
use crate::fault::MeanFault;
use crate::finding::{Found, body_of, slot_at};
use crate::frame::Frame;
use crate::heap::{Heap, Kept, Object};
use crate::parameters::params_of;
use crate::terms::{field_type, term_at};
use crate::value::Value;
use crate::viewing::named_by;
use crate::world::World;
use jn_base::names::Role;
use jn_base::path::Path;
use jn_base::tree::{Name, Term};
use jn_base::types::Ty;
use jn_sem::outcome::Why;
use jn_table::{ClassId, Table};
use sqlite_items::{Items, at};
use std::alloc::{AllocError, Global};

/// An object that is not made yet: its class, the cells that it takes, and the values of its slots.
#[derive(Drop)]
pub struct Fresh {
    pub id: ClassId,
    pub size: u16,
    pub stored: Vec<Kept>,
}

/// What a field of that type has at first.
fn zero_of(ty: &Ty) -> Value
    ensures { (known : List ShownPath) → value_of known result ≡ zero_of ty.now }
{
    match ty {
        Ty::Int => Value::Number(0),
        Ty::Bool => Value::Truth(false),
        Ty::Null => Value::Null,
        Ty::Void => Value::Null,
        Ty::Class(_, _) => Value::Null,
    }
}

/// What a field of a new object of the class has; none where it has no type or no slot.
fn fresh_at(
    alloc: Global,
    w: &World,
    t: &mut Table,
    id: ClassId,
    f: Name,
) -> Result<Option<Kept>, MeanFault>
    requires stands { Stands w.now t.old }
    requires class { IsClass w.now.program.now (path_at t.old.known.items id) }
    ensures told { IfOk result (λ o. FreshTold w.now.program.now t.old.known.items id f o) }
    ensures kept { t.new ≡ t.old }
{
    let found = field_type(alloc, w, t, id, f)?;
    match found {
        None => Ok(None),
        Some(ty) => match slot_at(w, t, id, f) {
            None => Ok(None),
            Some(slot) => Ok(Some(Kept {
                slot,
                value: zero_of(&ty),
            })),
        },
    }
}

/// It comes last; false where there is none.
fn add_fresh(
    alloc: Global,
    w: &World,
    t: &mut Table,
    id: ClassId,
    f: Name,
    all: &mut Vec<Kept>,
) -> Result<bool, MeanFault>
    requires stands { Stands w.now t.old }
    requires class { IsClass w.now.program.now (path_at t.old.known.items id) }
    ensures told { IfOk result (λ b. FreshAdded w.now.program.now t.old.known.items id f all.old.items all.new.items b) }
    ensures kept { t.new ≡ t.old }
{
    match fresh_at(alloc, w, t, id, f)? {
        None => Ok(false),
        Some(kept) => {
            all.push(kept)?;
            Ok(true)
        }
    }
}

/// The names of the fields of a class.
fn field_names(alloc: Global, w: &World, t: &Table, id: ClassId) -> Result<Items<Name>, AllocError>
    requires stands { Stands w.now t.now }
    requires class { IsClass w.now.program.now (path_at t.now.known.items id) }
    ensures { IfOk result (λ names. AreFieldNames w.now.program.now (path_at t.now.known.items id) names) }
{
    Items::from_slice(alloc, &t.row(id).fields)
}

/// What the fields of a new object of the class have; none where one of them has no type or no slot.
fn fresh_of(
    alloc: Global,
    w: &World,
    t: &mut Table,
    id: ClassId,
) -> Result<Option<Vec<Kept>>, MeanFault>
    requires stands { Stands w.now t.old }
    requires class { IsClass w.now.program.now (path_at t.old.known.items id) }
    ensures told { IfOk result (λ o. MatchOption o (NoneFresh w.now.program.now t.old.known.items id) (λ all. AllFresh w.now.program.now t.old.known.items id all.items)) }
    ensures kept { t.new ≡ t.old }
{
    let names = field_names(alloc, w, t, id)?;
    let mut all = Vec::new(alloc);
    for f in names.as_slice() {
        if !add_fresh(alloc, w, t, id, *f, &mut all)? {
            return Ok(None);
        }
    }
    Ok(Some(all))
}

/// The last name of the path of a number.
fn last_name(t: &Table, id: ClassId) -> Option<Name>
    ensures { LastTold t.now.known.items id result }
{
    let names = names_at(t, id);
    if names.is_empty() {
        return None;
    }
    at(names, names.len() - 1).copied()
}

/// The constructor of a class: its method of its own last name.
fn constructor_of<'a>(w: &World<'a>, t: &Table, id: ClassId) -> Option<Found<'a>>
    requires stands { Stands w.now t.now }
    requires class { IsClass w.now.program.now (path_at t.now.known.items id) }
    ensures { ConstructorTold w.now.program.now t.now.known.items id result }
{
    match last_name(t, id) {
        None => None,
        Some(name) => body_of(w, t, id, name),
    }
}

/// The object is made, and this is a reference to it; none where the arena has too few cells left.
fn add_object(h: &mut Heap, arena: u32, fresh: Fresh) -> Result<Option<Value>, MeanFault>
    ensures { IfOk result (λ o. (known : List ShownPath) → MadeIn known h.old h.new arena fresh o) }
{
    if fresh.size as u32 > arena {
        return Ok(None);
    }
    if h.used > arena - fresh.size as u32 {
        return Ok(None);
    }
    let object = h.objects.len();
    let id = fresh.id;
    let size = fresh.size as u32;
    h.objects.push(Object {
        made: id,
        stored: fresh.stored,
    })?;
    h.used += size;
    Ok(Some(Value::Reference(object, id)))
}

/// The value is kept or not.
fn keep(f: &mut Frame, keeps: bool, v: Value) -> Result<(), MeanFault>
    ensures { OnOk result ((known : List ShownPath) → frame_of known f.new ≡ record (frame_of known f.old) { vals = kept keeps (value_of known v) (values_of known f.old.vals) }) }
{
    if keeps {
        f.vals.push(v)?;
    }
    Ok(())
}

/// The object is made, and has no constructor.
fn make_alone<'a>(
    f: &mut Frame<'a>,
    h: &mut Heap,
    arena: u32,
    fresh: Fresh,
    keeps: bool,
) -> Result<Did<'a>, MeanFault>
    ensures { IfOk result (λ d. (known : List ShownPath) → MadeAlone known arena h.old fresh keeps f.old d f.new h.new) }
{
    match add_object(h, arena, fresh)? {
        None => Ok(Did::Ended(Ending::Arena)),
        Some(v) => {
            keep(f, keeps, v)?;
            Ok(Did::Went)
        }
    }
}

/// The value, and then the others.
pub fn with_first(v: Value, args: Vec<Value>) -> Result<Vec<Value>, MeanFault>
    ensures { IfOk result (λ all. all.items ≡ v ∷ args.items) }
{
    let mut all = args;
    all.insert(0, v)?;
    Ok(all)
}

/// The object is made, and its constructor is called.
fn make_calling<'a>(
    f: &mut Frame<'a>,
    h: &mut Heap,
    arena: u32,
    fresh: Fresh,
    callee: Callee<'a>,
    args: Vec<Value>,
    keeps: bool,
) -> Result<Did<'a>, MeanFault>
    ensures { IfOk result (λ d. (known : List ShownPath) → MadeCalling known arena h.old fresh callee.entry args.items keeps f.old d f.new h.new) }
{
    match add_object(h, arena, fresh)? {
        None => Ok(Did::Ended(Ending::Arena)),
        Some(v) => {
            keep(f, keeps, v)?;
            f.keeps = false;
            let args = with_first(v, args)?;
            Ok(Did::Entered(Called { callee, args }))
        }
    }
}

/// The constructor, where there is one, is called; where there is none, an argument is one too many.
fn construct<'a>(
    alloc: Global,
    w: &World<'a>,
    t: &mut Table,
    f: &mut Frame<'a>,
    h: &mut Heap,
    arena: u32,
    fresh: Fresh,
    args: Vec<Value>,
    keeps: bool,
) -> Result<Did<'a>, MeanFault>
    requires stands { Stands w.now t.old }
    requires class { IsClass w.now.program.now (path_at t.old.known.items fresh.id) }
    ensures did { IfOk result (λ d. ConstructsAs w.now.program.now t.old.known.items arena h.old fresh args.items keeps f.old d f.new h.new) }
    ensures kept { t.new ≡ t.old }
{
    match constructor_of(w, t, fresh.id) {
        None => {
            if !args.is_empty() {
                return Ok(Did::Ended(Ending::Stuck(Why::Missing)));
            }
            make_alone(f, h, arena, fresh, keeps)
        }
        Some(found) => {
            if args.len() != found.method.params.len() {
                return Ok(Did::Ended(Ending::Stuck(Why::Missing)));
            }
            let params = params_of(alloc, w, t, found.class, found.method)?;
            match params {
                None => Ok(Did::Ended(Ending::Stuck(Why::Missing))),
                Some(vars) => {
                    let callee = Callee {
                        class: found.class,
                        method: found.method,
                        vars,
                    };
                    make_calling(f, h, arena, fresh, callee, args, keeps)
                }
            }
        }
    }
}

/// A new object of a class.
fn make_at<'a>(
    alloc: Global,
    w: &World<'a>,
    t: &mut Table,
    f: &mut Frame<'a>,
    h: &mut Heap,
    arena: u32,
    id: ClassId,
    args: Vec<Value>,
    keeps: bool,
) -> Result<Did<'a>, MeanFault>
    requires stands { Stands w.now t.old }
    requires class { IsClass w.now.program.now (path_at t.old.known.items id) }
    ensures did { IfOk result (λ d. MakesAs w.now.program.now t.old.known.items arena h.old (path_at t.old.known.items id) args.items keeps f.old d f.new h.new) }
    ensures kept { t.new ≡ t.old }
{
    let size = w.slots.size(id);
    let found = fresh_of(alloc, w, t, id)?;
    match found {
        None => Ok(Did::Ended(Ending::Stuck(Why::Missing))),
        Some(stored) => {
            let fresh = Fresh { id, size, stored };
            construct(alloc, w, t, f, h, arena, fresh, args, keeps)
        }
    }
}

/// A new object of the class of these names, the outermost first.
pub fn make_named<'a>(
    alloc: Global,
    w: &World<'a>,
    t: &mut Table,
    f: &mut Frame<'a>,
    h: &mut Heap,
    arena: u32,
    names: Items<Name>,
    args: Vec<Value>,
    keeps: bool,
) -> Result<Did<'a>, MeanFault>
    requires { Stands w.now t.old }
    ensures did { IfOk result (λ d. MakesAs w.now.program.now t.old.known.items arena h.old (reverse names) args.items keeps f.old d f.new h.new) }
    ensures kept { t.new ≡ t.old }
{
    let path = Path { names };
    match class_at(t, &path) {
        None => Ok(Did::Ended(Ending::Stuck(Why::Missing))),
        Some(id) => make_at(alloc, w, t, f, h, arena, id, args, keeps),
    }
}

/// The names of the class that a term of `new` stands for in a frame; none where it stands for none.
fn new_names(
    alloc: Global,
    w: &World,
    t: &mut Table,
    f: &Frame,
    term: &Term,
) -> Result<Option<Items<Name>>, MeanFault>
    requires { Stands w.now t.old }
    ensures told { IfOk result (λ o. NewNamed w.now.program.now t.old.known.items f.now term.now o) }
    ensures kept { t.new ≡ t.old }
{
    match f.class {
        None => Err(MeanFault::Memory),
        Some(class) => {
            let owner = f.method.name.name;
            let found = term_at(alloc, w, t, class, owner, &f.locals.vars, Role::New, term)?;
            match found {
                None => Ok(None),
                Some(x) => {
                    let names = named_by(alloc, t, f, &x)?;
                    Ok(names)
                }
            }
        }
    }
}

/// `new` with `n` arguments, whose value is kept or not.
pub fn make<'a>(
    alloc: Global,
    w: &World<'a>,
    t: &mut Table,
    f: &mut Frame<'a>,
    h: &mut Heap,
    arena: u32,
    term: &Term,
    n: usize,
    keeps: bool,
) -> Result<Did<'a>, MeanFault>
    requires { Stands w.now t.old }
    ensures did { IfOk result (λ d. Acted w.now.program.now t.old.known.items arena (acts.Make term.now n keeps) f.old h.old d f.new h.new) }
    ensures kept { t.new ≡ t.old }
{
    let taken = f.vals.take_args(n)?;
    match taken {
        None => Ok(Did::Ended(Ending::Stuck(Why::Missing))),
        Some(args) => {
            let found = new_names(alloc, w, t, f, term)?;
            match found {
                None => Ok(Did::Ended(Ending::Stuck(Why::Missing))),
                Some(names) => make_named(alloc, w, t, f, h, arena, names, args, keeps),
            }
        }
    }
}

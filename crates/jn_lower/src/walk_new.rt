ghost use Rattle.std.specs.Prelude.{IfOk, OnOk};
ghost use Rattle.jn_base.specs.declared.tree.Name.{Name as AName};
ghost use Rattle.jn_lower.specs.Making.{SaysConstructs, ByMark, MadeWith, MadeBy, MadeOf, IsLast};
ghost use Rattle.jn_lower.specs.Walks.{NoneTwice};

use crate::bounds::class_bound;
use crate::calls::make;
use crate::classes::class_of;
use crate::members::{constructor_at, has_method};
use crate::selecting::{constructor_number, name_of};
use crate::walk::{Parts, Walk, had};
use jn_base::tree::Name;
use jn_base::types::Atom;
use std::alloc::AllocError;

/// Whether the class of the atom has a method of that name, as its last one is that of its constructor. One that isn't in
/// the table, which no checked body makes, is refused for want of memory.
fn constructs(g: &Parts, x: &Atom, name: Name) -> Result<bool, AllocError>
    ensures { IfOk result (SaysConstructs g.now x.now name) }
{
    let b = class_bound(g, x)?;
    match b.number(g.t) {
        None => Err(AllocError),
        Some(id) => Ok(has_method(g.t, id, name)),
    }
}

/// The number of the constructor that the class of the next mark declares. One with another count of parameters, which
/// no checked body calls, is refused for want of memory.
fn by_mark(g: &Parts, w: &mut Walk, x: &Atom, count: usize) -> Result<Option<u32>, AllocError>
    requires { NoneTwice g.now }
    ensures { IfOk result (λ ctor. (C : AName) → IsLast x.now C → ByMark g.now x.now C count ctor w.old w.new) }
{
    match w.marks.next_member() {
        None => Err(AllocError),
        Some(path) => {
            let found = constructor_at(g.alloc, g.p, g.t, g.names.methods.as_slice(), x, path)?;
            if found.params.as_slice().len() != count {
                return Err(AllocError);
            }
            Ok(Some(found.selector))
        }
    }
}

/// The number of the constructor of the atom's class, whose last name that is, for no argument. Where the class has none,
/// that is the one of the name.
fn made_alone(g: &Parts, w: &mut Walk, x: &Atom, name: Name) -> Result<Option<u32>, AllocError>
    requires twice { NoneTwice g.now }
    requires last { IsLast x.now name }
    ensures { IfOk result (λ ctor. MadeWith g.now x.now name 0 ctor w.old w.new) }
{
    let has = constructs(g, x, name)?;
    if has {
        by_mark(g, w, x, 0)
    } else {
        constructor_number(g.names.methods.as_slice(), x, &[])
    }
}

/// The same for so many arguments.
fn made_with(
    g: &Parts,
    w: &mut Walk,
    x: &Atom,
    name: Name,
    count: usize,
) -> Result<Option<u32>, AllocError>
    requires twice { NoneTwice g.now }
    requires last { IsLast x.now name }
    ensures { IfOk result (λ ctor. MadeWith g.now x.now name count ctor w.old w.new) }
{
    if count == 0 {
        made_alone(g, w, x, name)
    } else {
        by_mark(g, w, x, count)
    }
}

/// The number of the constructor by which an object of the atom's class is made from so many arguments, where there is
/// one.
pub fn made_by(g: &Parts, w: &mut Walk, x: &Atom, count: usize) -> Result<Option<u32>, AllocError>
    requires { NoneTwice g.now }
    ensures { IfOk result (λ ctor. MadeBy g.now x.now count ctor w.old w.new) }
{
    match name_of(x) {
        None => Err(AllocError),
        Some(name) => made_with(g, w, x, name, count),
    }
}

/// Behind the arguments: makes the object by the constructor, and drops it where it isn't kept.
pub fn made_of(
    g: &Parts,
    w: &mut Walk,
    x: &Atom,
    ctor: Option<u32>,
    keeps: bool,
) -> Result<(), AllocError>
    ensures { OnOk result (MadeOf g.now x.now ctor keeps w.old w.new) }
{
    class_of(g.alloc, &mut w.out, g.t, x)?;
    make(&mut w.out, ctor, keeps)?;
    had(w)
}

//! Results.

ghost use Rattle.std.specs.Prelude.{◌≡◌, IfOk, true};
ghost use Rattle.jn_sem.specs.Acts as acts;
ghost use Rattle.jn_meaning.specs.World.{Stands};
ghost use Rattle.jn_meaning.specs.Doing.{Done};
ghost use Rattle.jn_meaning.specs.Leaving.{AreUntyped, LeavesAs, ReturnsAs};

use crate::did::{Did, Ending};
use crate::fault::MeanFault;
use crate::frame::Frame;
use crate::heap::Heap;
use crate::locals::{Locals, view_in};
use crate::seen::Seen;
use crate::terms::type_at;
use crate::typing::is_in;
use crate::value::Value;
use crate::world::World;
use jn_base::names::Var;
use jn_base::tree::TypeTerm;
use jn_base::types::Ty;
use jn_sem::outcome::Why;
use jn_table::Table;
use std::alloc::{AllocError, Global};

/// The variables with their values, without their types.
fn untyped(alloc: Global, locals: &Locals) -> Result<Locals, AllocError>
    ensures { IfOk result (λ all. AreUntyped locals.now all) }
{
    let mut all = Locals::new(alloc);
    for i in 0..locals.values.len() {
        let x = &locals.vars.list.as_slice()[i];
        let var = Var {
            name: x.name,
            path: x.path,
            fixed: x.fixed,
            ty: Ty::Null,
        };
        all.push(var, locals.values[i])?;
    }
    Ok(all)
}

/// The value is the result, where it is in the type by the views of these variables.
fn leave_with<'a>(
    alloc: Global,
    w: &World,
    t: &Table,
    h: &Heap,
    this: Value,
    all: &Locals,
    ty: &Ty,
    v: Value,
) -> Result<Did<'a>, MeanFault>
    requires { Stands w.now t.now }
    ensures { IfOk result (λ d. LeavesAs w.now.program.now t.now.known.items h.now this all.now ty.now v d) }
{
    let seen = Seen {
        this: view_in(this),
        locals: all,
    };
    if is_in(alloc, w, t, h, &seen, ty, v)? {
        Ok(Did::Left(Some(v)))
    } else {
        Ok(Did::Ended(Ending::Stuck(Why::Foreign)))
    }
}

/// A result of a type, in which the parameters are in scope: the first variables. The others are taken away.
fn return_typed<'a>(
    alloc: Global,
    w: &World,
    t: &mut Table,
    f: &mut Frame<'a>,
    h: &Heap,
    ty: &TypeTerm,
    v: Value,
) -> Result<Did<'a>, MeanFault>
    requires { Stands w.now t.old }
    ensures did { IfOk result (λ d. ReturnsAs w.now.program.now t.old.known.items h.now f.old ty.now v d) }
    ensures kept { t.new ≡ t.old }
{
    match f.class {
        None => Err(MeanFault::Memory),
        Some(class) => {
            let all = untyped(alloc, &f.locals)?;
            f.locals.truncate(f.method.params.len());
            let found = type_at(alloc, w, t, class, f.method.name.name, &f.locals.vars, ty)?;
            match found {
                None => Ok(Did::Ended(Ending::Stuck(Why::Missing))),
                Some(given) => leave_with(alloc, w, t, h, f.this, &all, &given, v),
            }
        }
    }
}

/// `return` with an operand. The frame isn't to be used again.
pub fn return_value<'a>(
    alloc: Global,
    w: &World,
    t: &mut Table,
    f: &mut Frame<'a>,
    h: &Heap,
) -> Result<Did<'a>, MeanFault>
    requires { Stands w.now t.old }
    ensures did { IfOk result (λ d. Done w.now t.old h.now (acts.Return true) f.old d f.new) }
    ensures kept { t.new ≡ t.old }
{
    match f.vals.pop() {
        None => Ok(Did::Ended(Ending::Stuck(Why::Missing))),
        Some(v) => {
            let method = f.method;
            match &method.result {
                None => Ok(Did::Ended(Ending::Stuck(Why::Kind))),
                Some(ty) => return_typed(alloc, w, t, f, h, ty, v),
            }
        }
    }
}

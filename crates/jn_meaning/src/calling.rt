//! Calls.

ghost use Rattle.std.specs.Prelude.{◌≡◌, IfOk, slice_get};
ghost use Rattle.jn_sem.specs.Acts as acts;
ghost use Rattle.jn_table.specs.Tables.{IsFilledAt};
ghost use Rattle.jn_meaning.specs.World.{Stands};
ghost use Rattle.jn_meaning.specs.Doing.{Done};
ghost use Rattle.jn_meaning.specs.declared.heap.Heap.{Heap as AHeap};
ghost use Rattle.jn_meaning.specs.Calling.{CallsTold, CallsOn, CallsAt};
ghost use Rattle.jn_meaning.specs.Tells.{Tells};
ghost use Rattle.jn_meaning.specs.Frames.{frame_of};
ghost use Rattle.jn_sem.specs.State.{site_of};
ghost use Rattle.jn_sem.specs.Terms.{SuperBound};

use crate::bounds::atom_bound;
use crate::classes::{is_class, names_at};
use crate::creating::with_first;
use crate::did::{Called, Callee, Did, Ending};
use crate::fault::MeanFault;
use crate::finding::body_of;
use crate::frame::Frame;
use crate::parameters::params_of;
use crate::terms::term_at;
use crate::value::Value;
use crate::world::World;
use jn_base::names::Role;
use jn_base::tree::{Name, Term};
use jn_names::Bound;
use jn_sem::outcome::Why;
use jn_table::{ClassId, Table};
use sqlite_items::at;
use std::alloc::Global;

/// The body of a method at a class is called with these values, the receiver first.
pub fn call_at<'a>(
    alloc: Global,
    w: &World<'a>,
    t: &mut Table,
    id: ClassId,
    m: Name,
    all: Vec<Value>,
) -> Result<Did<'a>, MeanFault>
    requires stands { Stands w.now t.old }
    requires filled { IsFilledAt t.old id }
    ensures did { IfOk result (λ d. CallsTold w.now.program.now t.old.known.items id m all.items d) }
    ensures kept { t.new ≡ t.old }
{
    if all.is_empty() {
        return Err(MeanFault::Memory);
    }
    match body_of(w, t, id, m) {
        None => Ok(Did::Ended(Ending::Stuck(Why::Missing))),
        Some(found) => {
            if all.len() - 1 != found.method.params.len() {
                return Ok(Did::Ended(Ending::Stuck(Why::Missing)));
            }
            let params = params_of(alloc, w, t, found.class, found.method)?;
            match params {
                None => Ok(Did::Ended(Ending::Stuck(Why::Missing))),
                Some(vars) => Ok(Did::Entered(Called {
                    callee: Callee {
                        class: found.class,
                        method: found.method,
                        vars,
                    },
                    args: all,
                })),
            }
        }
    }
}

/// The earliest of the values.
pub fn first_of(all: &[Value]) -> Option<Value>
    ensures { result ≡ slice_get all.now 0 }
{
    at(all, 0).copied()
}

/// The receiver, which stands first, is called.
fn call_on<'a>(
    alloc: Global,
    w: &World<'a>,
    t: &mut Table,
    m: Name,
    all: Vec<Value>,
) -> Result<Did<'a>, MeanFault>
    requires { Stands w.now t.old }
    ensures did { IfOk result (λ d. CallsOn w.now.program.now t.old.known.items m all.items d) }
    ensures kept { t.new ≡ t.old }
{
    match first_of(&all) {
        None => Err(MeanFault::Memory),
        Some(r) => match r {
            Value::Reference(_, id) => {
                if !is_class(t, id) {
                    return Err(MeanFault::Memory);
                }
                call_at(alloc, w, t, id, m, all)
            }
            Value::Null => Ok(Did::Ended(Ending::AtNull)),
            Value::Number(_) => Ok(Did::Ended(Ending::Stuck(Why::Kind))),
            Value::Truth(_) => Ok(Did::Ended(Ending::Stuck(Why::Kind))),
        },
    }
}

/// A call with `n` arguments, whose value is kept or not.
pub fn call<'a>(
    alloc: Global,
    w: &World<'a>,
    t: &mut Table,
    f: &mut Frame<'a>,
    m: Name,
    n: usize,
    keeps: bool,
) -> Result<Did<'a>, MeanFault>
    requires { Stands w.now t.old }
    ensures did { IfOk result (λ d. (h : AHeap) → Done w.now t.old h (acts.Call m n keeps) f.old d f.new) }
    ensures kept { t.new ≡ t.old }
{
    if n == usize::MAX {
        return Err(MeanFault::Memory);
    }
    f.keeps = keeps;
    let taken = f.vals.take_args(n + 1)?;
    match taken {
        None => Ok(Did::Ended(Ending::Stuck(Why::Missing))),
        Some(all) => call_on(alloc, w, t, m, all),
    }
}

/// The class that a term of `super` stands for in a frame: the bound of its atom; none where it stands for none.
fn super_bound(
    alloc: Global,
    w: &World,
    t: &mut Table,
    f: &Frame,
    term: &Term,
) -> Result<Option<Bound>, MeanFault>
    requires { Stands w.now t.old }
    ensures told { IfOk result (λ o. Tells (SuperBound w.now.program.now (site_of (frame_of t.old.known.items f.now)) term.now) o) }
    ensures kept { t.new ≡ t.old }
{
    match f.class {
        None => Err(MeanFault::Memory),
        Some(class) => {
            let owner = f.method.name.name;
            let found = term_at(alloc, w, t, class, owner, &f.locals.vars, Role::Super, term)?;
            match found {
                None => Ok(None),
                Some(x) => {
                    let outer = Bound::of(alloc, names_at(t, class))?;
                    let b = atom_bound(alloc, &outer, f.locals.vars.list.as_slice(), &x)?;
                    Ok(Some(b))
                }
            }
        }
    }
}

/// The body of a method at a path is called with these values, the receiver first. A path that has no number has no body.
fn super_at<'a>(
    alloc: Global,
    w: &World<'a>,
    t: &mut Table,
    b: &Bound,
    m: Name,
    all: Vec<Value>,
) -> Result<Did<'a>, MeanFault>
    requires { Stands w.now t.old }
    ensures did { IfOk result (λ d. CallsAt w.now.program.now t.old.known.items b.now m all.items d) }
    ensures kept { t.new ≡ t.old }
{
    match b.number(t) {
        None => Ok(Did::Ended(Ending::Stuck(Why::Missing))),
        Some(id) => call_at(alloc, w, t, id, m, all),
    }
}

/// `super` with `n` arguments, whose value is kept or not.
pub fn call_super<'a>(
    alloc: Global,
    w: &World<'a>,
    t: &mut Table,
    f: &mut Frame<'a>,
    term: &Term,
    m: Name,
    n: usize,
    keeps: bool,
) -> Result<Did<'a>, MeanFault>
    requires { Stands w.now t.old }
    ensures did { IfOk result (λ d. (h : AHeap) → Done w.now t.old h (acts.Super term.now m n keeps) f.old d f.new) }
    ensures kept { t.new ≡ t.old }
{
    f.keeps = keeps;
    let taken = f.vals.take_args(n)?;
    match taken {
        None => Ok(Did::Ended(Ending::Stuck(Why::Missing))),
        Some(args) => {
            let found = super_bound(alloc, w, t, f, term)?;
            match found {
                None => Ok(Did::Ended(Ending::Stuck(Why::Missing))),
                Some(b) => {
                    let all = with_first(f.this, args)?;
                    super_at(alloc, w, t, &b, m, all)
                }
            }
        }
    }
}

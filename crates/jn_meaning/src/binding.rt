//! Locals, and constant texts.

ghost use Rattle.std.specs.Prelude.{◌≡◌, ℕ, List, IfOk};
ghost use Rattle.jn_base.specs.declared.path.Path.{Path as ShownPath};
ghost use Rattle.jn_base.specs.Resolve.{is_class};
ghost use Rattle.jn_sem.specs.Acts as acts;
ghost use Rattle.jn_sem.specs.State as state;
ghost use Rattle.jn_sem.specs.State.{is_null, is_null_path};
ghost use Rattle.jn_sem.specs.Does.{bound_to};
ghost use Rattle.jn_sem.specs.Does as does;
ghost use Rattle.jn_meaning.specs.World.{Stands};
ghost use Rattle.jn_meaning.specs.Values.{value_of};
ghost use Rattle.jn_meaning.specs.Frames.{frame_of, did_of};
ghost use Rattle.jn_meaning.specs.Doing.{Done};
ghost use Rattle.jn_meaning.specs.Binding.{BindsAs};

use crate::did::{Did, Ending, Line};
use crate::doing::fits;
use crate::fault::MeanFault;
use crate::frame::Frame;
use crate::heap::Heap;
use crate::terms::type_at;
use crate::value::Value;
use crate::world::World;
use jn_base::names::Var;
use jn_base::tree::{Name, TypeTerm};
use jn_base::types::Ty;
use jn_sem::outcome::Why;
use jn_table::Table;
use sqlite_items::at;
use std::alloc::Global;

fn is_class_type(ty: &Ty) -> bool
    ensures { result ≡ is_class ty.now }
{
    match ty {
        Ty::Class(_, _) => true,
        Ty::Int => false,
        Ty::Bool => false,
        Ty::Null => false,
        Ty::Void => false,
    }
}

fn is_null(v: Value) -> bool
    ensures { (known : List ShownPath) → result ≡ is_null (value_of known v) }
{
    match v {
        Value::Null => true,
        Value::Number(_) => false,
        Value::Truth(_) => false,
        Value::Reference(_, _) => false,
    }
}

/// Whether the variable is a path, and the value is null.
pub fn is_null_path(var: &Var, v: Value) -> bool
    ensures { (known : List ShownPath) → result ≡ is_null_path (bound_to var.now (value_of known v)) }
{
    if !var.fixed {
        return false;
    }
    if !is_class_type(&var.ty) {
        return false;
    }
    is_null(v)
}

/// A local with its value.
fn bind_as<'a>(
    alloc: Global,
    w: &World,
    t: &Table,
    f: &mut Frame<'a>,
    h: &Heap,
    var: Var,
    v: Value,
) -> Result<Did<'a>, MeanFault>
    requires { Stands w.now t.now }
    ensures { IfOk result (λ d. BindsAs w.now.program.now t.now.known.items h.now f.old var v d f.new) }
{
    if is_null_path(&var, v) {
        return Ok(Did::Ended(Ending::AtNull));
    }
    if !fits(alloc, w, t, h, f, &var.ty, v)? {
        return Ok(Did::Ended(Ending::Stuck(Why::Foreign)));
    }
    f.locals.push(var, v)?;
    Ok(Did::Went)
}

/// A local.
pub fn bind<'a>(
    alloc: Global,
    w: &World,
    t: &mut Table,
    f: &mut Frame<'a>,
    h: &Heap,
    fixed: bool,
    ty: &TypeTerm,
    x: Name,
    path: u32,
) -> Result<Did<'a>, MeanFault>
    requires { Stands w.now t.old }
    ensures did { IfOk result (λ d. Done w.now t.old h.now (acts.Bind fixed ty.now x path) f.old d f.new) }
    ensures kept { t.new ≡ t.old }
{
    match f.vals.pop() {
        None => Ok(Did::Ended(Ending::Stuck(Why::Missing))),
        Some(v) => match f.class {
            None => Err(MeanFault::Memory),
            Some(class) => {
                let found = type_at(alloc, w, t, class, f.method.name.name, &f.locals.vars, ty)?;
                match found {
                    None => Ok(Did::Ended(Ending::Stuck(Why::Missing))),
                    Some(given) => {
                        let var = Var {
                            name: x,
                            path,
                            fixed,
                            ty: given,
                        };
                        bind_as(alloc, w, t, f, h, var, v)
                    }
                }
            }
        },
    }
}

/// A constant text.
pub fn print_text<'a>(w: &World<'a>, text: u32) -> Did<'a>
    ensures { (known : List ShownPath) (f : state.Frame) (m : ℕ) (h : state.Heap) → does.Does w.now.program.now m (acts.PrintText text) f h (did_of known result f h) }
{
    match at(w.program.texts.as_slice(), text as usize) {
        None => Did::Ended(Ending::Stuck(Why::Missing)),
        Some(x) => Did::Printed(Line::Text(x.bytes.as_slice())),
    }
}

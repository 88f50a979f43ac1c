//! How a body that is called begins.

ghost use Rattle.std.specs.Prelude.{◌≡◌, ◌↔◌, List, IsTrue, IfOk};
ghost use Rattle.jn_base.specs.declared.path.Path.{Path as ShownPath};
ghost use Rattle.jn_sem.specs.State.{has_null_path};
ghost use Rattle.jn_sem.specs.Run.{AreIn};
ghost use Rattle.jn_meaning.specs.World.{Stands};
ghost use Rattle.jn_meaning.specs.Heaps.{heap_of};
ghost use Rattle.jn_meaning.specs.Frames.{frame_of, variables_of};
ghost use Rattle.jn_meaning.specs.Running.{HasBoth, IsFrameOf, BeginsAs, EntersAs};

use crate::binding::is_null_path;
use crate::did::{Called, Callee, Ending};
use crate::doing::fits_at;
use crate::fault::MeanFault;
use crate::frame::Frame;
use crate::heap::Heap;
use crate::locals::Locals;
use crate::path_behind::next_number;
use crate::pile::Pile;
use crate::settling::settle;
use crate::value::Value;
use crate::work::{Item, Work};
use crate::world::World;
use jn_base::names::Vars;
use jn_sem::outcome::Why;
use jn_table::Table;
use std::alloc::Global;
use std::mem;

/// The parameters with their values. A call has one for each.
fn with_values(vars: Vars, values: Vec<Value>) -> Result<Locals, MeanFault>
    ensures { IfOk result (λ l. HasBoth l vars.list values.items) }
{
    if vars.list.len() != values.len() {
        return Err(MeanFault::Memory);
    }
    Ok(Locals { vars, values })
}

/// The frame of a body with its receiver and its arguments.
fn frame_for<'a>(
    alloc: Global,
    callee: Callee<'a>,
    this: Value,
    args: Vec<Value>,
) -> Result<Frame<'a>, MeanFault>
    ensures { IfOk result (λ f. IsFrameOf callee.entry this args.items f) }
{
    let scope = callee.vars.list.len();
    match next_number(scope) {
        None => Err(MeanFault::Memory),
        Some(path) => {
            let mut todo = Work::new(alloc);
            todo.put(scope, Item::Stmts(path, callee.method.body.as_slice()))?;
            let locals = with_values(callee.vars, args)?;
            Ok(Frame {
                class: Some(callee.class),
                method: callee.method,
                this,
                locals,
                vals: Pile::new(alloc),
                todo,
                keeps: false,
            })
        }
    }
}

/// Whether a `final` variable of class type is null.
fn has_null(locals: &Locals) -> bool
    ensures { (known : List ShownPath) → result ≡ has_null_path (variables_of known locals.now) }
{
    for i in 0..locals.values.len() {
        if is_null_path(&locals.vars.list.as_slice()[i], locals.values[i]) {
            return true;
        }
    }
    false
}

/// Whether each variable has a value of its type.
fn all_fit(alloc: Global, w: &World, t: &Table, h: &Heap, f: &Frame) -> Result<bool, MeanFault>
    requires { Stands w.now t.now }
    ensures { IfOk result (λ b. IsTrue b ↔ AreIn w.now.program.now (frame_of t.now.known.items f.now) (heap_of t.now.known.items h.now)) }
{
    for i in 0..f.locals.values.len() {
        if !fits_at(alloc, w, t, h, f, i, f.locals.values[i])? {
            return Ok(false);
        }
    }
    Ok(true)
}

/// The body of the frame `f` begins, and the frame at work waits for it.
fn begin_body<'a>(
    alloc: Global,
    w: &World<'a>,
    t: &Table,
    f: Frame<'a>,
    now: &mut Frame<'a>,
    waiting: &mut Vec<Frame<'a>>,
    h: &Heap,
) -> Result<Option<Ending>, MeanFault>
    requires { Stands w.now t.now }
    ensures { IfOk result (λ o. BeginsAs w.now.program.now t.now.known.items f.entry now.old waiting.old.items h.now o now.new waiting.new.items) }
{
    if has_null(&f.locals) {
        return Ok(Some(Ending::AtNull));
    }
    if !all_fit(alloc, w, t, h, &f)? {
        return Ok(Some(Ending::Stuck(Why::Foreign)));
    }
    let below = mem::replace(now, f);
    waiting.push(below)?;
    settle(now, waiting)
}

/// A call, where so many frames may be beside the one that starts the program.
pub fn enter<'a>(
    alloc: Global,
    w: &World<'a>,
    t: &Table,
    called: Called<'a>,
    depth: u32,
    now: &mut Frame<'a>,
    waiting: &mut Vec<Frame<'a>>,
    h: &Heap,
) -> Result<Option<Ending>, MeanFault>
    requires { Stands w.now t.now }
    ensures { IfOk result (λ o. EntersAs w.now.program.now t.now.known.items depth called.entry now.old waiting.old.items h.now o now.new waiting.new.items) }
{
    if waiting.len() >= depth as usize {
        return Ok(Some(Ending::Depth));
    }
    let mut args = called.args;
    if args.is_empty() {
        return Ok(Some(Ending::Stuck(Why::Missing)));
    }
    let this = args.remove(0);
    let f = frame_for(alloc, called.callee, this, args)?;
    begin_body(alloc, w, t, f, now, waiting, h)
}

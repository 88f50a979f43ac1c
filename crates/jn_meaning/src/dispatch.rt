//! One act, by what it is.

ghost use Rattle.std.specs.Prelude.{◌≡◌, IfOk};
ghost use Rattle.jn_sem.specs.Acts as acts;
ghost use Rattle.jn_meaning.specs.World.{Stands};
ghost use Rattle.jn_meaning.specs.Work.{act_of};
ghost use Rattle.jn_meaning.specs.Doing.{Done};
ghost use Rattle.jn_meaning.specs.Creating.{Acted};

use crate::act::Act;
use crate::binding::{bind, print_text};
use crate::calling::{call, call_super};
use crate::creating::make;
use crate::did::Did;
use crate::doing::{assign, get, put};
use crate::fault::MeanFault;
use crate::frame::Frame;
use crate::heap::Heap;
use crate::leaving::return_value;
use crate::plain::{
    choose, decide, invert, negate, operate, print, push_null, push_number, push_this, push_truth,
    read, repeat, return_none,
};
use crate::starting::{begin, open};
use crate::viewing::view;
use crate::world::World;
use jn_base::tree::{Name, TypeTerm};
use jn_table::Table;
use std::alloc::Global;

/// A local.
fn bind_at<'a>(
    alloc: Global,
    w: &World,
    t: &mut Table,
    f: &mut Frame<'a>,
    h: &Heap,
    fixed: bool,
    ty: &TypeTerm,
    x: Name,
    path: usize,
) -> Result<Did<'a>, MeanFault>
    requires { Stands w.now t.old }
    ensures did { IfOk result (λ d. Done w.now t.old h.now (acts.Bind fixed ty.now x path) f.old d f.new) }
    ensures kept { t.new ≡ t.old }
{
    if path > 4294967295 {
        return Err(MeanFault::Memory);
    }
    bind(alloc, w, t, f, h, fixed, ty, x, path as u32)
}

/// `return`, with an operand or without.
fn return_by<'a>(
    alloc: Global,
    w: &World,
    t: &mut Table,
    f: &mut Frame<'a>,
    h: &Heap,
    gives: bool,
) -> Result<Did<'a>, MeanFault>
    requires { Stands w.now t.old }
    ensures did { IfOk result (λ d. Done w.now t.old h.now (acts.Return gives) f.old d f.new) }
    ensures kept { t.new ≡ t.old }
{
    if gives {
        return_value(alloc, w, t, f, h)
    } else {
        Ok(return_none(f))
    }
}

/// What the act does in the frame at work. Its operands are had, and it is no longer among what is to be done.
pub fn act<'a>(
    alloc: Global,
    w: &World<'a>,
    t: &mut Table,
    f: &mut Frame<'a>,
    h: &mut Heap,
    arena: u32,
    act: Act<'a>,
) -> Result<Did<'a>, MeanFault>
    requires { Stands w.now t.old }
    ensures did { IfOk result (λ d. Acted w.now.program.now t.old.known.items arena (act_of act.entry) f.old h.old d f.new h.new) }
    ensures kept { t.new ≡ t.old }
{
    match act {
        Act::Number(z) => push_number(f, z),
        Act::Truth(b) => push_truth(f, b),
        Act::Null => push_null(f),
        Act::Read(x) => read(f, x),
        Act::This => push_this(f),
        Act::Invert => invert(f),
        Act::Negate => negate(f),
        Act::Operate(op) => operate(f, op),
        Act::Decide(and, e) => decide(f, and, e),
        Act::Get(field) => get(alloc, w, t, f, h, field),
        Act::Call(m, n, keeps) => call(alloc, w, t, f, m, n, keeps),
        Act::Make(term, n, keeps) => make(alloc, w, t, f, h, arena, term, n, keeps),
        Act::Super(term, m, n, keeps) => call_super(alloc, w, t, f, term, m, n, keeps),
        Act::View(term) => view(alloc, w, t, f, term),
        Act::Bind(fixed, ty, x, path) => bind_at(alloc, w, t, f, h, fixed, ty, x, path),
        Act::Assign(x) => assign(alloc, w, t, f, h, x),
        Act::Put(field) => put(alloc, w, t, f, h, field),
        Act::Choose(path, one, other) => choose(f, path, one, other),
        Act::Repeat(path, e, body) => repeat(f, path, e, body),
        Act::Return(gives) => return_by(alloc, w, t, f, h, gives),
        Act::Print => Ok(print(f)),
        Act::PrintText(text) => Ok(print_text(w, text)),
        Act::Begin => begin(alloc, w, t, f, h, arena),
        Act::Open => open(alloc, w, t, f, h),
    }
}

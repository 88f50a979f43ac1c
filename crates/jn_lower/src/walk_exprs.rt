ghost use Rattle.std.specs.Prelude.{OnOk, Some, None, true, drop};
ghost use Rattle.jn_base.specs.declared.tree.Name.{Name as AName};
ghost use Rattle.jn_base.specs.declared.tree.Term.{Term as ATerm};
ghost use Rattle.jn_base.specs.declared.tree.Node.TheVariants as node;
ghost use Rattle.jn_lower.specs.declared.walk.Parts.{Parts as AParts};
ghost use Rattle.jn_lower.specs.Walks.{NoneTwice, LowersValue, LowersEffect, LowersNode, LowersNodeAs, LowersLinks, LowersLink, LowersParts, LowersPart, LowersMember, LowersArgs, Operated, Decided, ViewedAs};

use crate::classes::class_of;
use crate::leaves::{null, this, truth, variable};
use crate::straight::{decided_by, deciding, deciding_of, operator};
use crate::walk::{Parts, Walk, had, push, set};
use crate::walk_members::{called, field_read, kept};
use crate::walk_new::{made_by, made_of};
use crate::walk_super::{bare_above, called_above, found_above, tucked};
use jn_base::tree::{Expr, Link, Named, Node, Op, Suffix};
use jn_base::types::Atom;
use jn_code::Instr;
use std::alloc::AllocError;

fn number_value(w: &mut Walk, z: i64) -> Result<(), AllocError>
    ensures { OnOk result ((g : AParts) → LowersNode g (node.Int z) w.old w.new) }
{
    push(w, Instr::Int(z))?;
    had(w)
}

fn truth_value(w: &mut Walk, b: bool) -> Result<(), AllocError>
    ensures { OnOk result ((g : AParts) → LowersNode g (node.Bool b) w.old w.new) }
{
    truth(&mut w.out, b)?;
    had(w)
}

fn null_value(w: &mut Walk) -> Result<(), AllocError>
    ensures { OnOk result ((g : AParts) → LowersNode g node.Null w.old w.new) }
{
    null(&mut w.out)?;
    had(w)
}

fn this_value(w: &mut Walk) -> Result<(), AllocError>
    ensures { OnOk result ((g : AParts) → LowersNode g node.This w.old w.new) }
{
    this(&mut w.out)?;
    had(w)
}

fn var_value(w: &mut Walk) -> Result<(), AllocError>
    ensures { OnOk result ((g : AParts) (x : AName) → LowersNode g (node.Var x) w.old w.new) }
{
    match w.marks.next_var() {
        None => Err(AllocError),
        Some(q) => {
            variable(&mut w.out, q)?;
            had(w)
        }
    }
}

/// An operator that has both its operands.
fn strict(w: &mut Walk, op: Op) -> Result<(), AllocError>
    ensures { OnOk result (Operated op w.old w.new) }
{
    operator(&mut w.out, op, w.last)?;
    had(w)
}

/// Behind the right operand of `&&` or `||`: the value where the left one decides, and the two jumps.
fn decided(w: &mut Walk, and: bool, test: usize) -> Result<(), AllocError>
    ensures { OnOk result (Decided and test w.old w.new) }
{
    let jump = w.out.len();
    w.out.push(Instr::Jump(0))?;
    let other = w.out.place()?;
    w.out.push(decided_by(and))?;
    let end = w.out.place()?;
    set(&mut w.out, test, deciding(and, other))?;
    set(&mut w.out, jump, Instr::Jump(end))?;
    had(w)
}

/// Behind the operand of a view change: the class of the atom, and CONV.
fn viewed(g: &Parts, w: &mut Walk, x: &Atom) -> Result<(), AllocError>
    ensures { OnOk result (ViewedAs g.now x.now w.old w.new) }
{
    class_of(g.alloc, &mut w.out, g.t, x)?;
    w.out.push(Instr::Conv)?;
    had(w)
}

/// A field behind a receiver.
fn field(g: &Parts, w: &mut Walk, f: Named) -> Result<(), AllocError>
    requires { NoneTwice g.now }
    ensures { OnOk result (LowersMember g.now true f None w.old w.new) }
{
    match w.marks.next_member() {
        None => Err(AllocError),
        Some(path) => field_read(g, w, path, f.name),
    }
}

/// Emits an expression, whose value is kept.
#[cycle(exprs)]
pub fn value(g: &Parts, w: &mut Walk, e: &Expr) -> Result<(), AllocError>
    requires { NoneTwice g.now }
    ensures { OnOk result (LowersValue g.now e.now w.old w.new) }
{
    node(g, w, &e.node)
}

/// Emits an expression, whose value is dropped: a call, a new object, or `super`. No other stands so in a source, and it
/// is refused for want of memory.
pub fn effect(g: &Parts, w: &mut Walk, e: &Expr) -> Result<(), AllocError>
    requires { NoneTwice g.now }
    ensures { OnOk result (LowersEffect g.now e.now w.old w.new) }
{
    match &e.node {
        Node::Post(r, zs) => {
            value(g, w, r.get())?;
            parts(g, w, zs.as_slice(), false)
        }
        Node::New(_, es) => made(g, w, es.as_slice(), false),
        Node::Super(_, f, es) => upward(g, w, *f, es.as_slice(), false),
        _ => Err(AllocError),
    }
}

#[cycle(exprs)]
fn node(g: &Parts, w: &mut Walk, node: &Node) -> Result<(), AllocError>
    requires { NoneTwice g.now }
    ensures { OnOk result (LowersNode g.now node.now w.old w.new) }
{
    match node {
        Node::Int(z) => number_value(w, *z),
        Node::Bool(b) => truth_value(w, *b),
        Node::Null => null_value(w),
        Node::This => this_value(w),
        Node::Var(_) => var_value(w),
        Node::Not(e) => {
            value(g, w, e.get())?;
            push(w, Instr::Not)?;
            had(w)
        }
        Node::Neg(e) => {
            value(g, w, e.get())?;
            push(w, Instr::Neg)?;
            had(w)
        }
        Node::Chain(_, e, ls) => {
            value(g, w, e.get())?;
            links(g, w, ls.as_slice())
        }
        Node::New(_, es) => made(g, w, es.as_slice(), true),
        Node::Super(_, f, es) => upward(g, w, *f, es.as_slice(), true),
        Node::Post(e, zs) => {
            value(g, w, e.get())?;
            parts(g, w, zs.as_slice(), true)
        }
        Node::View(_, e) => match w.marks.next_term() {
            None => Err(AllocError),
            Some(x) => {
                value(g, w, e.get())?;
                viewed(g, w, x)
            }
        },
    }
}

/// Emits the operators of a chain.
#[cycle(exprs)]
fn links(g: &Parts, w: &mut Walk, ls: &[Link]) -> Result<(), AllocError>
    requires { NoneTwice g.now }
    ensures { OnOk result (LowersLinks g.now ls.now w.old w.new) }
{
    for l in ls {
        link(g, w, l)?;
    }
    Ok(())
}

#[cycle(exprs)]
fn link(g: &Parts, w: &mut Walk, l: &Link) -> Result<(), AllocError>
    requires { NoneTwice g.now }
    ensures { OnOk result (LowersLink g.now l.now w.old w.new) }
{
    match deciding_of(l.op) {
        None => {
            value(g, w, &l.right)?;
            strict(w, l.op)
        }
        Some(and) => {
            let test = w.out.len();
            push(w, deciding(and, 0))?;
            value(g, w, &l.right)?;
            decided(w, and, test)
        }
    }
}

/// Emits what stands behind a receiver, of which only the last value may be dropped. A receiver with nothing behind it,
/// which no source has, is refused for want of memory.
#[cycle(exprs)]
fn parts(g: &Parts, w: &mut Walk, zs: &[Suffix], keeps: bool) -> Result<(), AllocError>
    requires { NoneTwice g.now }
    ensures { OnOk result (LowersParts g.now keeps zs.now w.old w.new) }
{
    if zs.is_empty() {
        return Err(AllocError);
    }
    let mut left = zs.len();
    for z in zs {
        left -= 1;
        part(g, w, z, kept(keeps, left))?;
    }
    Ok(())
}

#[cycle(exprs)]
fn part(g: &Parts, w: &mut Walk, z: &Suffix, keeps: bool) -> Result<(), AllocError>
    requires { NoneTwice g.now }
    ensures { OnOk result (LowersPart g.now keeps z.now w.old w.new) }
{
    match &z.args {
        None => {
            if keeps {
                field(g, w, z.name)
            } else {
                Err(AllocError)
            }
        }
        Some(es) => call(g, w, z.name, es.as_slice(), keeps),
    }
}

/// Emits a call behind its receiver: the arguments, and CALL.
#[cycle(exprs)]
fn call(g: &Parts, w: &mut Walk, f: Named, es: &[Expr], keeps: bool) -> Result<(), AllocError>
    requires { NoneTwice g.now }
    ensures { OnOk result (LowersMember g.now keeps f (Some es.now) w.old w.new) }
{
    match w.marks.next_member() {
        None => Err(AllocError),
        Some(path) => {
            args(g, w, es)?;
            called(g, w, keeps, path, f.name, es.len())
        }
    }
}

/// Emits arguments, one behind the other.
#[cycle(exprs)]
fn args(g: &Parts, w: &mut Walk, es: &[Expr]) -> Result<(), AllocError>
    requires { NoneTwice g.now }
    ensures { OnOk result (LowersArgs g.now es.now w.old w.new) }
{
    for e in es {
        value(g, w, e)?;
    }
    Ok(())
}

/// Emits a new object: the arguments, the class, NEW, and its constructor.
#[cycle(exprs)]
fn made(g: &Parts, w: &mut Walk, es: &[Expr], keeps: bool) -> Result<(), AllocError>
    requires { NoneTwice g.now }
    ensures { OnOk result ((t : ATerm) → LowersNodeAs g.now keeps (node.New t es.now) w.old w.new) }
{
    match w.marks.next_term() {
        None => Err(AllocError),
        Some(x) => {
            let ctor = made_by(g, w, x, es.len())?;
            args(g, w, es)?;
            made_of(g, w, x, ctor, keeps)
        }
    }
}

/// Emits a call of `super`: the first argument, below which `this` is brought, the others, and CALLAT.
#[cycle(exprs)]
fn upward(g: &Parts, w: &mut Walk, f: Named, es: &[Expr], keeps: bool) -> Result<(), AllocError>
    requires { NoneTwice g.now }
    ensures { OnOk result ((t : ATerm) → LowersNodeAs g.now keeps (node.Super t f es.now) w.old w.new) }
{
    let x = found_above(g, w, f.name, es.len())?;
    if es.is_empty() {
        bare_above(w, x, keeps)
    } else {
        value(g, w, &es[0])?;
        tucked(w, x)?;
        further(g, w, es)?;
        called_above(w, x, keeps)
    }
}

/// Emits the arguments behind the first one.
#[cycle(exprs)]
fn further(g: &Parts, w: &mut Walk, es: &[Expr]) -> Result<(), AllocError>
    requires { NoneTwice g.now }
    ensures { OnOk result (LowersArgs g.now (drop 1 es.now) w.old w.new) }
{
    for i in 1..es.len() {
        value(g, w, &es[i])?;
    }
    Ok(())
}

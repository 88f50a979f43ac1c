ghost use Rattle.std.specs.Prelude.{◌≡◌, ◌∷◌, [], Some, None, IfOk, OnOk};
ghost use Rattle.jn_base.specs.declared.tree.Place.{Place as APlace};
ghost use Rattle.jn_base.specs.declared.tree.Stmt.TheVariants as stmt;
ghost use Rattle.jn_lower.specs.declared.walk.Parts.{Parts as AParts};
ghost use Rattle.jn_lower.specs.Known.{Extends};
ghost use Rattle.jn_lower.specs.Walks.{NoneTwice, printed_by, Tested, Jumped, Joined, Repeated, LowersStmts, LowersBlock, LowersStmt, LowersPlain};

use crate::known::leave;
use crate::walk::{Parts, Walk, push, seeing, set};
use crate::walk_exprs::{effect, value};
use crate::walk_locals::{assign, local};
use crate::walk_members::field_put;
use jn_base::names::Vars;
use jn_base::tree::{Expr, Named, Stmt};
use jn_code::Instr;
use std::alloc::AllocError;

/// What prints a value of the kind.
fn printed_by(kind: u8) -> Instr
    ensures { result ≡ printed_by kind }
{
    match kind {
        1 => Instr::Printi,
        _ => Instr::Printb,
    }
}

/// `return` with a value.
fn returns(g: &Parts, w: &mut Walk, e: &Expr) -> Result<(), AllocError>
    requires { NoneTwice g.now }
    ensures { OnOk result ((pl : APlace) → LowersPlain g.now (stmt.Return (Some e.now) pl) w.old w.new) }
{
    value(g, w, e)?;
    push(w, Instr::Retv)
}

/// `return` without a value.
fn ends(w: &mut Walk) -> Result<(), AllocError>
    ensures { OnOk result ((g : AParts) (pl : APlace) → LowersPlain g (stmt.Return None pl) w.old w.new) }
{
    push(w, Instr::Ret)
}

/// `print` of a value.
fn prints(g: &Parts, w: &mut Walk, e: &Expr) -> Result<(), AllocError>
    requires { NoneTwice g.now }
    ensures { OnOk result ((pl : APlace) → LowersPlain g.now (stmt.Print e.now pl) w.old w.new) }
{
    value(g, w, e)?;
    push(w, printed_by(w.last))
}

/// `print` of a text.
fn prints_text(w: &mut Walk, text: u32) -> Result<(), AllocError>
    ensures { OnOk result ((g : AParts) (pl : APlace) → LowersPlain g (stmt.PrintText text pl) w.old w.new) }
{
    push(w, Instr::Printt(text))
}

/// An assignment to a field: the receiver, the value, and PUT.
fn store(g: &Parts, w: &mut Walk, r: &Expr, f: Named, e: &Expr) -> Result<(), AllocError>
    requires { NoneTwice g.now }
    ensures { OnOk result (LowersPlain g.now (stmt.Set r.now f e.now) w.old w.new) }
{
    value(g, w, r)?;
    match w.marks.next_member() {
        None => Err(AllocError),
        Some(path) => {
            value(g, w, e)?;
            field_put(g, w, path, f.name)
        }
    }
}

/// An expression whose value is dropped.
fn drops(g: &Parts, w: &mut Walk, e: &Expr) -> Result<(), AllocError>
    requires { NoneTwice g.now }
    ensures { OnOk result (LowersPlain g.now (stmt.Do e.now) w.old w.new) }
{
    effect(g, w, e)
}

/// A jump without a target: its place, and that behind it.
#[derive(Clone, Copy)]
pub struct Jump {
    pub at: usize,
    pub behind: u32,
}

/// A condition, and a jump that has no target yet: its place.
fn tested(g: &Parts, w: &mut Walk, e: &Expr) -> Result<usize, AllocError>
    requires { NoneTwice g.now }
    ensures { IfOk result (λ test. Tested g.now e.now test w.old w.new) }
{
    value(g, w, e)?;
    let test = w.out.len();
    push(w, Instr::Jfalse(0))?;
    Ok(test)
}

/// Between both blocks of an `if`: a jump that has no target yet.
fn jumped(w: &mut Walk) -> Result<Jump, AllocError>
    ensures { IfOk result (λ j. Jumped j w.old w.new) }
{
    let at = w.out.len();
    push(w, Instr::Jump(0))?;
    let behind = w.out.place()?;
    Ok(Jump { at, behind })
}

/// Behind both blocks of an `if`: its two jumps get their targets.
fn joined(w: &mut Walk, test: usize, j: Jump) -> Result<(), AllocError>
    ensures { OnOk result (Joined test j w.old w.new) }
{
    let end = w.out.place()?;
    set(&mut w.out, test, Instr::Jfalse(j.behind))?;
    set(&mut w.out, j.at, Instr::Jump(end))
}

/// Behind the body of a `while`: the jump back, and the one past it gets its target.
fn repeated(w: &mut Walk, start: u32, test: usize) -> Result<(), AllocError>
    ensures { OnOk result (Repeated start test w.old w.new) }
{
    w.out.push(Instr::Jump(start))?;
    let end = w.out.place()?;
    set(&mut w.out, test, Instr::Jfalse(end))
}

/// A statement that has no block and declares no local. Any other is refused for want of memory.
fn plain(g: &Parts, w: &mut Walk, s: &Stmt) -> Result<(), AllocError>
    requires { NoneTwice g.now }
    ensures { OnOk result (LowersPlain g.now s.now w.old w.new) }
{
    match s {
        Stmt::Assign(_, e) => assign(g, w, e),
        Stmt::Set(r, f, e) => store(g, w, r, *f, e),
        Stmt::Do(e) => drops(g, w, e),
        Stmt::Return(Some(e), _) => returns(g, w, e),
        Stmt::Return(None, _) => ends(w),
        Stmt::Print(e, _) => prints(g, w, e),
        Stmt::PrintText(text, _) => prints_text(w, *text),
        Stmt::Block(_) => Err(AllocError),
        Stmt::Local(_, _, _, _) => Err(AllocError),
        Stmt::If(_, _, _, _) => Err(AllocError),
        Stmt::While(_, _, _) => Err(AllocError),
    }
}

/// Emits statements, one behind the other. In scope are the variables that are known, whichever the parts have.
#[cycle(stmts)]
pub fn stmts(g: &Parts, known: &mut Vars, w: &mut Walk, ss: &[Stmt]) -> Result<(), AllocError>
    requires { NoneTwice g.now }
    ensures lowers { OnOk result (LowersStmts g.now ss.now known.old.list known.new.list w.old w.new) }
    ensures extends { OnOk result (Extends known.old.list known.new.list) }
{
    for s in ss {
        stmt(g, known, w, s)?;
    }
    Ok(())
}

/// Emits the statements of a block, behind which its locals aren't known.
#[cycle(stmts)]
fn block(g: &Parts, known: &mut Vars, w: &mut Walk, ss: &[Stmt]) -> Result<(), AllocError>
    requires { NoneTwice g.now }
    ensures lowers { OnOk result (LowersBlock g.now ss.now known.old.list w.old w.new) }
    ensures kept { OnOk result (known.new ≡ known.old) }
{
    let count = known.list.len();
    stmts(g, known, w, ss)?;
    leave(known, count);
    Ok(())
}

#[cycle(stmts)]
fn stmt(g: &Parts, known: &mut Vars, w: &mut Walk, s: &Stmt) -> Result<(), AllocError>
    requires { NoneTwice g.now }
    ensures lowers { OnOk result (LowersStmt g.now s.now known.old.list known.new.list w.old w.new) }
    ensures extends { OnOk result (Extends known.old.list known.new.list) }
{
    match s {
        Stmt::Block(body) => block(g, known, w, body.as_slice()),
        Stmt::Local(fixed, ty, name, e) => local(g, known, w, *fixed, ty, *name, e),
        Stmt::If(e, one, other, _) => {
            let test = tested(&seeing(g, known), w, e)?;
            block(g, known, w, one.as_slice())?;
            let jump = jumped(w)?;
            block(g, known, w, other.as_slice())?;
            joined(w, test, jump)
        }
        Stmt::While(e, body, _) => {
            let start = w.out.place()?;
            let test = tested(&seeing(g, known), w, e)?;
            block(g, known, w, body.as_slice())?;
            repeated(w, start, test)
        }
        _ => plain(&seeing(g, known), w, s),
    }
}

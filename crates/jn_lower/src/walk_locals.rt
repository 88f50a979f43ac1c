ghost use Rattle.std.specs.Prelude.{◌≡◌, OnOk};
ghost use Rattle.jn_base.specs.declared.tree.Named.{Named as ANamed};
ghost use Rattle.jn_base.specs.declared.tree.Stmt.TheVariants as stmt;
ghost use Rattle.jn_lower.specs.Emitted.{Adds};
ghost use Rattle.jn_lower.specs.Stores.{stored};
ghost use Rattle.jn_lower.specs.Known.{Extends};
ghost use Rattle.jn_lower.specs.Walks.{NoneTwice, BindsWritten, LowersStmt, LowersPlain};

use crate::emitter::Emitter;
use crate::kinds::{is_reference, written_kind, written_terms};
use crate::known::add_local;
use crate::walk::{Parts, Walk, push, seeing};
use crate::walk_exprs::value;
use jn_base::names::Vars;
use jn_base::tree::{Expr, Named, TypeTerm};
use jn_code::Instr;
use std::alloc::AllocError;

/// Adds what binds a local: STORE, with CHECK before it where it is final and of class type.
fn stored(out: &mut Emitter, fixed: bool, class: bool, q: u8) -> Result<(), AllocError>
    ensures { OnOk result (Adds (stored fixed class q) out.old out.new) }
{
    if fixed && class {
        out.push(Instr::Check)?;
        out.push(Instr::Store(q))
    } else {
        out.push(Instr::Store(q))
    }
}

/// Binds the next local, as one of the written type. Its number is the next one: where it isn't, which never is, it is
/// refused for want of memory.
fn bound(w: &mut Walk, fixed: bool, ty: &TypeTerm, q: u8) -> Result<(), AllocError>
    ensures { OnOk result (BindsWritten fixed ty.now q w.old w.new) }
{
    let own = w.out.declare(written_kind(ty))?;
    if own != q {
        return Err(AllocError);
    }
    stored(&mut w.out, fixed, is_reference(ty), own)
}

/// A local: its value, and what binds it. Behind it it is known.
pub fn local(
    g: &Parts,
    known: &mut Vars,
    w: &mut Walk,
    fixed: bool,
    ty: &TypeTerm,
    name: Named,
    e: &Expr,
) -> Result<(), AllocError>
    requires { NoneTwice g.now }
    ensures lowers { OnOk result (LowersStmt g.now (stmt.Local fixed ty.now name e.now) known.old.list known.new.list
        w.old w.new) }
    ensures extends { OnOk result (Extends known.old.list known.new.list) }
{
    let xs = w.marks.next_terms(written_terms(ty))?;
    match w.marks.next_var() {
        None => Err(AllocError),
        Some(q) => {
            value(&seeing(g, known), w, e)?;
            bound(w, fixed, ty, q)?;
            add_local(g.alloc, g.class, known, fixed, ty, name.name, q, xs)
        }
    }
}

/// An assignment to a variable.
pub fn assign(g: &Parts, w: &mut Walk, e: &Expr) -> Result<(), AllocError>
    requires { NoneTwice g.now }
    ensures { OnOk result ((name : ANamed) → LowersPlain g.now (stmt.Assign name e.now) w.old w.new) }
{
    match w.marks.next_var() {
        None => Err(AllocError),
        Some(q) => {
            value(g, w, e)?;
            push(w, Instr::Store(q))
        }
    }
}

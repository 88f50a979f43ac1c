ghost use Rattle.std.specs.Prelude.{◌≡◌, ◌∷◌, [], OnOk};
ghost use Rattle.jn_lower.specs.Emitted.{Patched};
ghost use Rattle.jn_lower.specs.Walks.{kind_number, Had, Pushed, Sees};

use crate::cursor::Marks;
use crate::emitter::Emitter;
use jn_agree::selectors::Selectors;
use jn_base::names::{Var, Vars};
use jn_base::path::Path;
use jn_base::tree::Program;
use jn_base::types::ValKind;
use jn_code::Instr;
use jn_share::Slots;
use jn_table::Table;
use std::alloc::{AllocError, Global};

/// What the bodies of a program are lowered by.
#[derive(Clone, Copy)]
pub struct Parts<'a, 'v> {
    pub alloc: Global,
    pub p: &'a Program,
    pub t: &'a Table,
    pub slots: &'a Slots,
    pub names: &'a Selectors,
    /// The class that declares the body.
    pub class: &'a Path,
    /// The variables in scope, with their types in normal form, but for masks.
    pub vars: &'v [Var],
}

/// A walk over a body: what was emitted so far, the marks that are left, and the kind of the value that was had last.
#[derive(Drop)]
pub struct Walk<'a> {
    pub out: Emitter,
    pub marks: Marks<'a>,
    pub last: u8,
}

/// The same parts where these variables are in scope.
pub fn seeing<'a, 'v>(g: &Parts<'a, '_>, known: &'v Vars) -> Parts<'a, 'v>
    ensures { Sees g.now known.now.list result }
{
    Parts {
        alloc: g.alloc,
        p: g.p,
        t: g.t,
        slots: g.slots,
        names: g.names,
        class: g.class,
        vars: known.list.as_slice(),
    }
}

/// The number of a kind.
pub fn kind_number(kind: ValKind) -> u8
    ensures { result ≡ kind_number kind }
{
    match kind {
        ValKind::Int => 1,
        ValKind::Bool => 2,
        ValKind::Reference => 3,
    }
}

/// The instruction stands at that place, where one stood before. Where none stood, which never is, it is refused for want
/// of memory.
pub fn set(out: &mut Emitter, at: usize, instr: Instr) -> Result<(), AllocError>
    ensures { OnOk result (Patched at instr out.old out.new) }
{
    if at >= out.len() {
        return Err(AllocError);
    }
    out.patch(at, instr);
    Ok(())
}

/// A value was had: its kind is the next one.
pub fn had(w: &mut Walk) -> Result<(), AllocError>
    ensures { OnOk result (Had w.old w.new) }
{
    match w.marks.next_kind() {
        None => Err(AllocError),
        Some(kind) => {
            w.last = kind_number(kind);
            Ok(())
        }
    }
}

/// One more instruction.
pub fn push(w: &mut Walk, instr: Instr) -> Result<(), AllocError>
    ensures { OnOk result (Pushed (instr ∷ []) w.old w.new) }
{
    w.out.push(instr)
}

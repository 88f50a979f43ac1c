ghost use Rattle.std.specs.Prelude.{◌≡◌, OnOk};
ghost use Rattle.jn_agree.specs.Rows.{kind_of_type};
ghost use Rattle.jn_lower.specs.Emitted.{Adds};
ghost use Rattle.jn_lower.specs.Stores.{stored, Binds};

use crate::emitter::Emitter;
use jn_base::types::Ty;
use jn_code::Instr;
use std::alloc::AllocError;

/// The kind of a value of the type: 1 a number, 2 a truth value, 3 a reference.
pub fn kind_of_type(ty: &Ty) -> u8
    ensures { result ≡ kind_of_type ty.now }
{
    match ty {
        Ty::Int => 1,
        Ty::Bool => 2,
        Ty::Null => 3,
        Ty::Void => 3,
        Ty::Class(_, _) => 3,
    }
}

/// Adds what binds a local: STORE, with CHECK before it where it is final and of class type.
pub fn stored(out: &mut Emitter, fixed: bool, class: bool, q: u8) -> Result<(), AllocError>
    ensures { OnOk result (Adds (stored fixed class q) out.old out.new) }
{
    if fixed && class {
        out.push(Instr::Check)?;
    }
    out.push(Instr::Store(q))
}

/// Binds the next local to the value on top, which is of that kind and of class type or not.
pub fn bind(out: &mut Emitter, fixed: bool, class: bool, kind: u8) -> Result<(), AllocError>
    ensures { OnOk result (Binds fixed class kind out.old out.new) }
{
    let q = out.declare(kind)?;
    stored(out, fixed, class, q)
}

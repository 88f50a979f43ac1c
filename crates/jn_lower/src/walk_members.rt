ghost use Rattle.std.specs.Prelude.{◌≡◌, OnOk};
ghost use Rattle.jn_lower.specs.Walks.{NoneTwice, IsKept, Settled, CallMade, FieldRead, FieldPut};

use crate::calls::{call, get, put};
use crate::members::{callee_at, getter_at};
use crate::walk::{Parts, Walk, had};
use jn_base::path::Path;
use jn_base::tree::Name;
use std::alloc::AllocError;

/// Whether a value is kept behind which so many parts are left.
pub fn kept(keeps: bool, left: usize) -> bool
    ensures { IsKept keeps left result }
{
    if left == 0 { keeps } else { true }
}

/// The value of a call was had, which is of that kind: 0 where it gives none.
pub fn settle(w: &mut Walk, kind: u8) -> Result<(), AllocError>
    ensures { OnOk result (Settled kind w.old w.new) }
{
    if kind == 0 {
        w.last = 3;
        Ok(())
    } else {
        had(w)
    }
}

/// Behind so many arguments: calls the method of that name, which the class at the path declares. One with another count
/// of parameters, which no checked body calls, is refused for want of memory.
pub fn called(
    g: &Parts,
    w: &mut Walk,
    keeps: bool,
    path: &Path,
    f: Name,
    count: usize,
) -> Result<(), AllocError>
    requires { NoneTwice g.now }
    ensures { OnOk result (CallMade g.now keeps path.now f count w.old w.new) }
{
    let callee = callee_at(g.alloc, g.p, g.t, g.names.methods.as_slice(), path, f)?;
    if callee.params.as_slice().len() != count {
        return Err(AllocError);
    }
    call(&mut w.out, callee.selector, keeps, callee.kind)?;
    settle(w, callee.kind)
}

/// Reads the field of that name, which the class at the path declares.
pub fn field_read(g: &Parts, w: &mut Walk, path: &Path, f: Name) -> Result<(), AllocError>
    requires { NoneTwice g.now }
    ensures { OnOk result (FieldRead g.now path.now f w.old w.new) }
{
    let x = getter_at(g.p, g.t, g.slots, g.names.fields.as_slice(), path, f)?;
    get(&mut w.out, x.selector)?;
    had(w)
}

/// Gives the value on top to the field of that name, which the class at the path declares.
pub fn field_put(g: &Parts, w: &mut Walk, path: &Path, f: Name) -> Result<(), AllocError>
    requires { NoneTwice g.now }
    ensures { OnOk result (FieldPut g.now path.now f w.old w.new) }
{
    let x = getter_at(g.p, g.t, g.slots, g.names.fields.as_slice(), path, f)?;
    put(&mut w.out, x.selector)
}

ghost use Rattle.std.specs.Prelude.{◌≡◌, ◌++◌, IfOk, OnOk};
ghost use Rattle.jn_base.specs.Atoms.{atom_of};
ghost use Rattle.jn_base.specs.declared.types.Anchor.TheVariants.{Root};
ghost use Rattle.jn_agree.specs.Naming.{Naming};
ghost use Rattle.jn_agree.specs.Places.{up_by};
ghost use Rattle.jn_lower.specs.Emitted.{Adds};
ghost use Rattle.jn_lower.specs.Classes.{AreClassesOf, AddsClass, down_each, seen_by};

use crate::emitter::Emitter;
use crate::params::local;
use jn_base::path::Path;
use jn_base::tree::Name;
use jn_base::types::{Anchor, Atom};
use jn_code::Instr;
use jn_table::Table;
use sqlite_items::Items;
use std::alloc::{AllocError, Global};

/// The number of a member's name, in two bytes. One above 65535, which no program within the limits has, is refused for
/// want of memory.
pub fn member(x: Name) -> Result<u16, AllocError>
    ensures { IfOk result (λ k. k ≡ x.0) }
{
    u16::try_from(x.0).map_err(|_| AllocError)
}

/// Adds the way up from a class, by that many levels: UP, and nothing for none.
pub fn up_by(out: &mut Emitter, levels: u8) -> Result<(), AllocError>
    ensures { OnOk result (Adds (up_by levels) out.old out.new) }
{
    if levels == 0 {
        Ok(())
    } else {
        out.push(Instr::Up(levels))
    }
}

/// Adds the way down from a class by these names, the outermost first: DOWN for each.
pub fn downs(out: &mut Emitter, names: &[Name]) -> Result<(), AllocError>
    ensures { OnOk result (Adds (down_each names.now) out.old out.new) }
{
    for name in names {
        let k = member(*name)?;
        out.push(Instr::Down(k))?;
    }
    Ok(())
}

/// Adds the class that is found from the view of a local: LOAD, VIEWOF, UP, and DOWN for each name of the atom.
pub fn seen_class(out: &mut Emitter, q: u8, levels: u8, x: &Atom) -> Result<(), AllocError>
    ensures { OnOk result (Adds (seen_by q levels x.now) out.old out.new) }
{
    out.push(Instr::Load(q))?;
    out.push(Instr::Viewof)?;
    up_by(out, levels)?;
    downs(out, x.exact.as_slice())?;
    downs(out, x.names.as_slice())
}

/// The path that has the atom's names.
fn path_of(alloc: Global, x: &Atom) -> Result<Path, AllocError>
    ensures { IfOk result (λ path. path.names ≡ x.now.exact ++ x.now.names) }
{
    let mut names = Items::from_slice(alloc, x.exact.as_slice())?;
    for name in x.names.as_slice() {
        names.push(*name)?;
    }
    Ok(Path { names })
}

/// Adds the class of one of the program's own paths: CLS. A path that isn't in the table, which no atom of a checked
/// body is, is refused for want of memory.
fn own_class(alloc: Global, out: &mut Emitter, t: &Table, x: &Atom) -> Result<(), AllocError>
    requires { x.now.anchor ≡ Root }
    ensures { OnOk result ((n : Naming) → AreClassesOf t.now n → AddsClass n (atom_of x.now) out.old out.new) }
{
    let path = path_of(alloc, x)?;
    match t.find(&path) {
        None => Err(AllocError),
        Some(id) => out.push(Instr::Cls(id.0)),
    }
}

/// Adds the class of an atom: that of its path, or the one that is found from the view of its local.
pub fn class_of(alloc: Global, out: &mut Emitter, t: &Table, x: &Atom) -> Result<(), AllocError>
    ensures { OnOk result ((n : Naming) → AreClassesOf t.now n → AddsClass n (atom_of x.now) out.old out.new) }
{
    match x.anchor {
        Anchor::Root => own_class(alloc, out, t, x),
        Anchor::Up(q, levels) => {
            let at = local(q)?;
            seen_class(out, at, levels, x)
        }
    }
}

ghost use Rattle.std.specs.Prelude.{◌≡◌, IfOk};

use jn_base::types::{Atom, Ty};
use sqlite_items::Items;
use std::alloc::{AllocError, Global};

/// The same atom.
fn copied_atom(alloc: Global, x: &Atom) -> Result<Atom, AllocError>
    ensures { IfOk result (λ y. y ≡ x.now) }
{
    let exact = Items::from_slice(alloc, x.exact.as_slice())?;
    let names = Items::from_slice(alloc, x.names.as_slice())?;
    Ok(Atom {
        anchor: x.anchor,
        exact,
        names,
    })
}

/// The same atoms.
fn copied_atoms(alloc: Global, xs: &[Atom]) -> Result<Items<Atom>, AllocError>
    ensures { IfOk result (λ ys. ys ≡ xs.now) }
{
    let mut all = Items::new(alloc);
    for x in xs {
        let one = copied_atom(alloc, x)?;
        all.push(one)?;
    }
    Ok(all)
}

/// The same type.
pub fn copied_type(alloc: Global, t: &Ty) -> Result<Ty, AllocError>
    ensures { IfOk result (λ u. u ≡ t.now) }
{
    match t {
        Ty::Int => Ok(Ty::Int),
        Ty::Bool => Ok(Ty::Bool),
        Ty::Null => Ok(Ty::Null),
        Ty::Void => Ok(Ty::Void),
        Ty::Class(atoms, masks) => {
            let atoms = copied_atoms(alloc, atoms.as_slice())?;
            Ok(Ty::Class(atoms, *masks))
        }
    }
}

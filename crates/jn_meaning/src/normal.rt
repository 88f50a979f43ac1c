//! The normal form of a type at a place of a body.
//!
//! A scope that fits has no bound of more than 255 names; where a rewriting would take more levels off a path, nothing is told.

ghost use Rattle.std.specs.Prelude.{◌∷◌, reverse, map, IfOk};
ghost use Rattle.jn_base.specs.Scopes.{this_bind};
ghost use Rattle.jn_base.specs.Resolve.{var_bind};
ghost use Rattle.jn_sem.specs.Normal.{NormalType};

use crate::fault::MeanFault;
use jn_base::names::Var;
use jn_base::tree::Name;
use jn_base::types::Ty;
use jn_forms::normal_atoms;
use std::alloc::Global;

/// The normal form of a type where a class of these names has these variables in scope.
pub fn normal_type(alloc: Global, class: &[Name], vars: &[Var], ty: Ty) -> Result<Ty, MeanFault>
    ensures { IfOk result (λ u. NormalType (reverse (this_bind (reverse class.now) ∷ map var_bind vars.now)) ty u) }
{
    match ty {
        Ty::Int => Ok(Ty::Int),
        Ty::Bool => Ok(Ty::Bool),
        Ty::Null => Ok(Ty::Null),
        Ty::Void => Ok(Ty::Void),
        Ty::Class(atoms, masks) => {
            let forms = normal_atoms(alloc, class, vars, atoms.as_slice())?;
            Ok(Ty::Class(forms, masks))
        }
    }
}

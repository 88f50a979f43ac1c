ghost use Rattle.std.specs.Prelude.{◌≡◌, take, IfOk, OnOk};
ghost use Rattle.jn_base.specs.declared.types.Ty.TheVariants as ty;
ghost use Rattle.jn_base.specs.Atoms.{no_masks};
ghost use Rattle.jn_sem.specs.NormalFunction.{normal_type};
ghost use Rattle.jn_lower.specs.Known.{scope_in, bare_form, written_type, LocalAdded};

use jn_base::names::{Var, Vars};
use jn_base::path::Path;
use jn_base::tree::{Name, TypeTerm};
use jn_base::types::{Atom, Masks, Ty};
use jn_forms::normal_atoms;
use std::alloc::{AllocError, Global};

/// The normal form of the type of these atoms without masks, in a body of the class with these variables in scope.
fn class_form(alloc: Global, class: &Path, vars: &[Var], xs: &[Atom]) -> Result<Ty, AllocError>
    ensures { IfOk result (λ u. u ≡ normal_type (scope_in class.now vars.now) (ty.Class xs.now no_masks)) }
{
    let atoms = normal_atoms(alloc, class.names.as_slice(), vars, xs)?;
    Ok(Ty::Class(atoms, Masks([0, 0, 0, 0])))
}

/// The normal form of the type, without its masks.
pub fn bare_form(alloc: Global, class: &Path, vars: &[Var], ty: &Ty) -> Result<Ty, AllocError>
    ensures { IfOk result (λ u. u ≡ bare_form class.now vars.now ty.now) }
{
    match ty {
        Ty::Int => Ok(Ty::Int),
        Ty::Bool => Ok(Ty::Bool),
        Ty::Null => Ok(Ty::Null),
        Ty::Void => Ok(Ty::Void),
        Ty::Class(atoms, _) => class_form(alloc, class, vars, atoms.as_slice()),
    }
}

/// The same of the type that is written so, of which these are the atoms.
fn written_form(
    alloc: Global,
    class: &Path,
    vars: &[Var],
    ty: &TypeTerm,
    xs: &[Atom],
) -> Result<Ty, AllocError>
    ensures { IfOk result (λ u. u ≡ bare_form class.now vars.now (written_type ty.now xs.now)) }
{
    match ty {
        TypeTerm::Int => Ok(Ty::Int),
        TypeTerm::Bool => Ok(Ty::Bool),
        TypeTerm::Class(_, _) => class_form(alloc, class, vars, xs),
    }
}

/// One more local, with the number of its path. These are the atoms of its type.
pub fn add_local(
    alloc: Global,
    class: &Path,
    known: &mut Vars,
    fixed: bool,
    ty: &TypeTerm,
    name: Name,
    q: u8,
    xs: &[Atom],
) -> Result<(), AllocError>
    ensures { OnOk result (LocalAdded class.now fixed ty.now name q xs.now known.old.list known.new.list) }
{
    let ty = written_form(alloc, class, known.list.as_slice(), ty, xs)?;
    known.list.push(Var {
        name,
        path: q as u32,
        fixed,
        ty,
    })
}

/// Only the first variables are left, as many as that.
pub fn leave(known: &mut Vars, count: usize)
    ensures { known.new.list ≡ take count known.old.list }
{
    while known.list.len() > count {
        let _ = known.list.pop();
    }
}

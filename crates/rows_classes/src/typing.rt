//! The types of a method's variables, in its scope.

use crate::fits::{scope_fits, type_fits};
use crate::setting::{Setting, Variable, spot_of};
use jn_base::path::Path;
use jn_base::refusal::Refusal;
use jn_base::tree::{Head, Name, Named, Ref, Term, TypeTerm};
use jn_base::types::{Anchor, Atom, Masks, Ty};
use jn_intern::{Bind, Pool, Scope, TyId, copied_type};
use jn_masks::add;
use jn_names::{NameFault, Role, Var, Vars, resolve_type};
use jn_normal::normal;
use jn_table::Table;
use sqlite_items::Items;
use std::alloc::{AllocError, Global};

/// A scope: `this` at path 0, and each variable at the number of its place from 1, with its type in normal form.
///
/// A variable is left out where its type is refused or does not fit.
#[derive(Drop)]
pub struct Typing {
    pub pool: Pool,
    pub scope: Scope,
    pub vars: Vars,
}

/// What comes of a type as it is written.
#[derive(Drop)]
pub enum Typed {
    Type(Ty),
    Refused(Refusal),
}

/// The scope of these variables.
pub fn typing_of(
    alloc: Global,
    setting: &Setting<'_>,
    table: &mut Table,
    variables: &[Variable<'_>],
) -> Result<Typing, AllocError> {
    let mut typing = of_this(alloc, &setting.class)?;
    let mut path = 0u32;
    for variable in variables {
        path = path.saturating_add(1);
        declare(alloc, setting, table, &mut typing, variable, path)?;
    }
    Ok(typing)
}

fn declare(
    alloc: Global,
    setting: &Setting<'_>,
    table: &mut Table,
    typing: &mut Typing,
    variable: &Variable<'_>,
    path: u32,
) -> Result<(), AllocError> {
    match read_type(alloc, setting, table, &typing.vars, variable.ty)? {
        Typed::Refused(_) => Ok(()),
        Typed::Type(ty) => bind(alloc, setting, typing, variable, path, &ty),
    }
}

/// The scope of `this` alone.
fn of_this(alloc: Global, class: &Path) -> Result<Typing, AllocError> {
    let mut typing = no_types(alloc)?;
    bind_this(alloc, &mut typing, class)?;
    Ok(typing)
}

fn no_types(alloc: Global) -> Result<Typing, AllocError> {
    let pool = Pool::new(alloc)?;
    let binds = Vec::new(alloc);
    let list = Items::new(alloc);
    Ok(Typing {
        pool,
        scope: Scope { binds },
        vars: Vars { list },
    })
}

fn bind_this(alloc: Global, typing: &mut Typing, class: &Path) -> Result<(), AllocError> {
    let this = type_of_this(alloc, class)?;
    let ty = typing.pool.intern(&this)?;
    typing.scope.binds.push(Bind { path: 0, ty })?;
    Ok(())
}

fn type_of_this(alloc: Global, class: &Path) -> Result<Ty, AllocError> {
    let names = Items::from_slice(alloc, class.names.as_slice())?;
    let mut atoms = Items::new(alloc);
    atoms.push(Atom {
        anchor: Anchor::Root,
        exact: Items::new(alloc),
        names,
    })?;
    Ok(Ty::Class(atoms, Masks([0; 4])))
}

/// The type that a term of the method says, for a parameter or a local.
pub fn read_type(
    alloc: Global,
    setting: &Setting<'_>,
    table: &mut Table,
    vars: &Vars,
    ty: &TypeTerm,
) -> Result<Typed, AllocError> {
    if setting.written {
        return Ok(Typed::Type(as_written(alloc, setting.masks, vars, ty)?));
    }
    let spot = spot_of(alloc, setting, Role::Value)?;
    match resolve_type(
        alloc,
        setting.program,
        table,
        &spot,
        vars,
        setting.masks,
        ty,
    ) {
        Ok(ty) => Ok(Typed::Type(ty)),
        Err(NameFault::Refused(r)) => Ok(Typed::Refused(r)),
        Err(NameFault::Memory) => Err(AllocError),
    }
}

/// Puts a variable of this type into the scope, if the type fits.
fn bind(
    alloc: Global,
    setting: &Setting<'_>,
    typing: &mut Typing,
    variable: &Variable<'_>,
    path: u32,
    ty: &Ty,
) -> Result<(), AllocError> {
    let kept = kept_type(alloc, &mut typing.pool, &typing.scope, ty, setting.written)?;
    match kept {
        None => Ok(()),
        Some(Kept { number, shown }) => {
            typing.scope.binds.push(Bind { path, ty: number })?;
            typing.vars.list.push(Var {
                name: variable.name,
                path,
                fixed: variable.fixed,
                ty: shown,
            })
        }
    }
}

/// A type of the scope: its number, and the type.
#[derive(Drop)]
struct Kept {
    number: TyId,
    shown: Ty,
}

/// The type that a variable is bound to: its normal form, or the type itself where types are taken as written.
fn kept_type(
    alloc: Global,
    pool: &mut Pool,
    scope: &Scope,
    ty: &Ty,
    written: bool,
) -> Result<Option<Kept>, AllocError> {
    let number = pool.intern(ty)?;
    if !scope_fits(alloc, pool, scope)? || !type_fits(alloc, pool, scope.binds.as_slice(), ty)? {
        return Ok(None);
    }
    let number = if written {
        number
    } else {
        normal(alloc, pool, scope, number)?
    };
    let shown = copied_type(alloc, pool.show(number))?;
    Ok(Some(Kept { number, shown }))
}

/// A type as it is written.
fn as_written(alloc: Global, names: &[Name], vars: &Vars, ty: &TypeTerm) -> Result<Ty, AllocError> {
    match ty {
        TypeTerm::Int => Ok(Ty::Int),
        TypeTerm::Bool => Ok(Ty::Bool),
        TypeTerm::Class(terms, masks) => {
            let atoms = atoms_as_written(alloc, vars, terms.as_slice())?;
            Ok(Ty::Class(atoms, set_of(names, masks.as_slice())))
        }
    }
}

fn atoms_as_written(alloc: Global, vars: &Vars, terms: &[Term]) -> Result<Items<Atom>, AllocError> {
    let mut atoms = Items::new(alloc);
    for term in terms {
        atoms.push(atom_as_written(alloc, vars, term)?)?;
    }
    Ok(atoms)
}

fn atom_as_written(alloc: Global, vars: &Vars, term: &Term) -> Result<Atom, AllocError> {
    let exact = Items::from_slice(alloc, term.exact.as_slice())?;
    let names = Items::from_slice(alloc, term.names.as_slice())?;
    Ok(Atom {
        anchor: anchor_as_written(vars, &term.head),
        exact,
        names,
    })
}

fn anchor_as_written(vars: &Vars, head: &Head) -> Anchor {
    match head {
        Head::Plain => Anchor::Root,
        Head::Own(before) => Anchor::Up(path_of(vars, *before), 0),
        Head::Prefix(names, before) => {
            Anchor::Up(path_of(vars, *before), names.len().min(255) as u8)
        }
    }
}

/// The number of the path that stands before `class`, one that no scope has where no such variable is in scope.
pub fn path_of(vars: &Vars, before: Ref) -> u32 {
    let name = match before {
        Ref::This => return 0,
        Ref::Var(name) => name,
    };
    let mut path = u32::MAX;
    for var in vars.list.as_slice() {
        if var.name == name {
            path = var.path;
        }
    }
    path
}

/// The set of these masks by their numbers in the list.
fn set_of(names: &[Name], masks: &[Named]) -> Masks {
    let mut set = Masks([0; 4]);
    for mask in masks {
        set = add(set, number_of(names, mask.name));
    }
    set
}

fn number_of(names: &[Name], name: Name) -> u8 {
    let mut number = 0u8;
    for other in names {
        if *other == name {
            return number;
        }
        number = number.saturating_add(1);
    }
    number
}

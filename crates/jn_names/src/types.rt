ghost use Rattle.std.specs.Prelude.{◌≡◌, ◌∷◌, [], length, IsTrue, ◌↔◌, IfOk};
ghost use Rattle.jn_base.specs.declared.tree.Program.{Program};
ghost use Rattle.jn_base.specs.ResolveTypes.{OneDepth, ResolveAll, bounds_at, may_mask, MasksGive, DepthsGive};
ghost use Rattle.jn_base.specs.ResolveTypes.{ResolveClass, ResolveType, ResolveView};
ghost use Rattle.jn_table.specs.Tables.{IsFilled};
ghost use Rattle.jn_names.specs.Answers.{Told};

use crate::bound::Bound;
use crate::fault::{NameFault, refused};
use crate::masks::{first_unfit, masks_of};
use crate::scope::atom_bound;
use crate::term::{atom_of, class_of};
use jn_base::names::{Role, Spot, Vars};
use jn_base::refusal::Rule;
use jn_base::tree::{Name, Named, Term, TypeTerm, ViewTerm};
use jn_base::types::{Atom, Ty};
use jn_table::Table;
use sqlite_items::Items;
use std::alloc::{AllocError, Global};

/// The atoms of terms, in order.
fn atoms_of(
    alloc: Global,
    t: &Table,
    spot: &Spot,
    vars: &Vars,
    terms: &[Term],
) -> Result<Items<Atom>, NameFault>
    ensures told { Told (λ o. (p : Program) → IsFilled p t.now → ResolveAll p spot.now vars.now terms.now o) result }
    ensures long { IfOk result (λ atoms. length atoms ≡ length terms.now) }
{
    let mut atoms = Items::new(alloc);
    for term in terms {
        match atom_of(alloc, t, spot, vars, term) {
            Ok(x) => atoms.push(x)?,
            Err(fault) => return Err(fault),
        }
    }
    Ok(atoms)
}

/// The bounds of atoms.
fn bounds_of(
    alloc: Global,
    spot: &Spot,
    vars: &Vars,
    atoms: &[Atom],
) -> Result<Vec<Bound>, AllocError>
    ensures { IfOk result (λ bounds. bounds.items ≡ bounds_at spot.now vars.now atoms.now) }
{
    let class = class_of(alloc, spot)?;
    let mut bounds = Vec::new(alloc);
    for x in atoms {
        let b = atom_bound(alloc, &class, vars.list.as_slice(), x)?;
        bounds.push(b)?;
    }
    Ok(bounds)
}

/// Whether the bounds have one depth.
fn one_depth(bounds: &[Bound]) -> bool
    ensures { IsTrue result ↔ OneDepth bounds.now }
{
    for i in 0..bounds.len() {
        if bounds[i].depth() != bounds[0].depth() {
            return false;
        }
    }
    true
}

/// Whether the type may have masks.
fn may_mask(role: Role) -> bool
    ensures { result ≡ may_mask role }
{
    match role {
        Role::Field => false,
        Role::Value => true,
        Role::From => true,
        Role::To => true,
        Role::View => true,
        Role::New => true,
        Role::Super => true,
    }
}

/// The type of atoms with masks, where these fit.
fn masked(
    alloc: Global,
    t: &Table,
    names: &[Name],
    spot: &Spot,
    bounds: &[Bound],
    atoms: Items<Atom>,
    masks: &[Named],
) -> Result<Ty, NameFault>
    ensures { Told (λ o. (p : Program) → IsFilled p t.now
        → MasksGive p names.now spot.now bounds.now atoms masks.now (may_mask spot.now.role) o) result }
{
    if may_mask(spot.role) {
        if let Some(m) = first_unfit(t, bounds, masks) {
            return Err(refused(alloc, Rule::E27, m.at, spot, m.name));
        }
    } else if let Some(m) = masks.first() {
        return Err(refused(alloc, Rule::E15, m.at, spot, spot.owner));
    }
    Ok(Ty::Class(atoms, masks_of(names, masks)))
}

/// The type of the terms' atoms with masks.
fn joined(
    alloc: Global,
    t: &Table,
    names: &[Name],
    spot: &Spot,
    terms: &[Term],
    bounds: &[Bound],
    atoms: Items<Atom>,
    masks: &[Named],
) -> Result<Ty, NameFault>
    requires { length bounds.now ≡ length terms.now }
    ensures { Told (λ o. (p : Program) → IsFilled p t.now
        → DepthsGive p names.now spot.now terms.now masks.now bounds.now atoms o) result }
{
    if !one_depth(bounds) {
        return Err(refused(alloc, Rule::E15, terms[1].at, spot, spot.owner));
    }
    masked(alloc, t, names, spot, bounds, atoms, masks)
}

/// The type of terms with masks.
fn class_type(
    alloc: Global,
    t: &Table,
    names: &[Name],
    spot: &Spot,
    vars: &Vars,
    terms: &[Term],
    masks: &[Named],
) -> Result<Ty, NameFault>
    ensures { Told (λ o. (p : Program) → IsFilled p t.now
        → ResolveClass p names.now spot.now vars.now terms.now masks.now o) result }
{
    let atoms = atoms_of(alloc, t, spot, vars, terms)?;
    let bounds = bounds_of(alloc, spot, vars, atoms.as_slice())?;
    joined(alloc, t, names, spot, terms, &bounds, atoms, masks)
}

/// What a type stands for, by a table in which the universe is filled.
pub fn type_of(
    alloc: Global,
    t: &Table,
    names: &[Name],
    spot: &Spot,
    vars: &Vars,
    ty: &TypeTerm,
) -> Result<Ty, NameFault>
    ensures { Told (λ o. (p : Program) → IsFilled p t.now → ResolveType p names.now spot.now vars.now ty.now o) result }
{
    match ty {
        TypeTerm::Int => Ok(Ty::Int),
        TypeTerm::Bool => Ok(Ty::Bool),
        TypeTerm::Class(terms, masks) => class_type(
            alloc,
            t,
            names,
            spot,
            vars,
            terms.as_slice(),
            masks.as_slice(),
        ),
    }
}

/// The type of one atom with masks.
fn single(
    alloc: Global,
    t: &Table,
    names: &[Name],
    spot: &Spot,
    vars: &Vars,
    x: Atom,
    masks: &[Named],
) -> Result<Ty, NameFault>
    ensures { Told (λ o. (p : Program) → IsFilled p t.now
        → MasksGive p names.now spot.now (bounds_at spot.now vars.now (x ∷ [])) (x ∷ []) masks.now
        (may_mask spot.now.role) o) result }
{
    let mut atoms = Items::new(alloc);
    atoms.push(x)?;
    let bounds = bounds_of(alloc, spot, vars, atoms.as_slice())?;
    masked(alloc, t, names, spot, &bounds, atoms, masks)
}

/// What a view stands for, by a table in which the universe is filled.
pub fn view_of(
    alloc: Global,
    t: &Table,
    names: &[Name],
    spot: &Spot,
    vars: &Vars,
    view: &ViewTerm,
) -> Result<Ty, NameFault>
    ensures { Told (λ o. (p : Program) → IsFilled p t.now
        → ResolveView p names.now spot.now vars.now view.now o) result }
{
    match atom_of(alloc, t, spot, vars, &view.term) {
        Err(fault) => Err(fault),
        Ok(x) => single(alloc, t, names, spot, vars, x, view.masks.as_slice()),
    }
}

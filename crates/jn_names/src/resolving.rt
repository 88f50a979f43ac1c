ghost use Rattle.std.specs.Prelude.{◌≡◌, Result};
ghost use Rattle.jn_base.specs.declared.types.Atom.{Atom as AnAtom};
ghost use Rattle.jn_base.specs.declared.types.Ty.{Ty as AType};
ghost use Rattle.jn_base.specs.declared.refusal.Refusal.{Refusal as ARefusal};
ghost use Rattle.jn_base.specs.Resolve.{Resolve};
ghost use Rattle.jn_base.specs.ResolveTypes.{ResolveType, ResolveView};
ghost use Rattle.jn_table.specs.Tables.{IsFilled};
ghost use Rattle.jn_names.specs.Answers.{Told};

use crate::fault::NameFault;
use crate::term::atom_of;
use crate::types::{type_of, view_of};
use jn_base::names::{Spot, Vars};
use jn_base::tree::{Name, Program, Term, TypeTerm, ViewTerm};
use jn_base::types::{Atom, Ty};
use jn_table::Table;
use std::alloc::Global;

/// What a term stands for: an atom, or the first of its refusals, by E06, E14, E15 or E22. The universe is filled in
/// the table, and the variables make a scope that fits.
pub fn resolve(
    alloc: Global,
    p: &Program,
    t: &mut Table,
    spot: &Spot,
    vars: &Vars,
    term: &Term,
) -> Result<Atom, NameFault>
    ensures told { IsFilled p.now t.old → Told (Resolve p.now spot.now vars.now term.now) result }
    ensures only { IsFilled p.now t.old → (o : Result AnAtom ARefusal) → Resolve p.now spot.now vars.now term.now o
        → Told (λ a. a ≡ o) result }
    ensures kept { t.new ≡ t.old }
{
    atom_of(alloc, t, spot, vars, term)
}

/// What a type stands for: its atoms in the order of the source with its masks, or the first of its
/// refusals, by E06, E14, E15, E22 or E27. `masks` has the mask names of the program.
pub fn resolve_type(
    alloc: Global,
    p: &Program,
    t: &mut Table,
    spot: &Spot,
    vars: &Vars,
    masks: &[Name],
    ty: &TypeTerm,
) -> Result<Ty, NameFault>
    ensures told { IsFilled p.now t.old → Told (ResolveType p.now masks.now spot.now vars.now ty.now) result }
    ensures only { IsFilled p.now t.old → (o : Result AType ARefusal)
        → ResolveType p.now masks.now spot.now vars.now ty.now o → Told (λ a. a ≡ o) result }
    ensures kept { t.new ≡ t.old }
{
    type_of(alloc, t, masks, spot, vars, ty)
}

/// What the target of a view or a side of a constraint stands for, as `resolve_type` says.
pub fn resolve_view(
    alloc: Global,
    p: &Program,
    t: &mut Table,
    spot: &Spot,
    vars: &Vars,
    masks: &[Name],
    view: &ViewTerm,
) -> Result<Ty, NameFault>
    ensures told { IsFilled p.now t.old → Told (ResolveView p.now masks.now spot.now vars.now view.now) result }
    ensures only { IsFilled p.now t.old → (o : Result AType ARefusal)
        → ResolveView p.now masks.now spot.now vars.now view.now o → Told (λ a. a ≡ o) result }
    ensures kept { t.new ≡ t.old }
{
    view_of(alloc, t, masks, spot, vars, view)
}

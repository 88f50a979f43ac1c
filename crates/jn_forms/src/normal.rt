ghost use Rattle.std.specs.Prelude.{◌≡◌, ◌<◌, ◌≤◌, ◌^◌, List, ◌∷◌, reverse, length, map, IsTrue, IfOk};
ghost use Rattle.jn_base.specs.Atoms.{Atom as AnAtom, atom_of, atoms_in, levels};
ghost use Rattle.jn_base.specs.Scopes.{this_bind, this_type};
ghost use Rattle.jn_base.specs.Resolve.{var_bind};
ghost use Rattle.jn_base.specs.declared.types.Masks.{Masks as AMasks};
ghost use Rattle.jn_base.specs.declared.types.Ty.TheVariants as ty;
ghost use Rattle.jn_sem.specs.Widening.{reduced};
ghost use Rattle.jn_sem.specs.Normal.{by_first, rewritten, normal, NormalType};
ghost use Rattle.jn_sem.specs.NormalFunction.{in_order};

use jn_base::names::Var;
use jn_base::tree::Name;
use jn_base::types::{Anchor, Atom, Masks, Ty};
use jn_normal::Conjunct;
use sqlite_items::Items;
use std::alloc::{AllocError, Global};

/// Whether what an atom of a path's type makes of another takes at most 255 levels off a path.
fn is_small(z: &Atom, k: usize) -> bool
    ensures { IsTrue result → (x : AnAtom) → levels (reduced (atom_of z.now) k x).anchor < 2 ^ 8 }
{
    let taken = k.saturating_sub(z.names.len());
    let rest = taken.saturating_sub(z.exact.len());
    match z.anchor {
        Anchor::Root => true,
        Anchor::Up(_, j) => rest < 256 - j as usize,
    }
}

/// What an atom of a path's type makes of this one.
fn reduced(alloc: Global, x: Conjunct, z: &Atom, k: usize) -> Result<Conjunct, AllocError>
    requires { length z.now.names ≤ k }
    ensures { IfOk result (λ y. y ≡ reduced (atom_of z.now) k x) }
{
    if !is_small(z, k) {
        return Err(AllocError);
    }
    let y = x.reduced(alloc, z, k)?;
    Ok(y)
}

/// The atom rewritten by the first of the atoms that has at most `k` inexact names; itself where there is none.
fn by_first(alloc: Global, k: usize, x: Conjunct, atoms: &[Atom]) -> Result<Conjunct, AllocError>
    ensures { IfOk result (λ y. y ≡ by_first k x (map atom_of atoms.now)) }
{
    for z in atoms {
        if z.names.len() <= k {
            return reduced(alloc, x, z, k);
        }
    }
    Ok(x)
}

/// The atom rewritten by a path and its type.
fn rewrite(alloc: Global, path: u32, ty: &Ty, x: Conjunct) -> Result<Conjunct, AllocError>
    ensures { IfOk result (λ y. y ≡ rewritten (record { path = path; ty = ty.now }) x) }
{
    match x.anchor() {
        Anchor::Root => Ok(x),
        Anchor::Up(q, k) => {
            if q != path {
                return Ok(x);
            }
            match ty {
                Ty::Class(atoms, _) => by_first(alloc, k as usize, x, atoms.as_slice()),
                Ty::Int => Ok(x),
                Ty::Bool => Ok(x),
                Ty::Null => Ok(x),
                Ty::Void => Ok(x),
            }
        }
    }
}

/// The type of `this` in the class of these names.
fn this_type(alloc: Global, class: &[Name]) -> Result<Ty, AllocError>
    ensures { IfOk result (λ t. t ≡ this_type (reverse class.now)) }
{
    let names = Items::from_slice(alloc, class)?;
    let exact = Items::new(alloc);
    let anchor = Anchor::Root;
    let mut atoms = Items::new(alloc);
    atoms.push(Atom {
        anchor,
        exact,
        names,
    })?;
    Ok(Ty::Class(atoms, Masks([0, 0, 0, 0])))
}

/// The normal form of an atom where `this` has a type and these variables are in scope.
fn normal_atom(alloc: Global, this: &Ty, vars: &[Var], x: Conjunct) -> Result<Conjunct, AllocError>
    ensures { IfOk result (λ y. y ≡ normal (reverse (record { path = 0; ty = this.now } ∷ map var_bind vars.now)) x) }
{
    let mut now = x;
    let mut left = vars.len();
    while left > 0 {
        left -= 1;
        now = rewrite(alloc, vars[left].path, &vars[left].ty, now)?;
    }
    rewrite(alloc, 0, this, now)
}

/// The normal forms of the atoms, in their order.
fn normals(alloc: Global, this: &Ty, vars: &[Var], xs: &[Atom]) -> Result<Vec<Conjunct>, AllocError>
    ensures { IfOk result (λ ys. ys.items ≡ map (normal (reverse (record { path = 0; ty = this.now } ∷ map var_bind vars.now))) (map atom_of xs.now)) }
{
    let mut all = Vec::new(alloc);
    for x in xs {
        let start = Conjunct::at(alloc, x.anchor, x)?;
        let one = normal_atom(alloc, this, vars, start)?;
        all.push(one)?;
    }
    Ok(all)
}

/// The atoms in order, without doubles.
fn in_order(xs: Vec<Conjunct>) -> Result<Vec<Conjunct>, AllocError>
    ensures { IfOk result (λ ys. ys.items ≡ in_order xs.items) }
{
    let mut all = xs;
    all.sort()?;
    all.dedup();
    Ok(all)
}

/// The atoms as a type has them.
fn shown_atoms(alloc: Global, xs: Vec<Conjunct>) -> Result<Items<Atom>, AllocError>
    ensures { IfOk result (λ ys. map atom_of ys ≡ xs.items) }
{
    let mut all = Items::new(alloc);
    for x in xs {
        all.push(x.shown())?;
    }
    Ok(all)
}

/// The normal forms of the atoms, in order and without doubles.
fn forms(alloc: Global, this: &Ty, vars: &[Var], xs: &[Atom]) -> Result<Items<Atom>, AllocError>
    ensures { IfOk result (λ ys. map atom_of ys
        ≡ in_order (map (normal (reverse (record { path = 0; ty = this.now } ∷ map var_bind vars.now))) (map atom_of xs.now))) }
{
    let forms = normals(alloc, this, vars, xs)?;
    let sorted = in_order(forms)?;
    let shown = shown_atoms(alloc, sorted)?;
    Ok(shown)
}

/// The atoms of the normal form of a type that has these atoms, where a class of these names has these variables in scope.
pub fn normal_atoms(
    alloc: Global,
    class: &[Name],
    vars: &[Var],
    xs: &[Atom],
) -> Result<Items<Atom>, AllocError>
    ensures { IfOk result (λ ys. (m : AMasks) → NormalType (reverse (this_bind (reverse class.now) ∷ map var_bind vars.now))
        (ty.Class xs.now m) (ty.Class ys m)) }
{
    let this = this_type(alloc, class)?;
    forms(alloc, &this, vars, xs)
}

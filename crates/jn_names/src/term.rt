ghost use Rattle.std.specs.Prelude.{◌≡◌, Ok, IsTrue, ◌↔◌, IfOk};
ghost use Rattle.jn_base.specs.declared.tree.Program.{Program};
ghost use Rattle.jn_base.specs.declared.types.Anchor.TheVariants.{Up};
ghost use Rattle.jn_base.specs.Resolve.{class_of, scope_at, names_of, anchor_out, taken_off, IsAbove, Behind};
ghost use Rattle.jn_base.specs.Resolve.{BoundGives, PathGives, PlainGiven, PrefixGiven, AnchorGiven, suits, is_fixed};
ghost use Rattle.jn_base.specs.Resolve.{has_exact, IsOfClass, SuitGives, atom_with, Resolve};
ghost use Rattle.jn_table.specs.Tables.{IsFilled};
ghost use Rattle.jn_names.specs.Answers.{Told};
ghost use Rattle.jn_names.specs.Roles.{asks_class};
ghost use Rattle.jn_names.specs.Before.{told_before};

use crate::before::{Before, path_before};
use crate::bound::Bound;
use crate::fault::{NameFault, refused};
use crate::scope::{atom_bound, path_bound};
use crate::seek::{Found, first_unknown, sought};
use jn_base::names::{Role, Spot, Vars};
use jn_base::refusal::Rule;
use jn_base::tree::{Head, Name, Ref, Term};
use jn_base::types::{Anchor, Atom};
use jn_table::Table;
use sqlite_items::Items;
use std::alloc::{AllocError, Global};

/// The class of a spot.
pub fn class_of(alloc: Global, spot: &Spot) -> Result<Bound, AllocError>
    ensures { IfOk result (λ b. b ≡ class_of spot.now) }
{
    Bound::of(alloc, spot.class.names.as_slice())
}

/// All names of a term, but for those before a bracket.
fn names_of(alloc: Global, term: &Term) -> Result<Items<Name>, AllocError>
    ensures { IfOk result (λ names. names ≡ names_of term.now) }
{
    let mut names = Items::from_slice(alloc, term.exact.as_slice())?;
    names.append(Items::from_slice(alloc, term.names.as_slice())?)?;
    Ok(names)
}

/// The anchor `Up(path, k)`. No scope that fits has a bound of more than 255 names; of such a one nothing is told.
fn up(path: u32, k: usize) -> Result<Anchor, NameFault>
    ensures { Told (λ o. o ≡ Ok (Up path k)) result }
{
    if k > 255 {
        return Err(NameFault::Memory);
    }
    Ok(Anchor::Up(path, k as u8))
}

/// The anchor where `k` names of the class are taken off.
fn anchor_out(class: &Bound, k: usize) -> Result<Anchor, NameFault>
    ensures { Told (λ o. o ≡ Ok (anchor_out class.now k)) result }
{
    if k < class.depth() {
        return up(0, k);
    }
    Ok(Anchor::Root)
}

/// The anchor of `N.t`.
fn plain(alloc: Global, t: &Table, spot: &Spot, term: &Term) -> Result<Anchor, NameFault>
    ensures { Told (λ o. (p : Program) → IsFilled p t.now → PlainGiven p spot.now term.now o) result }
{
    let class = class_of(alloc, spot)?;
    let names = names_of(alloc, term)?;
    match sought(alloc, t, &class, names.as_slice())? {
        Found::Without(k) => anchor_out(&class, k),
        Found::Unknown(name) => Err(refused(alloc, Rule::E06, term.at, spot, name)),
    }
}

/// How many names are taken off a path's bound.
fn taken_off(front: &Option<Bound>, v: &Bound) -> Option<usize>
    ensures { result ≡ taken_off front.now v.now }
{
    match front {
        None => Some(0),
        Some(b) => {
            if b.depth() <= v.depth() {
                return Some(v.depth() - b.depth());
            }
            None
        }
    }
}

/// Whether what stands before the bracket is a super of what is left of a path's bound.
fn is_above(t: &Table, front: &Option<Bound>, v: &Bound) -> bool
    ensures { (p : Program) → IsFilled p t.now → IsTrue result ↔ IsAbove p front.now v.now }
{
    match front {
        None => true,
        Some(b) => v.is_below(t, b),
    }
}

/// The names behind `class`, and then the super, where `v` is left of the path's bound.
fn behind(
    alloc: Global,
    t: &Table,
    spot: &Spot,
    term: &Term,
    front: &Option<Bound>,
    v: &Bound,
    anchor: Anchor,
) -> Result<Anchor, NameFault>
    ensures { Told (λ o. (p : Program) → IsFilled p t.now
        → Behind p spot.now term.now front.now v.now anchor o) result }
{
    let names = names_of(alloc, term)?;
    if let Some(name) = first_unknown(alloc, t, v, names.as_slice())? {
        return Err(refused(alloc, Rule::E06, term.at, spot, name));
    }
    if !is_above(t, front, v) {
        return Err(refused(alloc, Rule::E15, term.at, spot, spot.owner));
    }
    Ok(anchor)
}

/// The anchor of a path of the bound `v`.
fn bound_gives(
    alloc: Global,
    t: &Table,
    spot: &Spot,
    term: &Term,
    front: &Option<Bound>,
    path: u32,
    v: &Bound,
) -> Result<Anchor, NameFault>
    ensures { Told (λ o. (p : Program) → IsFilled p t.now
        → BoundGives p spot.now term.now front.now path v.now (taken_off front.now v.now) o) result }
{
    match taken_off(front, v) {
        None => Err(refused(alloc, Rule::E15, term.at, spot, spot.owner)),
        Some(k) => {
            let left = v.without(alloc, k)?;
            match up(path, k) {
                Err(fault) => Err(fault),
                Ok(anchor) => behind(alloc, t, spot, term, front, &left, anchor),
            }
        }
    }
}

/// The anchor of what stands before `class`.
fn path_gives(
    alloc: Global,
    t: &Table,
    spot: &Spot,
    vars: &Vars,
    term: &Term,
    front: &Option<Bound>,
    before: Before,
) -> Result<Anchor, NameFault>
    ensures { Told (λ o. (p : Program) → IsFilled p t.now
        → PathGives p spot.now (scope_at spot.now vars.now) term.now front.now (told_before before) o) result }
{
    match before {
        Before::NotInScope(x) => Err(refused(alloc, Rule::E06, term.at, spot, x)),
        Before::NoPath => Err(refused(alloc, Rule::E14, term.at, spot, spot.owner)),
        Before::Path(path) => {
            let class = class_of(alloc, spot)?;
            let v = path_bound(alloc, &class, vars.list.as_slice(), path)?;
            bound_gives(alloc, t, spot, term, front, path, &v)
        }
    }
}

/// The anchor of `P[p.class].t`.
fn prefix(
    alloc: Global,
    t: &Table,
    spot: &Spot,
    vars: &Vars,
    term: &Term,
    names: &[Name],
    r: Ref,
) -> Result<Anchor, NameFault>
    ensures { Told (λ o. (p : Program) → IsFilled p t.now
        → PrefixGiven p spot.now vars.now term.now names.now r o) result }
{
    let class = class_of(alloc, spot)?;
    match sought(alloc, t, &class, names)? {
        Found::Unknown(name) => Err(refused(alloc, Rule::E06, term.at, spot, name)),
        Found::Without(k) => {
            let mut front = class.without(alloc, k)?;
            front.extend(names)?;
            let before = path_before(spot.role, vars, r);
            path_gives(alloc, t, spot, vars, term, &Some(front), before)
        }
    }
}

/// The anchor of a term.
fn anchor_of(
    alloc: Global,
    t: &Table,
    spot: &Spot,
    vars: &Vars,
    term: &Term,
) -> Result<Anchor, NameFault>
    ensures { Told (λ o. (p : Program) → IsFilled p t.now
        → AnchorGiven p spot.now vars.now term.now term.now.head o) result }
{
    match &term.head {
        Head::Plain => plain(alloc, t, spot, term),
        Head::Own(r) => {
            let before = path_before(spot.role, vars, *r);
            path_gives(alloc, t, spot, vars, term, &None, before)
        }
        Head::Prefix(names, r) => prefix(alloc, t, spot, vars, term, names.as_slice(), *r),
    }
}

/// Whether the atom fixes a family.
fn is_fixed(x: &Atom) -> bool
    ensures { result ≡ is_fixed x.now.anchor (has_exact x.now) }
{
    match x.anchor {
        Anchor::Root => !x.exact.is_empty(),
        Anchor::Up(_, _) => true,
    }
}

/// Whether the atom is one that the role asks for.
fn suits(role: Role, x: &Atom) -> bool
    ensures { result ≡ suits role x.now }
{
    match role {
        Role::View => is_fixed(x),
        Role::To => is_fixed(x),
        Role::New => !(x.exact.is_empty() && x.names.is_empty()),
        Role::Field => true,
        Role::Value => true,
        Role::From => true,
        Role::Super => true,
    }
}

/// Whether the role asks for a class.
fn asks_class(role: Role) -> bool
    ensures { result ≡ asks_class role }
{
    match role {
        Role::Super => false,
        Role::Field => true,
        Role::Value => true,
        Role::From => true,
        Role::To => true,
        Role::View => true,
        Role::New => true,
    }
}

/// Whether the bound is of a class, where the role asks for one.
fn is_of_class(t: &Table, role: Role, b: &Bound) -> bool
    ensures { (p : Program) → IsFilled p t.now → IsTrue result ↔ IsOfClass p role b.now }
{
    !asks_class(role) || b.is_class(t)
}

/// The atom of a term with its anchor.
fn atom_with(alloc: Global, anchor: Anchor, term: &Term) -> Result<Atom, AllocError>
    ensures { IfOk result (λ x. x ≡ atom_with anchor term.now) }
{
    Ok(Atom {
        anchor,
        exact: Items::from_slice(alloc, term.exact.as_slice())?,
        names: Items::from_slice(alloc, term.names.as_slice())?,
    })
}

/// The atom, where it suits the spot's role.
fn suited(
    alloc: Global,
    t: &Table,
    spot: &Spot,
    vars: &Vars,
    term: &Term,
    x: Atom,
) -> Result<Atom, NameFault>
    ensures { Told (λ o. (p : Program) → IsFilled p t.now
        → SuitGives p spot.now vars.now term.now x (suits spot.now.role x) o) result }
{
    if !suits(spot.role, &x) {
        return Err(refused(alloc, Rule::E15, term.at, spot, spot.owner));
    }
    let class = class_of(alloc, spot)?;
    let b = atom_bound(alloc, &class, vars.list.as_slice(), &x)?;
    if !is_of_class(t, spot.role, &b) {
        return Err(refused(alloc, Rule::E22, term.at, spot, spot.owner));
    }
    Ok(x)
}

/// What a term stands for, by a table in which the universe is filled.
pub fn atom_of(
    alloc: Global,
    t: &Table,
    spot: &Spot,
    vars: &Vars,
    term: &Term,
) -> Result<Atom, NameFault>
    ensures { Told (λ o. (p : Program) → IsFilled p t.now → Resolve p spot.now vars.now term.now o) result }
{
    let anchor = anchor_of(alloc, t, spot, vars, term)?;
    let x = atom_with(alloc, anchor, term)?;
    suited(alloc, t, spot, vars, term, x)
}

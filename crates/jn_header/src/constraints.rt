//! The sharing constraints of headers, with `this` at each class.

ghost use Rattle.std.specs.Prelude.{◌≡◌, Some, List, IsTrue, ◌↔◌, IfOk, option_copied};
ghost use Rattle.jn_reach.specs.Each.{Each};
ghost use Rattle.jn_base.specs.declared.tree.Constraint.{Constraint as AConstraint};
ghost use Rattle.jn_base.specs.declared.tree.Program.{Program as AProgram};
ghost use Rattle.jn_base.specs.declared.types.Anchor.TheVariants as AAnchor;
ghost use Rattle.jn_base.specs.Atoms.{atom_of};
ghost use Rattle.jn_base.specs.Paths.{Path as APath};
ghost use Rattle.jn_base.specs.ResolveTypes.{mask_names};
ghost use Rattle.jn_table.specs.Rows.{IsNumber};
ghost use Rattle.jn_table.specs.Tables.{IsFilled, IsFilledAt};
ghost use Rattle.jn_sem.specs.Does.{Body};
ghost use Rattle.jn_sem.specs.Holds.{rooted_at, HoldsAt};
ghost use Rattle.jn_sem.specs.Sharing.{IsClass};
ghost use Rattle.jn_heads.specs.Sides.{IsPledge};
ghost use Rattle.jn_rules.specs.Plans.{Target, target_type, Pledge as APledge};
ghost use Rattle.jn_rules.specs.Questions.{Answers, masks_of};
ghost use Rattle.jn_rules.specs.Members.{FailsFor};
ghost use Rattle.jn_rules.specs.Verdict.{LimitsPass, HeadersPass};
ghost use Rattle.jn_views.specs.declared.held.Held.TheVariants.{Yes as AYes};
ghost use Rattle.jn_header.specs.Bodies.{AreBodies};
ghost use Rattle.jn_header.specs.Classes.{OrRefused};
ghost use Rattle.jn_header.specs.Constraints.{sides_of, pledge_sides, SomeFails, FirstFailingIs};
ghost use Rattle.jn_header.specs.Members.{FirstOf, FirstBad};
ghost use Rattle.jn_header.specs.Shared.{AreShared};

use crate::bodies::{Bodies, class_of};
use crate::classes::{ClassFault, place_of, refusal_at};
use crate::least::least_head;
use crate::shared::Shared;
use jn_base::refusal::{Refusal, Rule};
use jn_base::tree::{Kind, Name, Program};
use jn_base::types::{Anchor, Atom, Masks, Ty};
use jn_heads::{CheckFault, Pledge};
use jn_names::Bound;
use jn_table::{ClassId, Table};
use jn_views::{Held, holds};
use sqlite_items::Items;
use std::alloc::{AllocError, Global};

/// The atom of these names, which hangs on no path.
fn root_atom(alloc: Global, exact: &[Name], names: &[Name]) -> Result<Atom, AllocError>
    ensures { IfOk result (λ x. x ≡ record { anchor = AAnchor.Root; exact = exact.now; names = names.now }) }
{
    let exact = Items::from_slice(alloc, exact)?;
    let names = Items::from_slice(alloc, names)?;
    Ok(Atom {
        anchor: Anchor::Root,
        exact,
        names,
    })
}

/// An atom with `this` at the class: where it hangs on `this`, the names of the class less those that the anchor takes
/// off stand in front of its exact names.
fn rooted(alloc: Global, class: &Bound, x: &Atom) -> Result<Atom, AllocError>
    ensures { IfOk result (λ y. atom_of y ≡ rooted_at class.now (atom_of x.now)) }
{
    match x.anchor {
        Anchor::Root => root_atom(alloc, x.exact.as_slice(), x.names.as_slice()),
        Anchor::Up(_, k) => {
            let mut exact = class.without(alloc, k as usize)?;
            exact.extend(x.exact.as_slice())?;
            root_atom(alloc, exact.names(), x.names.as_slice())
        }
    }
}

/// Whether it holds.
fn is_yes(held: Held) -> bool
    ensures { IsTrue result ↔ (held ≡ AYes) }
{
    match held {
        Held::Yes => true,
        Held::NoCounterpart(_) => false,
        Held::Unshared(_, _) => false,
    }
}

/// Whether a constraint between two atoms with their masks holds with `this` at the class.
fn atoms_hold(
    alloc: Global,
    t: &Table,
    shared: &Shared,
    names: &[Name],
    class: &Bound,
    x: &Atom,
    hidden: Masks,
    y: &Atom,
    masks: Masks,
) -> Result<bool, AllocError>
    ensures { IfOk result (λ told. (p : AProgram) → IsFilled p t.now → AreShared p t.now.known.items shared.now
        → Answers (HoldsAt p class.now (sides_of names.now x.now hidden y.now masks)) told) }
{
    let mut atoms = Items::new(alloc);
    atoms.push(rooted(alloc, class, x)?)?;
    let to = rooted(alloc, class, y)?;
    let from = Ty::Class(atoms, hidden);
    Ok(is_yes(holds(t, &shared.groups, &shared.slots, &from, &to, masks, names)))
}

/// The atom of a target.
fn target_atom(t: &Ty) -> Option<&Atom>
    ensures { (x : Target) → t.now ≡ target_type x → option_copied result ≡ Some x.atom }
{
    match t {
        Ty::Class(atoms, _) => match atoms.as_slice() {
            [atom] => Some(atom),
            _ => None,
        },
        _ => None,
    }
}

/// The masks of a type.
fn masks_of(t: &Ty) -> Masks
    ensures { result ≡ masks_of t.now }
{
    match t {
        Ty::Class(_, masks) => *masks,
        Ty::Int => Masks([0, 0, 0, 0]),
        Ty::Bool => Masks([0, 0, 0, 0]),
        Ty::Null => Masks([0, 0, 0, 0]),
        Ty::Void => Masks([0, 0, 0, 0]),
    }
}

/// Whether a constraint holds with `this` at the class.
fn pledge_holds(
    alloc: Global,
    t: &Table,
    shared: &Shared,
    names: &[Name],
    class: &Bound,
    pledge: &Pledge,
) -> Result<bool, AllocError>
    ensures { IfOk result (λ told. (p : AProgram) (k : APledge) → IsFilled p t.now → AreShared p t.now.known.items shared.now
        → names.now ≡ mask_names p → pledge.now.from ≡ target_type k.from → pledge.now.to ≡ target_type k.to
        → Answers (HoldsAt p class.now (pledge_sides p k)) told) }
{
    match target_atom(&pledge.from) {
        None => Ok(true),
        Some(x) => match target_atom(&pledge.to) {
            None => Ok(true),
            Some(y) => atoms_hold(
                alloc,
                t,
                shared,
                names,
                class,
                x,
                masks_of(&pledge.from),
                y,
                masks_of(&pledge.to),
            ),
        },
    }
}

/// Whether some constraint of a body doesn't hold with `this` at the class.
fn some_fails(
    alloc: Global,
    t: &Table,
    shared: &Shared,
    names: &[Name],
    class: &Bound,
    pledges: &[Pledge],
) -> Result<bool, AllocError>
    ensures { IfOk result (λ told. (p : AProgram) (b : Body) (constraints : List AConstraint) → IsFilled p t.now → AreShared p t.now.known.items shared.now
        → names.now ≡ mask_names p → Each (IsPledge p b.class b.method.name.name) constraints pledges.now
        → Answers (SomeFails p class.now b constraints) told) }
{
    for pledge in pledges {
        if !pledge_holds(alloc, t, shared, names, class, pledge)? {
            return Ok(true);
        }
    }
    Ok(false)
}

/// Whether some constraint of the least body of a method doesn't hold with `this` at the class.
fn fails_for(
    alloc: Global,
    t: &Table,
    bodies: &Bodies,
    shared: &Shared,
    names: &[Name],
    class: &Bound,
    id: ClassId,
    name: &Name,
) -> Result<bool, AllocError>
    ensures { IfOk result (λ told. (p : AProgram) → AreBodies p t.now bodies.now → AreShared p t.now.known.items shared.now
        → names.now ≡ mask_names p → IsNumber t.now.known.items id class.now → IsClass p class.now
        → Answers (FailsFor p class.now name.now) told) }
{
    match least_head(bodies, id, *name) {
        None => Ok(false),
        Some(head) => some_fails(alloc, t, shared, names, class, &head.pledges),
    }
}

/// The first of the method names of which some constraint fails.
fn first_failing(
    alloc: Global,
    t: &Table,
    bodies: &Bodies,
    shared: &Shared,
    names: &[Name],
    class: &Bound,
    id: ClassId,
    methods: &[Name],
) -> Result<Option<Name>, AllocError>
    ensures { IfOk result (λ found. (p : AProgram) → AreBodies p t.now bodies.now → AreShared p t.now.known.items shared.now
        → names.now ≡ mask_names p → IsNumber t.now.known.items id class.now → IsClass p class.now
        → FirstOf (FailsFor p class.now) methods.now found) }
{
    for name in methods {
        if fails_for(alloc, t, bodies, shared, names, class, id, name)? {
            return Ok(Some(*name));
        }
    }
    Ok(None)
}

/// The first method name of a class, by its bytes, of which some constraint fails; a package has none.
fn failing_at(
    alloc: Global,
    t: &Table,
    bodies: &Bodies,
    shared: &Shared,
    names: &[Name],
    id: ClassId,
) -> Result<Option<Name>, AllocError>
    requires { IsFilledAt t.now id }
    ensures { IfOk result (λ found. (p : AProgram) (R : APath) → AreBodies p t.now bodies.now → AreShared p t.now.known.items shared.now
        → names.now ≡ mask_names p → IsNumber t.now.known.items id R → FirstBad p (FailsFor p R) found) }
{
    match t.row(id).kind {
        Kind::Package => Ok(None),
        Kind::Class => {
            let class = class_of(alloc, t, id)?;
            first_failing(
                alloc,
                t,
                bodies,
                shared,
                names,
                &class,
                id,
                &t.row(id).methods,
            )
        }
    }
}

/// The first refusal of a constraint, in class order.
fn first_refused(
    alloc: Global,
    p: &Program,
    t: &Table,
    bodies: &Bodies,
    shared: &Shared,
    names: &[Name],
) -> Result<Option<Refusal>, AllocError>
    requires bodies { AreBodies p.now t.now bodies.now }
    requires shared { AreShared p.now t.now.known.items shared.now }
    requires names { names.now ≡ mask_names p.now }
    ensures { IfOk result (λ found. FirstFailingIs p.now found) }
{
    for k in 0..t.known().len() {
        let id = ClassId(k as u16);
        match failing_at(alloc, t, bodies, shared, names, id)? {
            Some(member) => {
                let at = place_of(p, t, bodies, id, member);
                let fault = ClassFault {
                    rule: Rule::E21,
                    at,
                    member,
                };
                return Ok(Some(refusal_at(alloc, t, id, fault)?));
            }
            None => {}
        }
    }
    Ok(None)
}

/// Whether each constraint of the least body of each method holds with `this` at each class, where the limits of
/// entries and slots pass. The first refusal is answered: of the first class in class order, and of its first method
/// by bytes.
pub fn judge_constraints(
    alloc: Global,
    p: &Program,
    t: &Table,
    bodies: &Bodies,
    shared: &Shared,
    names: &[Name],
) -> Result<(), CheckFault>
    requires limits { LimitsPass p.now }
    requires bodies { AreBodies p.now t.now bodies.now }
    requires shared { AreShared p.now t.now.known.items shared.now }
    requires names { names.now ≡ mask_names p.now }
    ensures { OrRefused p.now (λ u. HeadersPass p.now) result }
{
    match first_refused(alloc, p, t, bodies, shared, names)? {
        Some(refusal) => Err(CheckFault::Refused(refusal)),
        None => Ok(()),
    }
}

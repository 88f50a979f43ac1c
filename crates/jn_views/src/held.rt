ghost use Rattle.std.specs.Prelude.{◌≡◌, ◌<◌, ◌↔◌, length, map, IsTrue};
ghost use Rattle.jn_base.specs.Atoms.{atom_of, atoms_in};
ghost use Rattle.jn_table.specs.Tables.{IsFilledAt};
ghost use Rattle.jn_sem.specs.Sets.{InAtoms, no_views};
ghost use Rattle.jn_sem.specs.Sharing.{IsClass};
ghost use Rattle.jn_views.specs.declared.held.Held.TheVariants.{Yes as AYes};
ghost use Rattle.jn_views.specs.Held.{sides, masks_of, SaysHeld};
ghost use Rattle.jn_views.specs.Turning.{FamilyTold, SaysOfNumber, HeldAt, SaysHeldAt};

use crate::passing::first_blocked;
use crate::target::{family_of, turned};
use jn_base::tree::{Kind, Name};
use jn_base::types::{Atom, Masks, Ty};
use jn_share::{Groups, Slots, in_atoms};
use jn_table::{ClassId, Table};

/// Whether a constraint holds, or what refutes it.
#[derive(Clone, Copy, Debug, PartialEq, Eq)]
pub enum Held {
    Yes,
    /// The class has no counterpart in the target's family that is in the target.
    NoCounterpart(ClassId),
    /// The field of the class, which is a counterpart, doesn't pass.
    Unshared(ClassId, Name),
}

/// The atoms of a type.
fn atoms(from: &Ty) -> &[Atom]
    ensures { map atom_of result.now ≡ atoms_in from.now }
{
    match from {
        Ty::Class(xs, _) => xs.as_slice(),
        Ty::Int => &[],
        Ty::Bool => &[],
        Ty::Null => &[],
        Ty::Void => &[],
    }
}

/// The masks of a type.
fn masks(from: &Ty) -> Masks
    ensures { result ≡ masks_of from.now }
{
    match from {
        Ty::Class(_, m) => *m,
        Ty::Int => Masks([0, 0, 0, 0]),
        Ty::Bool => Masks([0, 0, 0, 0]),
        Ty::Null => Masks([0, 0, 0, 0]),
        Ty::Void => Masks([0, 0, 0, 0]),
    }
}

/// Whether the path of the number is a class in the type.
fn concerns(t: &Table, from: &Ty, u: ClassId) -> bool
    requires { IsFilledAt t.now u }
    ensures { SaysOfNumber t.now u (λ p U. IsTrue result ↔ (IsClass p U × InAtoms p no_views (atoms_in from.now) U)) }
{
    match t.row(u).kind {
        Kind::Class => in_atoms(t, None, atoms(from), u),
        Kind::Package => false,
    }
}

/// Whether the constraint holds of a class, or what refutes it there.
fn held_at(
    t: &Table,
    g: &Groups,
    s: &Slots,
    from: &Ty,
    to: &Atom,
    m: Masks,
    names: &[Name],
    family: Option<ClassId>,
    u: ClassId,
) -> Held
    requires { FamilyTold t.now (atom_of to.now) family }
    ensures { SaysHeldAt t.now g.now s.now u
        (λ p U. HeldAt p t.now.known.items (sides from.now to.now m names.now) u U result) }
{
    match turned(t, g, to, family, u) {
        None => Held::NoCounterpart(u),
        Some(w) => match first_blocked(t, s, masks(from), m, names, u, w) {
            None => Held::Yes,
            Some(field) => Held::Unshared(w, field),
        },
    }
}

/// Whether it holds.
fn is_yes(held: Held) -> bool
    ensures { IsTrue result ↔ (held ≡ AYes) }
{
    match held {
        Held::Yes => true,
        Held::NoCounterpart(_) => false,
        Held::Unshared(_, _) => false,
    }
}

/// Whether the constraint from the type to the atom with the masks holds, or what refutes it. `names` gives each mask
/// number its name.
pub fn holds(
    t: &Table,
    g: &Groups,
    s: &Slots,
    from: &Ty,
    to: &Atom,
    m: Masks,
    names: &[Name],
) -> Held
    ensures { SaysHeld t.now g.now s.now (sides from.now to.now m names.now) result }
{
    let family = family_of(t, to);
    for k in 0..t.known().len() {
        let u = ClassId(k as u16);
        if concerns(t, from, u) {
            let held = held_at(t, g, s, from, to, m, names, family, u);
            if !is_yes(held) {
                return held;
            }
        }
    }
    Held::Yes
}

ghost use Rattle.std.specs.Prelude.{◌≡◌, ◌<◌, ◌↔◌, ◌∷◌, [], length, IsTrue, IfSome, IfNone};
ghost use Rattle.jn_base.specs.Atoms.{atom_of};
ghost use Rattle.jn_sem.specs.Holds.{target_family};
ghost use Rattle.jn_share.specs.Atoms.{HasNames};
ghost use Rattle.jn_table.specs.declared.class.ClassId.{ClassId as AClassId};
ghost use Rattle.jn_views.specs.Turning.{FamilyTold, TurnsTold, SaysOfGroups};

use jn_base::compare::same_names;
use jn_base::tree::Name;
use jn_base::types::Atom;
use jn_share::{Groups, in_atom};
use jn_table::{ClassId, Table};
use sqlite_items::at;

/// The family of an atom: the first of its names, the exact ones first.
fn target(to: &Atom) -> Option<Name>
    ensures { result ≡ target_family (atom_of to.now) }
{
    match at(to.exact.as_slice(), 0) {
        Some(name) => Some(*name),
        None => match at(to.names.as_slice(), 0) {
            Some(name) => Some(*name),
            None => None,
        },
    }
}

/// Whether the path of the number is the name alone.
fn is_family(t: &Table, k: usize, name: Name) -> bool
    requires { k < length t.now.known.items }
    ensures { IsTrue result ↔ HasNames t.now.known.items (name ∷ []) (record { 0 = k }) }
{
    same_names(t.known()[k].names.as_slice(), &[name])
}

/// The number of the family with this name.
fn family_number(t: &Table, name: Name) -> Option<ClassId>
    ensures some { IfSome result (λ id. HasNames t.now.known.items (name ∷ []) id) }
    ensures none { IfNone result ((id : AClassId) → HasNames t.now.known.items (name ∷ []) id → ⊥) }
{
    for k in 0..t.known().len() {
        if is_family(t, k, name) {
            return Some(ClassId(k as u16));
        }
    }
    None
}

/// The number of the family of an atom, where it has one.
pub fn family_of(t: &Table, to: &Atom) -> Option<ClassId>
    ensures { FamilyTold t.now (atom_of to.now) result }
{
    match target(to) {
        None => None,
        Some(name) => family_number(t, name),
    }
}

/// The counterpart of a class in the family, where it is in the atom.
pub fn turned(
    t: &Table,
    g: &Groups,
    to: &Atom,
    family: Option<ClassId>,
    u: ClassId,
) -> Option<ClassId>
    requires { FamilyTold t.now (atom_of to.now) family }
    ensures filled { IfSome result (λ w. w.0 < length t.now.known.items) }
    ensures told { SaysOfGroups t.now g.now u (λ p U. TurnsTold p t.now.known.items (atom_of to.now) U result) }
{
    match family {
        None => None,
        Some(family) => match g.counterpart(u, family) {
            None => None,
            Some(w) => {
                if (w.0 as usize) < t.known().len() && in_atom(t, None, to, w) {
                    Some(w)
                } else {
                    None
                }
            }
        },
    }
}

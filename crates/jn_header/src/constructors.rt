//! The constructors of classes.

ghost use Rattle.std.specs.Prelude.{◌≡◌, ◌∷◌, ◌↔◌, reverse, Some, IsTrue, option_copied};
ghost use Rattle.jn_base.specs.declared.tree.Program.{Program};
ghost use Rattle.jn_base.specs.declared.types.Ty.TheVariants as ATy;
ghost use Rattle.jn_base.specs.Paths.{Path as APath};
ghost use Rattle.jn_base.specs.Supers.{Sup};
ghost use Rattle.jn_table.specs.Rows.{IsNumber, AreClasses};
ghost use Rattle.jn_table.specs.Tables.{IsFilledAt};
ghost use Rattle.jn_rules.specs.Questions.{Answers};
ghost use Rattle.jn_rules.specs.Members.{ConstructorPasses};
ghost use Rattle.jn_header.specs.Bodies.{AreBodies};
ghost use Rattle.jn_header.specs.Constructors.{constructor_signature, last_of, PassesAt, SupersPass};

use crate::alike::{is_empty, is_same, is_void};
use crate::bodies::{Bodies, BodyHead};
use crate::least::least_head;
use jn_base::compare::is_name;
use jn_base::path::Path;
use jn_base::tree::Name;
use jn_table::{ClassId, Table};
use sqlite_items::at;

/// Whether two constructors have one signature; a missing one has no parameters and no result.
fn are_same(a: Option<&BodyHead>, b: Option<&BodyHead>) -> bool
    ensures { IsTrue result ↔ (constructor_signature (option_copied a.entry) ≡ constructor_signature (option_copied b.entry)) }
{
    match a {
        None => match b {
            None => true,
            Some(y) => is_empty(y),
        },
        Some(x) => match b {
            None => is_empty(x),
            Some(y) => is_same(x, y),
        },
    }
}

/// Whether a constructor has no result.
fn gives_none(a: Option<&BodyHead>) -> bool
    ensures { IsTrue result ↔ ((constructor_signature (option_copied a.entry)).result ≡ ATy.Void) }
{
    match a {
        None => true,
        Some(x) => is_void(&x.result),
    }
}

/// The last name of a path.
fn last_name(path: &Path) -> Option<Name>
    ensures { result ≡ last_of (reverse path.now.names) }
{
    match path.names.as_slice() {
        [] => None,
        [.., last] => Some(*last),
    }
}

/// The last name of the path of a number.
pub fn last_at(t: &Table, id: ClassId) -> Option<Name>
    ensures { (R : APath) → IsNumber t.now.known.items id R → result ≡ last_of R }
{
    match at(t.known(), id.0 as usize) {
        None => None,
        Some(path) => last_name(path),
    }
}

/// Whether both are there and one.
fn is_just(a: Option<Name>, name: Name) -> bool
    ensures { IsTrue result ↔ (a ≡ Some name) }
{
    match a {
        None => false,
        Some(other) => is_name(other, name),
    }
}

/// Whether a class has another last name, or a constructor of the same signature.
fn passes_at(t: &Table, bodies: &Bodies, own: Option<&BodyHead>, name: Name, id: ClassId) -> bool
    ensures { (p : Program) (S : APath) → AreBodies p t.now bodies.now → IsNumber t.now.known.items id S
        → Answers (PassesAt p (constructor_signature (option_copied own.entry)) name S) result }
{
    if !is_just(last_at(t, id), name) {
        return true;
    }
    are_same(own, least_head(bodies, id, name))
}

/// Whether all supers pass.
fn supers_pass(
    t: &Table,
    bodies: &Bodies,
    own: Option<&BodyHead>,
    name: Name,
    sups: &[ClassId],
) -> bool
    ensures { (p : Program) (R : APath) → AreBodies p t.now bodies.now → AreClasses p t.now.known.items (Sup p R) sups.now
        → Answers (SupersPass p (constructor_signature (option_copied own.entry)) name R) result }
{
    for id in sups {
        if !passes_at(t, bodies, own, name, *id) {
            return false;
        }
    }
    true
}

/// Whether the constructor of a class, whose last name is given, has no result and one signature with that of each
/// strict super with the same last name.
pub fn constructor_passes(t: &Table, bodies: &Bodies, id: ClassId, name: Name) -> bool
    requires { IsFilledAt t.now id }
    ensures { (p : Program) (P : APath) → AreBodies p t.now bodies.now → IsNumber t.now.known.items id (name ∷ P)
        → Answers (ConstructorPasses p name P) result }
{
    let own = least_head(bodies, id, name);
    gives_none(own) && supers_pass(t, bodies, own, name, &t.row(id).sups)
}

//! The first method name of a class that is bad.

ghost use Rattle.std.specs.Prelude.{◌≡◌, List, IsTrue};
ghost use Rattle.jn_base.specs.declared.tree.Program.{Program};
ghost use Rattle.jn_base.specs.declared.path.Path.{Path as ShownPath};
ghost use Rattle.jn_base.specs.Paths.{Path as APath};
ghost use Rattle.jn_base.specs.Supers.{Sup};
ghost use Rattle.jn_table.specs.Rows.{IsNumber, AreClasses};
ghost use Rattle.jn_table.specs.Tables.{IsFilledAt};
ghost use Rattle.jn_table.specs.declared.table.Table.{Table as ATable};
ghost use Rattle.jn_names.specs.Members.{SaysDeclaring};
ghost use Rattle.jn_sem.specs.Does.{Body};
ghost use Rattle.jn_rules.specs.Questions.{Answers};
ghost use Rattle.jn_rules.specs.Members.{BadMethod};
ghost use Rattle.jn_header.specs.Bodies.{AreBodies, IsHeadOf, SaysOf};
ghost use Rattle.jn_header.specs.Members.{FirstOf, FirstBad};
ghost use Rattle.jn_header.specs.Methods.{IsOtherAt, IsOtherIn, IsOtherSuper};

use crate::alike::is_same;
use crate::bodies::{Bodies, BodyHead};
use crate::least::{head_at, least_head};
use jn_base::tree::Name;
use jn_names::Least;
use jn_table::{ClassId, Table};

/// Whether the declaration of a class has a body of the method with another signature.
fn is_other(bodies: &Bodies, own: &BodyHead, name: Name, id: ClassId) -> bool
    ensures { (b : Body) → SaysOf bodies.now id (λ p S. IsHeadOf p b own.now → Answers (IsOtherAt p b name S) result) }
{
    match head_at(&bodies.rows, id, name) {
        None => false,
        Some(head) => !is_same(own, head),
    }
}

/// Whether some of the supers has a body of the method with another signature.
fn super_differs(bodies: &Bodies, own: &BodyHead, name: Name, sups: &[ClassId]) -> bool
    ensures { (b : Body) (p : Program) (t : ATable) (R : APath) → AreBodies p t bodies.now
        → AreClasses p t.known.items (Sup p R) sups.now
        → IsHeadOf p b own.now → Answers (IsOtherIn p b name R) result }
{
    for id in sups {
        if is_other(bodies, own, name, *id) {
            return true;
        }
    }
    false
}

/// Whether the other class is a super, and its declaration has a body of the method with another signature.
fn is_other_super(bodies: &Bodies, own: &BodyHead, name: Name, id: ClassId, other: ClassId) -> bool
    ensures { (b : Body) (p : Program) (t : ATable) (R : APath) → AreBodies p t bodies.now
        → IsNumber t.known.items id R
        → IsHeadOf p b own.now → Answers (IsOtherSuper p t.known.items b name R other) result }
{
    if !bodies.members.is_super(id, other) {
        return false;
    }
    is_other(bodies, own, name, other)
}

/// Whether some of the classes that declare the method is a super and has a body of it with another signature.
fn declared_differs(
    bodies: &Bodies,
    own: &BodyHead,
    name: Name,
    id: ClassId,
    declaring: &[ClassId],
) -> bool
    requires { SaysDeclaring bodies.now.members name declaring.now }
    ensures { (b : Body) (p : Program) (t : ATable) (R : APath) → AreBodies p t bodies.now
        → IsNumber t.known.items id R
        → IsHeadOf p b own.now → Answers (IsOtherIn p b name R) result }
{
    for other in declaring {
        if is_other_super(bodies, own, name, id, *other) {
            return true;
        }
    }
    false
}

/// Whether some of the supers has a body of the method with another signature. The supers or the classes that declare
/// the method are walked, whichever are fewer.
fn differs(bodies: &Bodies, own: &BodyHead, name: Name, id: ClassId, sups: &[ClassId]) -> bool
    ensures { (b : Body) (p : Program) (t : ATable) (R : APath) → AreBodies p t bodies.now
        → IsNumber t.known.items id R → AreClasses p t.known.items (Sup p R) sups.now
        → IsHeadOf p b own.now → Answers (IsOtherIn p b name R) result }
{
    let declaring = bodies.members.declaring(name);
    if declaring.len() < sups.len() {
        return declared_differs(bodies, own, name, id, declaring);
    }
    super_differs(bodies, own, name, sups)
}

/// Whether a method name of a class has no least body, or some body of it has another signature than the least one.
fn is_bad(t: &Table, bodies: &Bodies, id: ClassId, name: &Name) -> bool
    requires { IsFilledAt t.now id }
    ensures { (p : Program) (R : APath) → AreBodies p t.now bodies.now → IsNumber t.now.known.items id R
        → Answers (BadMethod p R name.now) result }
{
    match bodies.members.least(id, *name) {
        Least::None => false,
        Least::Many(_, _) => true,
        Least::One(_) => match least_head(bodies, id, *name) {
            None => false,
            Some(own) => differs(bodies, own, *name, id, &t.row(id).sups),
        },
    }
}

/// The first of the method names that is bad.
fn first_bad(t: &Table, bodies: &Bodies, id: ClassId, names: &[Name]) -> Option<Name>
    requires { IsFilledAt t.now id }
    ensures { (p : Program) (R : APath) → AreBodies p t.now bodies.now → IsNumber t.now.known.items id R
        → FirstOf (BadMethod p R) names.now result }
{
    for name in names {
        if is_bad(t, bodies, id, name) {
            return Some(*name);
        }
    }
    None
}

/// The first method name of a class, by its bytes, that is bad; none where no name is.
pub fn bad_method(t: &Table, bodies: &Bodies, id: ClassId) -> Option<Name>
    requires { IsFilledAt t.now id }
    ensures { (p : Program) (R : APath) → AreBodies p t.now bodies.now → IsNumber t.now.known.items id R
        → FirstBad p (BadMethod p R) result }
{
    first_bad(t, bodies, id, &t.row(id).methods)
}

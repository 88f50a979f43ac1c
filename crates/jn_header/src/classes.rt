//! What is refused of the members of classes: their methods, fields and constructors.

ghost use Rattle.std.specs.Prelude.{◌≡◌, [], IfOk};
ghost use Rattle.jn_base.specs.Duplicates.{duplicates};
ghost use Rattle.jn_base.specs.Members.{IsHome};
ghost use Rattle.jn_base.specs.Paths.{Path as APath};
ghost use Rattle.jn_base.specs.declared.tree.Program.{Program as AProgram};
ghost use Rattle.jn_intern.specs.Pools.{Keeps};
ghost use Rattle.jn_table.specs.Rows.{IsNumber};
ghost use Rattle.jn_table.specs.Tables.{IsTableOf, IsFilled, IsFilledAt};
ghost use Rattle.jn_rules.specs.Members.{BadMethod, MethodRefused, NoName};
ghost use Rattle.jn_rules.specs.Verdict.{MembersPass};
ghost use Rattle.jn_header.specs.Bodies.{AreBodies, IsJudged};
ghost use Rattle.jn_header.specs.Classes.{of_fault, IsPlaceOf, ConstructorTold, MembersTold, ClassTold, FirstRefusedIs, OrRefused};

use crate::bodies::{Bodies, bodies_of};
use crate::constructors::{constructor_passes, last_at};
use crate::least::least_head;
use crate::members::field_twice;
use crate::methods::bad_method;
use jn_base::path::Path;
use jn_base::refusal::{Refusal, Rule};
use jn_base::tree::{Kind, Name, Place, Program};
use jn_heads::CheckFault;
use jn_homes::home_of;
use jn_intern::Pool;
use jn_table::{ClassId, Table};
use sqlite_items::Items;
use std::alloc::{AllocError, Global};

/// What is refused of a class: by which rule, at which place, and of which member.
#[derive(Clone, Copy)]
pub struct ClassFault {
    pub rule: Rule,
    pub at: Place,
    pub member: Name,
}

/// The home of the path of a number.
fn home_at(p: &Program, t: &Table, id: ClassId) -> Place
    requires once { duplicates p.now ≡ [] }
    requires filled { IsFilledAt t.now id }
    ensures { IsFilled p.now t.now → (R : APath) → IsNumber t.now.known.items id R → IsHome p.now R result }
{
    match home_of(p, &t.row(id).path) {
        Some(at) => at,
        None => Place { line: 1, column: 1 },
    }
}

/// The place of the least body's name, or the home of the class where the method has no least body.
pub fn place_of(p: &Program, t: &Table, bodies: &Bodies, id: ClassId, m: Name) -> Place
    requires bodies { AreBodies p.now t.now bodies.now }
    requires filled { IsFilledAt t.now id }
    ensures { (R : APath) → IsNumber t.now.known.items id R → IsPlaceOf p.now R m result }
{
    match least_head(bodies, id, m) {
        Some(head) => head.name.at,
        None => home_at(p, t, id),
    }
}

/// The fault of a bad method name: that it has no least body, or that a body has another signature.
fn method_fault(p: &Program, t: &Table, bodies: &Bodies, id: ClassId, m: Name) -> ClassFault
    requires bodies { AreBodies p.now t.now bodies.now }
    requires filled { IsFilledAt t.now id }
    ensures { (R : APath) → IsNumber t.now.known.items id R → BadMethod p.now R m → MethodRefused p.now R m (of_fault R result) }
{
    let at = place_of(p, t, bodies, id, m);
    match least_head(bodies, id, m) {
        Some(_) => ClassFault {
            rule: Rule::E11,
            at,
            member: m,
        },
        None => ClassFault {
            rule: Rule::E09,
            at,
            member: m,
        },
    }
}

/// The fault of the constructor of a class, where it has one.
fn constructor_fault(p: &Program, t: &Table, bodies: &Bodies, id: ClassId) -> Option<ClassFault>
    requires bodies { AreBodies p.now t.now bodies.now }
    requires filled { IsFilledAt t.now id }
    ensures { (R : APath) → IsNumber t.now.known.items id R → ConstructorTold p.now R result }
{
    match last_at(t, id) {
        None => None,
        Some(name) => {
            if constructor_passes(t, bodies, id, name) {
                None
            } else {
                Some(ClassFault {
                    rule: Rule::E11,
                    at: place_of(p, t, bodies, id, name),
                    member: name,
                })
            }
        }
    }
}

/// The fault of the fields of a class, or of its constructor.
fn behind_methods(p: &Program, t: &Table, bodies: &Bodies, id: ClassId) -> Option<ClassFault>
    requires bodies { AreBodies p.now t.now bodies.now }
    requires filled { IsFilledAt t.now id }
    ensures { (R : APath) → IsNumber t.now.known.items id R → NoName (BadMethod p.now R) → MembersTold p.now R result }
{
    match field_twice(t, &bodies.members, id) {
        Some(field) => Some(ClassFault {
            rule: Rule::E10,
            at: home_at(p, t, id),
            member: field,
        }),
        None => constructor_fault(p, t, bodies, id),
    }
}

/// The first fault of a class: of its method names, by bytes, its field names, by bytes, or its constructor.
fn members_fault(p: &Program, t: &Table, bodies: &Bodies, id: ClassId) -> Option<ClassFault>
    requires bodies { AreBodies p.now t.now bodies.now }
    requires filled { IsFilledAt t.now id }
    ensures { (R : APath) → IsNumber t.now.known.items id R → MembersTold p.now R result }
{
    match bad_method(t, bodies, id) {
        Some(m) => Some(method_fault(p, t, bodies, id, m)),
        None => behind_methods(p, t, bodies, id),
    }
}

/// The first fault of a path, where it is a class.
fn class_fault(p: &Program, t: &Table, bodies: &Bodies, id: ClassId) -> Option<ClassFault>
    requires bodies { AreBodies p.now t.now bodies.now }
    requires filled { IsFilledAt t.now id }
    ensures { (R : APath) → IsNumber t.now.known.items id R → ClassTold p.now R result }
{
    match t.row(id).kind {
        Kind::Class => members_fault(p, t, bodies, id),
        Kind::Package => None,
    }
}

/// The refusal that shows the path of a number.
pub fn refusal_at(
    alloc: Global,
    t: &Table,
    id: ClassId,
    fault: ClassFault,
) -> Result<Refusal, AllocError>
    requires { IsFilledAt t.now id }
    ensures { IfOk result (λ r. (p : AProgram) (R : APath) → IsTableOf p t.now → IsNumber t.now.known.items id R → r ≡ of_fault R fault) }
{
    let names = Items::from_slice(alloc, t.row(id).path.names.as_slice())?;
    Ok(Refusal {
        rule: fault.rule,
        at: fault.at,
        class: Some(Path { names }),
        member: Some(fault.member),
        limit: None,
    })
}

/// The first refusal of the members of classes, in class order.
fn first_refused(
    alloc: Global,
    p: &Program,
    t: &Table,
    bodies: &Bodies,
) -> Result<Option<Refusal>, AllocError>
    requires { AreBodies p.now t.now bodies.now }
    ensures { IfOk result (λ found. FirstRefusedIs p.now found) }
{
    for k in 0..t.known().len() {
        let id = ClassId(k as u16);
        match class_fault(p, t, bodies, id) {
            Some(fault) => return Ok(Some(refusal_at(alloc, t, id, fault)?)),
            None => {}
        }
    }
    Ok(None)
}

/// The methods of a program whose class table and headers pass, or the first refusal of the members of classes: a
/// method name without a least body, or with a body of another signature; a field with two declarations; a
/// constructor with a result, or with another signature than that of a super with the same last name.
pub fn judge_members(
    alloc: Global,
    p: &Program,
    t: &mut Table,
    masks: &[Name],
    pool: &mut Pool,
) -> Result<Bodies, CheckFault>
    requires { IsJudged p.now t.old masks.now }
    ensures told { OrRefused p.now (λ b. MembersPass p.now × AreBodies p.now t.old b) result }
    ensures keeps { Keeps pool.old pool.new }
    ensures kept { t.new ≡ t.old }
{
    match bodies_of(alloc, p, t, masks, pool) {
        Err(fault) => Err(fault),
        Ok(bodies) => match first_refused(alloc, p, t, &bodies)? {
            Some(refusal) => Err(CheckFault::Refused(refusal)),
            None => Ok(bodies),
        },
    }
}

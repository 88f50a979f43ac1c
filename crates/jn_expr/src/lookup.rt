//! The methods and fields of declarations.

ghost use Rattle.std.specs.Prelude.{◌≡◌, [], ◌∷◌, reverse, option_copied, Contains, IfSome};
ghost use Rattle.jn_base.specs.Paths.{methods, fields};
ghost use Rattle.jn_base.specs.Duplicates.{duplicates};
ghost use Rattle.jn_expr.specs.Found.{FindsNamed, method_name, field_name, MethodIs, FieldIs};

use jn_base::path::Path;
use jn_base::tree::{Field, Member, Method, Name, Program};
use jn_homes::decl_near;
use jn_table::Table;

/// The member, where it is a method of this name.
fn method_named(m: &Member, name: Name) -> Option<&Method>
    ensures { FindsNamed method_name (methods (m.now ∷ [])) name (option_copied result) }
{
    match m {
        Member::Body(body) => {
            if body.name.name.0 == name.0 {
                Some(body)
            } else {
                None
            }
        }
        Member::Inner(_) => None,
        Member::Slot(_) => None,
    }
}

/// The first method of this name.
fn method_in(members: &[Member], name: Name) -> Option<&Method>
    ensures { FindsNamed method_name (methods members.now) name (option_copied result) }
{
    for m in members {
        if let Some(body) = method_named(m, name) {
            return Some(body);
        }
    }
    None
}

/// The member, where it is a field of this name.
fn field_named(m: &Member, name: Name) -> Option<&Field>
    ensures { FindsNamed field_name (fields (m.now ∷ [])) name (option_copied result) }
{
    match m {
        Member::Slot(f) => {
            if f.name.name.0 == name.0 {
                Some(f)
            } else {
                None
            }
        }
        Member::Inner(_) => None,
        Member::Body(_) => None,
    }
}

/// The first field of this name.
fn field_in(members: &[Member], name: Name) -> Option<&Field>
    ensures { FindsNamed field_name (fields members.now) name (option_copied result) }
{
    for m in members {
        if let Some(f) = field_named(m, name) {
            return Some(f);
        }
    }
    None
}

/// The method of this name, looked for first at the place.
fn method_near<'a>(members: &'a [Member], name: Name, place: Option<usize>) -> Option<&'a Method>
    ensures { FindsNamed method_name (methods members.now) name (option_copied result) }
{
    match method_here(members, name, place) {
        Some(found) => Some(found),
        None => method_in(members, name),
    }
}

/// The method at the place, where it has this name.
fn method_here<'a>(members: &'a [Member], name: Name, place: Option<usize>) -> Option<&'a Method>
    ensures { IfSome (option_copied result) (λ x. Contains (methods members.now) x × (method_name x ≡ name)) }
{
    match members.get(place?) {
        None => None,
        Some(m) => method_named(m, name),
    }
}

/// The method of this name in the declaration at a path. No name stands twice in the program.
pub fn method_at<'a>(p: &'a Program, t: &Table, path: &Path, name: Name) -> Option<&'a Method>
    requires { duplicates p.now ≡ [] }
    ensures { MethodIs p.now (reverse path.now.names) name (option_copied result) }
{
    match decl_near(p, path, t.way(path)) {
        None => None,
        Some(d) => method_near(d.members.as_slice(), name, t.method_place(path, name)),
    }
}

/// The field of this name, looked for first at the place.
fn field_near<'a>(members: &'a [Member], name: Name, place: Option<usize>) -> Option<&'a Field>
    ensures { FindsNamed field_name (fields members.now) name (option_copied result) }
{
    match field_here(members, name, place) {
        Some(found) => Some(found),
        None => field_in(members, name),
    }
}

/// The field at the place, where it has this name.
fn field_here<'a>(members: &'a [Member], name: Name, place: Option<usize>) -> Option<&'a Field>
    ensures { IfSome (option_copied result) (λ x. Contains (fields members.now) x × (field_name x ≡ name)) }
{
    match members.get(place?) {
        None => None,
        Some(m) => field_named(m, name),
    }
}

/// The field of this name in the declaration at a path. No name stands twice in the program.
pub fn field_at<'a>(p: &'a Program, t: &Table, path: &Path, name: Name) -> Option<&'a Field>
    requires { duplicates p.now ≡ [] }
    ensures { FieldIs p.now (reverse path.now.names) name (option_copied result) }
{
    match decl_near(p, path, t.way(path)) {
        None => None,
        Some(d) => field_near(d.members.as_slice(), name, t.field_place(path, name)),
    }
}

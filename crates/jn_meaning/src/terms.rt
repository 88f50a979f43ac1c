//! What the terms and types of a body stand for.

ghost use Rattle.std.specs.Prelude.{◌≡◌, IfOk};
ghost use Rattle.jn_sem.specs.Slots.{FieldType};
ghost use Rattle.jn_sem.specs.Terms.{spot, TypeIs, FieldTypeIs};
ghost use Rattle.jn_table.specs.Tables.{IsFilledAt};
ghost use Rattle.jn_meaning.specs.World.{Stands};
ghost use Rattle.jn_meaning.specs.Values.{path_at};
ghost use Rattle.jn_meaning.specs.Tells.{Tells};
ghost use Rattle.jn_meaning.specs.Sites.{site_with, TermTold};

use crate::classes::names_at;
use crate::fault::MeanFault;
use crate::finding::field_at;
use crate::normal::normal_type;
use crate::world::World;
use jn_base::names::{Role, Spot, Vars};
use jn_base::path::Path;
use jn_base::tree::{Name, Term, TypeTerm};
use jn_base::types::{Atom, Ty};
use jn_names::{Least, NameFault, resolve, resolve_type};
use jn_table::{ClassId, Table};
use sqlite_items::Items;
use std::alloc::{AllocError, Global};

/// Where a term stands in the declaration of a class, in its method or field.
pub fn spot_at(
    alloc: Global,
    t: &Table,
    class: ClassId,
    owner: Name,
    role: Role,
) -> Result<Spot, AllocError>
    ensures { IfOk result (λ s. s ≡ spot (path_at t.now.known.items class) owner role) }
{
    let names = Items::from_slice(alloc, names_at(t, class))?;
    Ok(Spot {
        class: Path { names },
        owner,
        role,
    })
}

/// The type of a parameter, result or local; none where it stands for none.
pub fn type_at(
    alloc: Global,
    w: &World,
    t: &mut Table,
    class: ClassId,
    owner: Name,
    vars: &Vars,
    ty: &TypeTerm,
) -> Result<Option<Ty>, MeanFault>
    requires { Stands w.now t.old }
    ensures told { IfOk result (λ o. Tells (TypeIs w.now.program.now (site_with (path_at t.old.known.items class) owner vars.now) ty.now) o) }
    ensures kept { t.new ≡ t.old }
{
    let spot = spot_at(alloc, t, class, owner, Role::Value)?;
    match resolve_type(alloc, w.program, t, &spot, vars, w.masks, ty) {
        Err(NameFault::Refused(_)) => Ok(None),
        Err(NameFault::Memory) => Err(MeanFault::Memory),
        Ok(given) => {
            let form = normal_type(alloc, names_at(t, class), vars.list.as_slice(), given)?;
            Ok(Some(form))
        }
    }
}

/// The atom of the term of `new` or `super`; none where it stands for none.
pub fn term_at(
    alloc: Global,
    w: &World,
    t: &mut Table,
    class: ClassId,
    owner: Name,
    vars: &Vars,
    role: Role,
    term: &Term,
) -> Result<Option<Atom>, MeanFault>
    requires { Stands w.now t.old }
    ensures told { IfOk result (λ o. TermTold w.now.program.now role (site_with (path_at t.old.known.items class) owner vars.now) term.now o) }
    ensures kept { t.new ≡ t.old }
{
    let spot = spot_at(alloc, t, class, owner, role)?;
    match resolve(alloc, w.program, t, &spot, vars, term) {
        Err(NameFault::Refused(_)) => Ok(None),
        Err(NameFault::Memory) => Err(MeanFault::Memory),
        Ok(x) => Ok(Some(x)),
    }
}

/// The type of the field that is declared at a class; none where it stands for none.
fn declared_type(
    alloc: Global,
    w: &World,
    t: &mut Table,
    class: ClassId,
    f: Name,
    ty: &TypeTerm,
) -> Result<Option<Ty>, MeanFault>
    requires { Stands w.now t.old }
    ensures told { IfOk result (λ o. Tells (FieldTypeIs w.now.program.now (path_at t.old.known.items class) f ty.now) o) }
    ensures kept { t.new ≡ t.old }
{
    let spot = spot_at(alloc, t, class, f, Role::Field)?;
    let vars = Vars {
        list: Items::new(alloc),
    };
    match resolve_type(alloc, w.program, t, &spot, &vars, w.masks, ty) {
        Err(NameFault::Refused(_)) => Ok(None),
        Err(NameFault::Memory) => Err(MeanFault::Memory),
        Ok(given) => Ok(Some(given)),
    }
}

/// The type of a field of a class; none where it has none.
pub fn field_type(
    alloc: Global,
    w: &World,
    t: &mut Table,
    id: ClassId,
    f: Name,
) -> Result<Option<Ty>, MeanFault>
    requires stands { Stands w.now t.old }
    requires filled { IsFilledAt t.old id }
    ensures told { IfOk result (λ o. Tells (FieldType w.now.program.now (path_at t.old.known.items id) f) o) }
    ensures kept { t.new ≡ t.old }
{
    match w.members.field(id, f) {
        Least::None => Ok(None),
        Least::Many(_, _) => Ok(None),
        Least::One(class) => match field_at(w.program, t, class, f) {
            None => Ok(None),
            Some(field) => declared_type(alloc, w, t, class, f, &field.ty),
        },
    }
}

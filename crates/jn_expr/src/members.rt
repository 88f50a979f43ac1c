//! The fields, methods and constructors that a class or a value of a type has.

ghost use Rattle.std.specs.Prelude.{◌≡◌, [], IfOk, map};
ghost use Rattle.jn_base.specs.declared.tree.Program.{Program as AProgram};
ghost use Rattle.jn_base.specs.Paths.{Path as APath};
ghost use Rattle.jn_base.specs.Duplicates.{duplicates};
ghost use Rattle.jn_base.specs.Atoms.{atom_of, atoms_in};
ghost use Rattle.jn_base.specs.Fits.{BindsFit};
ghost use Rattle.jn_intern.specs.Pools.{ScopeInPool, scope_in};
ghost use Rattle.jn_table.specs.Rows.{IsNumber};
ghost use Rattle.jn_names.specs.Members.{IsMembersOf};
ghost use Rattle.jn_heads.specs.Places.{IsReady};
ghost use Rattle.jn_rules.specs.Questions.{Finds, IsFoundField};
ghost use Rattle.jn_expr.specs.Found.{LeastAt, FieldFrom, MethodFirst, FieldFirst, ConstructorFrom, found_in, IsDeclared};

use crate::lookup::field_at;
use jn_base::names::{Role, Vars};
use jn_base::tree::{Name, Program};
use jn_base::types::{Atom, Ty};
use jn_heads::spot;
use jn_intern::{Pool, Scope};
use jn_names::{Bound, Least, Members, resolve_type};
use jn_subtype::scope_bound;
use jn_table::{ClassId, Table};
use sqlite_items::{Items, at};
use std::alloc::{AllocError, Global};

/// A field that was found: the class that declares it, and its type there.
#[derive(Drop)]
pub struct Declared {
    pub class: Bound,
    pub ty: Ty,
}

/// The path of a number.
pub fn path_of_number(alloc: Global, table: &Table, id: ClassId) -> Result<Bound, AllocError>
    ensures { IfOk result (λ b. (R : APath) → IsNumber table.now.known.items id R → b ≡ R) }
{
    match at(table.known(), id.0 as usize) {
        None => Err(AllocError),
        Some(path) => Bound::of(alloc, path.names.as_slice()),
    }
}

/// The class that declares the least body of a method of a class, where it has one.
///
/// No class of an accepted program has bodies without a least one; of one that had nothing is told.
pub fn least_at(
    alloc: Global,
    table: &Table,
    members: &Members,
    class: &Bound,
    name: Name,
) -> Result<Option<Bound>, AllocError>
    ensures { IfOk result (λ o. (p : AProgram) → IsMembersOf p table.now members.now → LeastAt p class.now name o) }
{
    match class.number(table) {
        None => Ok(None),
        Some(id) => match members.least(id, name) {
            Least::None => Ok(None),
            Least::One(owner) => {
                let found = path_of_number(alloc, table, owner)?;
                Ok(Some(found))
            }
            Least::Many(_, _) => Err(AllocError),
        },
    }
}

/// The class that declares a field of a class, where it has it.
///
/// No class of an accepted program has a field with two declarations; of one that had nothing is told.
fn field_from(
    alloc: Global,
    table: &Table,
    members: &Members,
    class: &Bound,
    name: Name,
) -> Result<Option<Bound>, AllocError>
    ensures { IfOk result (λ o. (p : AProgram) → IsMembersOf p table.now members.now → FieldFrom p class.now name o) }
{
    match class.number(table) {
        None => Ok(None),
        Some(id) => match members.field(id, name) {
            Least::None => Ok(None),
            Least::One(owner) => {
                let found = path_of_number(alloc, table, owner)?;
                Ok(Some(found))
            }
            Least::Many(_, _) => Err(AllocError),
        },
    }
}

/// The class that declares the least body of the constructor of a class, where it has one.
pub fn constructor_from(
    alloc: Global,
    table: &Table,
    members: &Members,
    class: &Bound,
) -> Result<Option<Bound>, AllocError>
    ensures { IfOk result (λ o. (p : AProgram) → IsMembersOf p table.now members.now → ConstructorFrom p class.now o) }
{
    match class.names().last() {
        None => Ok(None),
        Some(name) => least_at(alloc, table, members, class, *name),
    }
}

/// The class that declares the least body of a method at the bound of the first of the atoms whose bound has it.
fn method_of_atoms(
    alloc: Global,
    pool: &Pool,
    scope: &Scope,
    table: &Table,
    members: &Members,
    xs: &[Atom],
    name: Name,
) -> Result<Option<Bound>, AllocError>
    requires known { ScopeInPool pool.now scope.now }
    requires fits { BindsFit (scope_in pool.now scope.now) }
    ensures { IfOk result (λ o. (p : AProgram) → IsMembersOf p table.now members.now
        → MethodFirst p (scope_in pool.now scope.now) (map atom_of xs.now) name o) }
{
    for x in xs {
        let b = scope_bound(alloc, pool, scope, x)?;
        match least_at(alloc, table, members, &b, name)? {
            None => {}
            Some(found) => return Ok(Some(found)),
        }
    }
    Ok(None)
}

/// The class that declares the field of the first of the atoms whose bound has it.
fn field_of_atoms(
    alloc: Global,
    pool: &Pool,
    scope: &Scope,
    table: &Table,
    members: &Members,
    xs: &[Atom],
    name: Name,
) -> Result<Option<Bound>, AllocError>
    requires known { ScopeInPool pool.now scope.now }
    requires fits { BindsFit (scope_in pool.now scope.now) }
    ensures { IfOk result (λ o. (p : AProgram) → IsMembersOf p table.now members.now
        → FieldFirst p (scope_in pool.now scope.now) (map atom_of xs.now) name o) }
{
    for x in xs {
        let b = scope_bound(alloc, pool, scope, x)?;
        match field_from(alloc, table, members, &b, name)? {
            None => {}
            Some(found) => return Ok(Some(found)),
        }
    }
    Ok(None)
}

/// The class that declares the body of a method of a value of the type, where the value has the method.
pub fn method_of(
    alloc: Global,
    pool: &Pool,
    scope: &Scope,
    table: &Table,
    members: &Members,
    ty: &Ty,
    name: Name,
) -> Result<Option<Bound>, AllocError>
    requires known { ScopeInPool pool.now scope.now }
    requires fits { BindsFit (scope_in pool.now scope.now) }
    ensures { IfOk result (λ o. (p : AProgram) → IsMembersOf p table.now members.now
        → MethodFirst p (scope_in pool.now scope.now) (atoms_in ty.now) name o) }
{
    match ty {
        Ty::Class(xs, _) => {
            method_of_atoms(alloc, pool, scope, table, members, xs.as_slice(), name)
        }
        Ty::Int => Ok(None),
        Ty::Bool => Ok(None),
        Ty::Null => Ok(None),
        Ty::Void => Ok(None),
    }
}

/// The class that declares the field of a value of the type, where the value has the field.
fn field_class(
    alloc: Global,
    pool: &Pool,
    scope: &Scope,
    table: &Table,
    members: &Members,
    ty: &Ty,
    name: Name,
) -> Result<Option<Bound>, AllocError>
    requires known { ScopeInPool pool.now scope.now }
    requires fits { BindsFit (scope_in pool.now scope.now) }
    ensures { IfOk result (λ o. (p : AProgram) → IsMembersOf p table.now members.now
        → FieldFirst p (scope_in pool.now scope.now) (atoms_in ty.now) name o) }
{
    match ty {
        Ty::Class(xs, _) => {
            field_of_atoms(alloc, pool, scope, table, members, xs.as_slice(), name)
        }
        Ty::Int => Ok(None),
        Ty::Bool => Ok(None),
        Ty::Null => Ok(None),
        Ty::Void => Ok(None),
    }
}

/// The type of a field that the class declares.
///
/// The types of fields of an accepted program resolve; of one that didn't nothing is told.
fn declared_type(
    alloc: Global,
    p: &Program,
    table: &mut Table,
    masks: &[Name],
    class: &Bound,
    name: Name,
) -> Result<Ty, AllocError>
    requires once { duplicates p.now ≡ [] }
    requires ready { IsReady p.now table.old masks.now }
    ensures is { IfOk result (λ t. IsDeclared p.now class.now name t) }
    ensures kept { table.new ≡ table.old }
{
    let path = class.shown(alloc)?;
    match field_at(p, table, &path, name) {
        None => Err(AllocError),
        Some(field) => {
            let spot = spot(alloc, class, field.name.name, Role::Field)?;
            let vars = Vars {
                list: Items::new(alloc),
            };
            match resolve_type(alloc, p, table, &spot, &vars, masks, &field.ty) {
                Ok(ty) => Ok(ty),
                Err(_) => Err(AllocError),
            }
        }
    }
}

/// The field of a value of the type, where it has it: that of the bound of the first atom whose bound has it.
pub fn field_of(
    alloc: Global,
    p: &Program,
    table: &mut Table,
    members: &Members,
    masks: &[Name],
    pool: &Pool,
    scope: &Scope,
    ty: &Ty,
    name: Name,
) -> Result<Option<Declared>, AllocError>
    requires once { duplicates p.now ≡ [] }
    requires ready { IsReady p.now table.old masks.now }
    requires members { IsMembersOf p.now table.old members.now }
    requires known { ScopeInPool pool.now scope.now }
    requires fits { BindsFit (scope_in pool.now scope.now) }
    ensures is { IfOk result (λ o. Finds (IsFoundField p.now (scope_in pool.now scope.now) ty.now name) (found_in o)) }
    ensures kept { table.new ≡ table.old }
{
    match field_class(alloc, pool, scope, table, members, ty, name)? {
        None => Ok(None),
        Some(class) => {
            let ty = declared_type(alloc, p, table, masks, &class, name)?;
            Ok(Some(Declared { class, ty }))
        }
    }
}

ghost use Rattle.std.specs.Prelude.{◌≡◌, ◌↔◌, ◌++◌, [], ◌∷◌, map, reverse, cond, IsTrue, IfOk, option_copied};
ghost use Rattle.jn_base.specs.declared.tree.Name.{Name as AName};
ghost use Rattle.jn_base.specs.declared.tree.Program.{Program as AProgram};
ghost use Rattle.jn_base.specs.declared.tree.Method.{Method as AMethod};
ghost use Rattle.jn_base.specs.declared.tree.Field.{Field as AField};
ghost use Rattle.jn_base.specs.Duplicates.{duplicates};
ghost use Rattle.jn_base.specs.Members.{MethodAt, FieldAt};
ghost use Rattle.jn_base.specs.Atoms.{atom_of};
ghost use Rattle.jn_base.specs.Paths.{Path as APath, methods, fields};
ghost use Rattle.jn_table.specs.Rows.{HasMethod};
ghost use Rattle.jn_table.specs.Tables.{IsFilled, IsFilledAt, StandsFor};
ghost use Rattle.jn_lower.specs.Written.{written_kind, written_result, param_kind};
ghost use Rattle.jn_lower.specs.Told.{Tells, IsMethodNamed, IsFieldNamed, IsCallee, MakesBy, OwnKind, IsGetter};

use crate::selecting::{field_number, method_number, name_of};
use jn_agree::selectors::{FieldSel, MethodSel};
use jn_base::compare::has_name;
use jn_base::path::Path;
use jn_base::tree::{Field, Member, Method, Name, Param, Program, TypeTerm};
use jn_base::types::Atom;
use jn_homes::decl_near;
use jn_share::Slots;
use jn_table::{ClassId, Table};
use std::alloc::{AllocError, Global};

/// By what a method is called: the number of its selector, the kinds of its parameters, and that of its result.
#[derive(Drop)]
pub struct Callee {
    pub selector: u32,
    pub params: Vec<u8>,
    pub kind: u8,
}

/// By what a field is read and written: the number of its selector, and its kind.
#[derive(Clone, Copy)]
pub struct Getter {
    pub selector: u32,
    pub kind: u8,
}

/// The kind of a written type: 1 a number, 2 a truth value, 3 a reference.
fn kind_of(ty: &TypeTerm) -> u8
    ensures { result ≡ written_kind ty.now }
{
    match ty {
        TypeTerm::Int => 1,
        TypeTerm::Bool => 2,
        TypeTerm::Class(_, _) => 3,
    }
}

/// The kind of a result, 0 where there is none.
fn result_of(ty: &Option<TypeTerm>) -> u8
    ensures { result ≡ written_result ty.now }
{
    match ty {
        None => 0,
        Some(ty) => kind_of(ty),
    }
}

/// The kinds of the parameters.
fn kinds_of(alloc: Global, params: &[Param]) -> Result<Vec<u8>, AllocError>
    ensures { IfOk result (λ all. all.items ≡ map param_kind params.now) }
{
    let mut all = Vec::new(alloc);
    for x in params {
        all.push(kind_of(&x.ty))?;
    }
    Ok(all)
}

/// The member, where it is a method of this name.
fn method_of(member: &Member, m: Name) -> Option<&Method>
    ensures { Tells (IsMethodNamed (methods (member.now ∷ [])) m) (option_copied result) }
{
    match member {
        Member::Body(x) => { if x.name.name.0 == m.0 { Some(x) } else { None } }
        Member::Inner(_) => None,
        Member::Slot(_) => None,
    }
}

/// The first method of this name.
fn method_named(members: &[Member], m: Name) -> Option<&Method>
    ensures { Tells (IsMethodNamed (methods members.now) m) (option_copied result) }
{
    for member in members {
        if let Some(x) = method_of(member, m) {
            return Some(x);
        }
    }
    None
}

/// The member, where it is a field of this name.
fn field_of(member: &Member, f: Name) -> Option<&Field>
    ensures { Tells (IsFieldNamed (fields (member.now ∷ [])) f) (option_copied result) }
{
    match member {
        Member::Slot(x) => { if x.name.name.0 == f.0 { Some(x) } else { None } }
        Member::Inner(_) => None,
        Member::Body(_) => None,
    }
}

/// The first field of this name.
fn field_named(members: &[Member], f: Name) -> Option<&Field>
    ensures { Tells (IsFieldNamed (fields members.now) f) (option_copied result) }
{
    for member in members {
        if let Some(x) = field_of(member, f) {
            return Some(x);
        }
    }
    None
}

/// The method of this name in the declaration at the path. No name stands twice in the program.
pub fn method_at<'a>(p: &'a Program, t: &Table, path: &Path, m: Name) -> Option<&'a Method>
    requires { duplicates p.now ≡ [] }
    ensures { Tells (MethodAt p.now (reverse path.now.names) m) (option_copied result) }
{
    match decl_near(p, path, t.way(path)) {
        None => None,
        Some(decl) => method_named(decl.members.as_slice(), m),
    }
}

/// The field of this name in the declaration at the path. No name stands twice in the program.
pub fn field_at<'a>(p: &'a Program, t: &Table, path: &Path, f: Name) -> Option<&'a Field>
    requires { duplicates p.now ≡ [] }
    ensures { Tells (FieldAt p.now (reverse path.now.names) f) (option_copied result) }
{
    match decl_near(p, path, t.way(path)) {
        None => None,
        Some(decl) => field_named(decl.members.as_slice(), f),
    }
}

/// By what the method is called. A method without a selector, which none of a program with its own selectors is, is
/// refused for want of memory.
fn callee_of(alloc: Global, names: &[MethodSel], f: Name, m: &Method) -> Result<Callee, AllocError>
    ensures { IfOk result (IsCallee names.now f m.now) }
{
    let params = kinds_of(alloc, m.params.as_slice())?;
    let kind = result_of(&m.result);
    match method_number(names, f, &params, kind)? {
        None => Err(AllocError),
        Some(selector) => Ok(Callee {
            selector,
            params,
            kind,
        }),
    }
}

/// By what the method of this name at the path is called. A path without one, which no checked body uses, is refused for
/// want of memory.
pub fn callee_at(
    alloc: Global,
    p: &Program,
    t: &Table,
    names: &[MethodSel],
    path: &Path,
    f: Name,
) -> Result<Callee, AllocError>
    requires { duplicates p.now ≡ [] }
    ensures { IfOk result (λ x. (m : AMethod) → MethodAt p.now (reverse path.now.names) f m → IsCallee names.now f m x) }
{
    match method_at(p, t, path, f) {
        None => Err(AllocError),
        Some(m) => callee_of(alloc, names, f, m),
    }
}

/// Whether a class has a method of that name: some declaration at one of its supers has one.
pub fn has_method(t: &Table, id: ClassId, m: Name) -> bool
    requires { IsFilledAt t.now id }
    ensures { (p : AProgram) (R : APath) → IsFilled p t.now → StandsFor t.now id R → IsTrue result ↔ HasMethod p R m }
{
    has_name(&t.row(id).methods, m)
}

/// What is called, where it gives nothing. A constructor that gives something, which no checked program has, is refused
/// for want of memory.
fn without_result(x: Callee) -> Result<Callee, AllocError>
    ensures { IfOk result (λ y. (y ≡ x) × (y.kind ≡ 0)) }
{
    if x.kind == 0 { Ok(x) } else { Err(AllocError) }
}

/// By what the constructor of the atom's class is called, which the class at the path declares.
pub fn constructor_at(
    alloc: Global,
    p: &Program,
    t: &Table,
    names: &[MethodSel],
    x: &Atom,
    path: &Path,
) -> Result<Callee, AllocError>
    requires { duplicates p.now ≡ [] }
    ensures { IfOk result (λ c. (C : AName) (P : APath) (m : AMethod)
        → (atom_of x.now).names ++ (atom_of x.now).exact ≡ C ∷ P → MethodAt p.now (reverse path.now.names) C m
        → MakesBy names.now C m c) }
{
    match name_of(x) {
        None => Err(AllocError),
        Some(name) => {
            let found = callee_at(alloc, p, t, names, path, name)?;
            without_result(found)
        }
    }
}

/// The kind of a field: 4 where its type hangs on `this`.
fn own_kind(hangs: bool, kind: u8) -> u8
    ensures { result ≡ cond hangs 4 kind }
{
    if hangs { 4 } else { kind }
}

/// The kind of the field that the class at the path declares. A path that isn't in the table, at which no class of the
/// program is, is refused for want of memory.
fn kind_at(t: &Table, s: &Slots, path: &Path, f: Name, field: &Field) -> Result<u8, AllocError>
    ensures { IfOk result (OwnKind t.now s.now (reverse path.now.names) f field.now) }
{
    match t.find(path) {
        None => Err(AllocError),
        Some(id) => Ok(own_kind(s.hangs(id, f), kind_of(&field.ty))),
    }
}

/// By what the field is read and written. A field without a selector, which none of a program with its own selectors is,
/// is refused for want of memory.
fn getter_of(
    t: &Table,
    s: &Slots,
    names: &[FieldSel],
    path: &Path,
    f: Name,
    field: &Field,
) -> Result<Getter, AllocError>
    ensures { IfOk result (IsGetter t.now s.now names.now (reverse path.now.names) f field.now) }
{
    let kind = kind_at(t, s, path, f, field)?;
    match field_number(names, f, kind)? {
        None => Err(AllocError),
        Some(selector) => Ok(Getter { selector, kind }),
    }
}

/// By what the field of this name at the path is read and written. A path without one, which no checked body uses, is
/// refused for want of memory.
pub fn getter_at(
    p: &Program,
    t: &Table,
    s: &Slots,
    names: &[FieldSel],
    path: &Path,
    f: Name,
) -> Result<Getter, AllocError>
    requires { duplicates p.now ≡ [] }
    ensures { IfOk result (λ x. (field : AField) → FieldAt p.now (reverse path.now.names) f field
        → IsGetter t.now s.now names.now (reverse path.now.names) f field x) }
{
    match field_at(p, t, path, f) {
        None => Err(AllocError),
        Some(field) => getter_of(t, s, names, path, f, field),
    }
}

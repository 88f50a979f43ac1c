ghost use Rattle.std.specs.Prelude.{◌≡◌, [], ◌∷◌, map, IfOk, OnOk};
ghost use Rattle.jn_names.specs.FieldTypes.{all_by, fields_of_member, fields_of_decl};
ghost use Rattle.jn_agree.specs.Rows.{of_decl};
ghost use Rattle.jn_layout.specs.Shapes.{term_kind, param_kind, given_kind, IsClassOf, AddsBoth, AreDeclared, bodies_in, all_bodies};

use jn_base::tree::{Decl, Field, Member, Method, Name, Param, Program, TypeTerm};
use jn_names::Bound;
use jn_table::{ClassId, Table};
use std::alloc::{AllocError, Global};

/// A body: the number of the class that declares it, its name, and the kinds of its parameters and its result.
#[derive(Drop)]
pub struct BodyAt {
    pub class: Option<ClassId>,
    pub name: Name,
    pub params: Vec<u8>,
    pub result: u8,
}

/// A declared field: the number of its class, its name, and its kind.
#[derive(Drop)]
pub struct FieldAt {
    pub class: Option<ClassId>,
    pub name: Name,
    pub kind: u8,
}

/// The declared bodies and fields of a program, each in source order.
#[derive(Drop)]
pub struct Declared {
    pub bodies: Vec<BodyAt>,
    pub fields: Vec<FieldAt>,
}

/// The kind of a written type: 1 a number, 2 a truth value, 3 a reference.
fn kind_of(ty: &TypeTerm) -> u8
    ensures { result ≡ term_kind ty.now }
{
    match ty {
        TypeTerm::Int => 1,
        TypeTerm::Bool => 2,
        TypeTerm::Class(_, _) => 3,
    }
}

/// The kind of a result, 0 where there is none.
fn result_of(ty: &Option<TypeTerm>) -> u8
    ensures { result ≡ given_kind ty.now }
{
    match ty {
        None => 0,
        Some(ty) => kind_of(ty),
    }
}

/// The kinds of the parameters.
fn kinds_of(alloc: Global, params: &[Param]) -> Result<Vec<u8>, AllocError>
    ensures { IfOk result (λ all. all.items ≡ map param_kind params.now) }
{
    let mut all = Vec::new(alloc);
    for x in params {
        all.push(kind_of(&x.ty))?;
    }
    Ok(all)
}

/// Adds a body of the class.
fn add_body(
    alloc: Global,
    t: &Table,
    class: &Bound,
    at: Option<ClassId>,
    m: &Method,
    out: &mut Declared,
) -> Result<(), AllocError>
    requires { IsClassOf t.now class.now at }
    ensures { OnOk result (AddsBoth t.now (record { class = class.now; method = m.now } ∷ []) [] out.old out.new) }
{
    let params = kinds_of(alloc, m.params.as_slice())?;
    out.bodies.push(BodyAt {
        class: at,
        name: m.name.name,
        params,
        result: result_of(&m.result),
    })?;
    Ok(())
}

/// Adds a field of the class.
fn add_field(
    t: &Table,
    class: &Bound,
    at: Option<ClassId>,
    f: &Field,
    out: &mut Declared,
) -> Result<(), AllocError>
    requires { IsClassOf t.now class.now at }
    ensures { OnOk result (AddsBoth t.now [] (record { class = class.now; field = f.now } ∷ []) out.old out.new) }
{
    out.fields.push(FieldAt {
        class: at,
        name: f.name.name,
        kind: kind_of(&f.ty),
    })?;
    Ok(())
}

/// Adds the bodies and fields of a member of the class.
#[cycle(declared)]
fn add_member(
    alloc: Global,
    t: &Table,
    class: &Bound,
    at: Option<ClassId>,
    m: &Member,
    out: &mut Declared,
) -> Result<(), AllocError>
    requires { IsClassOf t.now class.now at }
    ensures { OnOk result (AddsBoth t.now (bodies_in m.now class.now) (fields_of_member m.now class.now) out.old
        out.new) }
{
    match m {
        Member::Inner(d) => add_decl(alloc, t, class, d, out),
        Member::Slot(f) => add_field(t, class, at, f, out),
        Member::Body(b) => add_body(alloc, t, class, at, b, out),
    }
}

/// Adds the bodies and fields of the members of the class.
#[cycle(declared)]
fn add_members(
    alloc: Global,
    t: &Table,
    class: &Bound,
    at: Option<ClassId>,
    members: &[Member],
    out: &mut Declared,
) -> Result<(), AllocError>
    requires { IsClassOf t.now class.now at }
    ensures { OnOk result (AddsBoth t.now (all_bodies class.now (map bodies_in members.now))
        (all_by class.now (map fields_of_member members.now)) out.old out.new) }
{
    for m in members {
        add_member(alloc, t, class, at, m, out)?;
    }
    Ok(())
}

/// Adds the bodies and fields of a declaration in a namespace.
#[cycle(declared)]
fn add_decl(
    alloc: Global,
    t: &Table,
    namespace: &Bound,
    d: &Decl,
    out: &mut Declared,
) -> Result<(), AllocError>
    ensures { OnOk result (AddsBoth t.now (of_decl d.now namespace.now) (fields_of_decl d.now namespace.now) out.old
        out.new) }
{
    let mut class = namespace.without(alloc, 0)?;
    class.push(d.name.name)?;
    let at = class.number(t);
    add_members(alloc, t, &class, at, d.members.as_slice(), out)
}

/// Adds the bodies and fields of declarations in a namespace.
fn add_decls(
    alloc: Global,
    t: &Table,
    namespace: &Bound,
    decls: &[Decl],
    out: &mut Declared,
) -> Result<(), AllocError>
    ensures { OnOk result (AddsBoth t.now (all_bodies namespace.now (map of_decl decls.now))
        (all_by namespace.now (map fields_of_decl decls.now)) out.old out.new) }
{
    for d in decls {
        add_decl(alloc, t, namespace, d, out)?;
    }
    Ok(())
}

/// The declared bodies and fields of a program.
pub fn declared_of(alloc: Global, p: &Program, t: &Table) -> Result<Declared, AllocError>
    ensures { IfOk result (λ all. AreDeclared p.now t.now all) }
{
    let root = Bound::root(alloc);
    let bodies = Vec::new(alloc);
    let fields = Vec::new(alloc);
    let mut all = Declared { bodies, fields };
    add_decls(alloc, t, &root, p.decls.as_slice(), &mut all)?;
    Ok(all)
}

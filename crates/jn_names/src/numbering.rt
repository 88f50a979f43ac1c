//! The names of masks, by their first mention.
#![tactic(auto, using(crate::proofs::Notings::noting))]

ghost use Rattle.std.specs.Prelude.{◌≡◌, map, IfOk, OnOk};
ghost use Rattle.jn_base.specs.Forms.{all_of, given, Masked, of_type, of_view, of_node, of_expr, of_link, of_suffix};
ghost use Rattle.jn_base.specs.Forms.{of_stmt, of_param, of_constraint, of_method, of_member, of_decl};
ghost use Rattle.jn_base.specs.ResolveTypes.{mask_names};
ghost use Rattle.jn_names.specs.Noting.{added, noted};

use jn_base::compare::has_name;
use jn_base::tree::{
    Constraint, Decl, Expr, Link, Member, Method, Name, Named, Node, Param, Program, Stmt, Suffix,
    TypeTerm, ViewTerm,
};
use std::alloc::{AllocError, Global};

/// The name behind the others, where it isn't there.
fn note(out: &mut Vec<Name>, name: Name) -> Result<(), AllocError>
    ensures { OnOk result (out.new.items ≡ added out.old.items name) }
{
    if has_name(out, name) {
        return Ok(());
    }
    out.push(name)?;
    Ok(())
}

fn note_masks(out: &mut Vec<Name>, masks: &[Named]) -> Result<(), AllocError>
    ensures { OnOk result (out.new.items ≡ noted out.old.items (map Masked masks.now)) }
{
    for m in masks {
        note(out, m.name)?;
    }
    Ok(())
}

fn note_type(out: &mut Vec<Name>, ty: &TypeTerm) -> Result<(), AllocError>
    ensures { OnOk result (out.new.items ≡ noted out.old.items (of_type ty.now)) }
{
    match ty {
        TypeTerm::Int => Ok(()),
        TypeTerm::Bool => Ok(()),
        TypeTerm::Class(_, masks) => note_masks(out, masks.as_slice()),
    }
}

fn note_view(out: &mut Vec<Name>, view: &ViewTerm) -> Result<(), AllocError>
    ensures { OnOk result (out.new.items ≡ noted out.old.items (of_view view.now)) }
{
    note_masks(out, view.masks.as_slice())
}

#[cycle(expr_masks)]
#[tactic(auto, using(crate::proofs::Notings::expr_noted))]
fn note_expr(out: &mut Vec<Name>, e: &Expr) -> Result<(), AllocError>
    ensures { OnOk result (out.new.items ≡ noted out.old.items (of_expr e.now)) }
{
    note_node(out, &e.node)
}

#[cycle(expr_masks)]
#[tactic(auto, using(crate::proofs::Notings::node_noted))]
fn note_node(out: &mut Vec<Name>, node: &Node) -> Result<(), AllocError>
    ensures { OnOk result (out.new.items ≡ noted out.old.items (of_node node.now)) }
{
    match node {
        Node::Int(_) => Ok(()),
        Node::Bool(_) => Ok(()),
        Node::Null => Ok(()),
        Node::This => Ok(()),
        Node::Var(_) => Ok(()),
        Node::New(_, args) => note_exprs(out, args.as_slice()),
        Node::Super(_, _, args) => note_exprs(out, args.as_slice()),
        Node::Post(first, suffixes) => {
            note_expr(out, first.get())?;
            note_suffixes(out, suffixes.as_slice())
        }
        Node::Not(inner) => note_expr(out, inner.get()),
        Node::Neg(inner) => note_expr(out, inner.get()),
        Node::View(view, inner) => {
            note_view(out, view)?;
            note_expr(out, inner.get())
        }
        Node::Chain(_, first, links) => {
            note_expr(out, first.get())?;
            note_links(out, links.as_slice())
        }
    }
}

#[cycle(expr_masks)]
fn note_exprs(out: &mut Vec<Name>, es: &[Expr]) -> Result<(), AllocError>
    ensures { OnOk result (out.new.items ≡ noted out.old.items (all_of (map of_expr es.now))) }
{
    for e in es {
        note_expr(out, e)?;
    }
    Ok(())
}

#[cycle(expr_masks)]
#[tactic(auto, using(crate::proofs::Notings::link_noted))]
fn note_links(out: &mut Vec<Name>, links: &[Link]) -> Result<(), AllocError>
    ensures { OnOk result (out.new.items ≡ noted out.old.items (all_of (map of_link links.now))) }
{
    for l in links {
        note_expr(out, &l.right)?;
    }
    Ok(())
}

#[cycle(expr_masks)]
#[tactic(auto, using(crate::proofs::Notings::suffix_noted))]
fn note_suffix(out: &mut Vec<Name>, s: &Suffix) -> Result<(), AllocError>
    ensures { OnOk result (out.new.items ≡ noted out.old.items (of_suffix s.now)) }
{
    match &s.args {
        None => Ok(()),
        Some(args) => note_exprs(out, args.as_slice()),
    }
}

#[cycle(expr_masks)]
fn note_suffixes(out: &mut Vec<Name>, suffixes: &[Suffix]) -> Result<(), AllocError>
    ensures { OnOk result (out.new.items ≡ noted out.old.items (all_of (map of_suffix suffixes.now))) }
{
    for s in suffixes {
        note_suffix(out, s)?;
    }
    Ok(())
}

fn note_given(out: &mut Vec<Name>, e: &Option<Expr>) -> Result<(), AllocError>
    ensures { OnOk result (out.new.items ≡ noted out.old.items (given of_expr e.now)) }
{
    match e {
        None => Ok(()),
        Some(e) => note_expr(out, e),
    }
}

#[cycle(stmt_masks)]
#[tactic(auto, using(crate::proofs::Notings::stmt_noted))]
fn note_stmt(out: &mut Vec<Name>, s: &Stmt) -> Result<(), AllocError>
    ensures { OnOk result (out.new.items ≡ noted out.old.items (of_stmt s.now)) }
{
    match s {
        Stmt::Block(body) => note_body(out, body.as_slice()),
        Stmt::Local(_, ty, _, e) => {
            note_type(out, ty)?;
            note_expr(out, e)
        }
        Stmt::Assign(_, e) => note_expr(out, e),
        Stmt::Set(of, _, e) => {
            note_expr(out, of)?;
            note_expr(out, e)
        }
        Stmt::Do(e) => note_expr(out, e),
        Stmt::If(e, body, other, _) => {
            note_expr(out, e)?;
            note_body(out, body.as_slice())?;
            note_body(out, other.as_slice())
        }
        Stmt::While(e, body, _) => {
            note_expr(out, e)?;
            note_body(out, body.as_slice())
        }
        Stmt::Return(e, _) => note_given(out, e),
        Stmt::Print(e, _) => note_expr(out, e),
        Stmt::PrintText(_, _) => Ok(()),
    }
}

#[cycle(stmt_masks)]
fn note_body(out: &mut Vec<Name>, body: &[Stmt]) -> Result<(), AllocError>
    ensures { OnOk result (out.new.items ≡ noted out.old.items (all_of (map of_stmt body.now))) }
{
    for s in body {
        note_stmt(out, s)?;
    }
    Ok(())
}

fn note_params(out: &mut Vec<Name>, params: &[Param]) -> Result<(), AllocError>
    ensures { OnOk result (out.new.items ≡ noted out.old.items (all_of (map of_param params.now))) }
{
    for p in params {
        note_type(out, &p.ty)?;
    }
    Ok(())
}

fn note_constraint(out: &mut Vec<Name>, c: &Constraint) -> Result<(), AllocError>
    ensures { OnOk result (out.new.items ≡ noted out.old.items (of_constraint c.now)) }
{
    note_view(out, &c.from)?;
    note_view(out, &c.to)
}

fn note_constraints(out: &mut Vec<Name>, constraints: &[Constraint]) -> Result<(), AllocError>
    ensures { OnOk result (out.new.items ≡ noted out.old.items (all_of (map of_constraint constraints.now))) }
{
    for c in constraints {
        note_constraint(out, c)?;
    }
    Ok(())
}

fn note_result(out: &mut Vec<Name>, ty: &Option<TypeTerm>) -> Result<(), AllocError>
    ensures { OnOk result (out.new.items ≡ noted out.old.items (given of_type ty.now)) }
{
    match ty {
        None => Ok(()),
        Some(ty) => note_type(out, ty),
    }
}

fn note_method(out: &mut Vec<Name>, m: &Method) -> Result<(), AllocError>
    ensures { OnOk result (out.new.items ≡ noted out.old.items (of_method m.now)) }
{
    note_result(out, &m.result)?;
    note_params(out, m.params.as_slice())?;
    note_constraints(out, m.sharing.as_slice())?;
    note_body(out, m.body.as_slice())
}

#[cycle(decl_masks)]
#[tactic(auto, using(crate::proofs::Notings::member_noted))]
fn note_member(out: &mut Vec<Name>, m: &Member) -> Result<(), AllocError>
    ensures { OnOk result (out.new.items ≡ noted out.old.items (of_member m.now)) }
{
    match m {
        Member::Inner(d) => note_decl(out, d),
        Member::Slot(f) => note_type(out, &f.ty),
        Member::Body(m) => note_method(out, m),
    }
}

#[cycle(decl_masks)]
#[tactic(auto, using(crate::proofs::Notings::decl_noted))]
fn note_decl(out: &mut Vec<Name>, d: &Decl) -> Result<(), AllocError>
    ensures { OnOk result (out.new.items ≡ noted out.old.items (of_decl d.now)) }
{
    note_members(out, d.members.as_slice())
}

#[cycle(decl_masks)]
fn note_members(out: &mut Vec<Name>, members: &[Member]) -> Result<(), AllocError>
    ensures { OnOk result (out.new.items ≡ noted out.old.items (all_of (map of_member members.now))) }
{
    for m in members {
        note_member(out, m)?;
    }
    Ok(())
}

fn note_decls(out: &mut Vec<Name>, decls: &[Decl]) -> Result<(), AllocError>
    ensures { OnOk result (out.new.items ≡ noted out.old.items (all_of (map of_decl decls.now))) }
{
    for d in decls {
        note_decl(out, d)?;
    }
    Ok(())
}

/// The distinct mask names of a program in the order of their first mention as masks. A mask's number is
/// the place of its name.
#[tactic(auto, using(crate::proofs::Notings::noted_firsts))]
pub fn mask_names(alloc: Global, p: &Program) -> Result<Vec<Name>, AllocError>
    ensures { IfOk result (λ names. names.items ≡ mask_names p.now) }
{
    let mut out = Vec::new(alloc);
    note_decls(&mut out, p.decls.as_slice())?;
    Ok(out)
}

//! Tests for the forms that a program has.

ghost use Rattle.std.specs.Prelude.{◌≡◌, ◌||◌, ◌↔◌, IsTrue, map};
ghost use Rattle.jn_base.specs.Forms.{all_of, given, Termed, Masked, Shared, Adapted, of_type, of_view, of_node, of_expr, of_link, of_suffix, of_stmt, of_param, of_constraint, of_field, of_method, of_member, of_decl, is_variable, head_names, HasSharing, NamesPaths};
ghost use Rattle.jn_base.specs.FormTests.{asks_sharing, is_form, has};

use crate::tree::{
    Constraint, Decl, Expr, Head, Link, Member, Method, Named, Node, Param, Program, Ref, Stmt,
    Suffix, Term, TypeTerm, ViewTerm,
};

// What is asked for: a form of sharing, or a term that names a path other than `this`.
#[derive(Clone, Copy, Debug, PartialEq, Eq)]
enum Form {
    Sharing,
    Path,
}

fn asks_sharing(asked: Form) -> bool
    ensures { result ≡ asks_sharing asked }
{
    match asked {
        Form::Sharing => true,
        Form::Path => false,
    }
}

fn is_variable(of: Ref) -> bool
    ensures { result ≡ is_variable of }
{
    match of {
        Ref::This => false,
        Ref::Var(_) => true,
    }
}

fn head_names(head: &Head) -> bool
    ensures { result ≡ head_names head.now }
{
    match head {
        Head::Plain => false,
        Head::Own(of) => is_variable(*of),
        Head::Prefix(_, of) => is_variable(*of),
    }
}

fn in_term(asked: Form, term: &Term) -> bool
    ensures { result ≡ is_form asked (Termed term.now) }
{
    match asked {
        Form::Sharing => false,
        Form::Path => head_names(&term.head),
    }
}

#[tactic(auto, using(crate::proofs::FormsFound::has_none, crate::proofs::FormsFound::has_first, crate::proofs::FormsFound::has_both))]
fn in_terms(asked: Form, terms: &[Term]) -> bool
    ensures { result ≡ has asked (map Termed terms.now) }
{
    for term in terms {
        if in_term(asked, term) {
            return true;
        }
    }
    false
}

#[tactic(auto, using(crate::proofs::FormsFound::no_paths_masked, crate::proofs::FormsFound::masked))]
fn in_masks(asked: Form, masks: &[Named]) -> bool
    ensures { result ≡ has asked (map Masked masks.now) }
{
    asks_sharing(asked) && !masks.is_empty()
}

#[tactic(auto, using(crate::proofs::FormsFound::has_none, crate::proofs::FormsFound::has_first, crate::proofs::FormsFound::has_both))]
fn in_type(asked: Form, ty: &TypeTerm) -> bool
    ensures { result ≡ has asked (of_type ty.now) }
{
    match ty {
        TypeTerm::Int => false,
        TypeTerm::Bool => false,
        TypeTerm::Class(terms, masks) => {
            in_terms(asked, terms.as_slice()) || in_masks(asked, masks.as_slice())
        }
    }
}

#[tactic(auto, using(crate::proofs::FormsFound::has_none, crate::proofs::FormsFound::has_first, crate::proofs::FormsFound::has_both))]
fn in_view(asked: Form, view: &ViewTerm) -> bool
    ensures { result ≡ has asked (of_view view.now) }
{
    in_term(asked, &view.term) || in_masks(asked, view.masks.as_slice())
}

#[cycle(expr_forms)]
#[tactic(auto, using(crate::proofs::FormEquations::at_expr))]
fn in_expr(asked: Form, e: &Expr) -> bool
    ensures { result ≡ has asked (of_expr e.now) }
{
    in_node(asked, &e.node)
}

#[cycle(expr_forms)]
#[tactic(auto, using(crate::proofs::FormsFound::has_none, crate::proofs::FormsFound::has_first, crate::proofs::FormsFound::has_both, crate::proofs::FormEquations::at_number, crate::proofs::FormEquations::at_truth, crate::proofs::FormEquations::at_null, crate::proofs::FormEquations::at_this, crate::proofs::FormEquations::at_variable, crate::proofs::FormEquations::at_new, crate::proofs::FormEquations::at_super, crate::proofs::FormEquations::at_post, crate::proofs::FormEquations::at_inverse, crate::proofs::FormEquations::at_negative, crate::proofs::FormEquations::at_view, crate::proofs::FormEquations::at_chain))]
fn in_node(asked: Form, node: &Node) -> bool
    ensures { result ≡ has asked (of_node node.now) }
{
    match node {
        Node::Int(_) => false,
        Node::Bool(_) => false,
        Node::Null => false,
        Node::This => false,
        Node::Var(_) => false,
        Node::New(term, args) => in_term(asked, term) || in_exprs(asked, args.as_slice()),
        Node::Super(term, _, args) => in_term(asked, term) || in_exprs(asked, args.as_slice()),
        Node::Post(first, suffixes) => {
            in_expr(asked, first.get()) || in_suffixes(asked, suffixes.as_slice())
        }
        Node::Not(inner) => in_expr(asked, inner.get()),
        Node::Neg(inner) => in_expr(asked, inner.get()),
        Node::View(view, inner) => {
            asks_sharing(asked) || in_view(asked, view) || in_expr(asked, inner.get())
        }
        Node::Chain(_, first, links) => {
            in_expr(asked, first.get()) || in_links(asked, links.as_slice())
        }
    }
}

#[cycle(expr_forms)]
#[tactic(auto, using(crate::proofs::FormsFound::has_none, crate::proofs::FormsFound::has_first, crate::proofs::FormsFound::has_both))]
fn in_exprs(asked: Form, es: &[Expr]) -> bool
    ensures { result ≡ has asked (all_of (map of_expr es.now)) }
{
    for e in es {
        if in_expr(asked, e) {
            return true;
        }
    }
    false
}

#[cycle(expr_forms)]
#[tactic(auto, using(crate::proofs::FormsFound::has_none, crate::proofs::FormsFound::has_first, crate::proofs::FormsFound::has_both, crate::proofs::FormEquations::at_link))]
fn in_links(asked: Form, links: &[Link]) -> bool
    ensures { result ≡ has asked (all_of (map of_link links.now)) }
{
    for l in links {
        if in_expr(asked, &l.right) {
            return true;
        }
    }
    false
}

#[cycle(expr_forms)]
#[tactic(auto, using(crate::proofs::FormsFound::has_none, crate::proofs::FormsFound::has_first, crate::proofs::FormsFound::has_both, crate::proofs::FormEquations::at_suffix))]
fn in_suffix(asked: Form, s: &Suffix) -> bool
    ensures { result ≡ has asked (of_suffix s.now) }
{
    match &s.args {
        None => false,
        Some(args) => in_exprs(asked, args.as_slice()),
    }
}

#[cycle(expr_forms)]
#[tactic(auto, using(crate::proofs::FormsFound::has_none, crate::proofs::FormsFound::has_first, crate::proofs::FormsFound::has_both))]
fn in_suffixes(asked: Form, suffixes: &[Suffix]) -> bool
    ensures { result ≡ has asked (all_of (map of_suffix suffixes.now)) }
{
    for s in suffixes {
        if in_suffix(asked, s) {
            return true;
        }
    }
    false
}

#[tactic(auto, using(crate::proofs::FormsFound::has_none, crate::proofs::FormsFound::has_first, crate::proofs::FormsFound::has_both))]
fn in_given(asked: Form, e: &Option<Expr>) -> bool
    ensures { result ≡ has asked (given of_expr e.now) }
{
    match e {
        None => false,
        Some(e) => in_expr(asked, e),
    }
}

#[cycle(stmt_forms)]
#[tactic(auto, using(crate::proofs::FormsFound::has_none, crate::proofs::FormsFound::has_first, crate::proofs::FormsFound::has_both, crate::proofs::FormEquations::at_block, crate::proofs::FormEquations::at_local, crate::proofs::FormEquations::at_assign, crate::proofs::FormEquations::at_set, crate::proofs::FormEquations::at_do, crate::proofs::FormEquations::at_if, crate::proofs::FormEquations::at_while, crate::proofs::FormEquations::at_return, crate::proofs::FormEquations::at_print, crate::proofs::FormEquations::at_text))]
fn in_stmt(asked: Form, s: &Stmt) -> bool
    ensures { result ≡ has asked (of_stmt s.now) }
{
    match s {
        Stmt::Block(body) => in_body(asked, body.as_slice()),
        Stmt::Local(_, ty, _, e) => in_type(asked, ty) || in_expr(asked, e),
        Stmt::Assign(_, e) => in_expr(asked, e),
        Stmt::Set(of, _, e) => in_expr(asked, of) || in_expr(asked, e),
        Stmt::Do(e) => in_expr(asked, e),
        Stmt::If(e, body, other, _) => {
            in_expr(asked, e) || in_body(asked, body.as_slice()) || in_body(asked, other.as_slice())
        }
        Stmt::While(e, body, _) => in_expr(asked, e) || in_body(asked, body.as_slice()),
        Stmt::Return(e, _) => in_given(asked, e),
        Stmt::Print(e, _) => in_expr(asked, e),
        Stmt::PrintText(_, _) => false,
    }
}

#[cycle(stmt_forms)]
#[tactic(auto, using(crate::proofs::FormsFound::has_none, crate::proofs::FormsFound::has_first, crate::proofs::FormsFound::has_both))]
fn in_body(asked: Form, body: &[Stmt]) -> bool
    ensures { result ≡ has asked (all_of (map of_stmt body.now)) }
{
    for s in body {
        if in_stmt(asked, s) {
            return true;
        }
    }
    false
}

#[tactic(auto, using(crate::proofs::FormsFound::has_none, crate::proofs::FormsFound::has_first, crate::proofs::FormsFound::has_both))]
fn in_params(asked: Form, params: &[Param]) -> bool
    ensures { result ≡ has asked (all_of (map of_param params.now)) }
{
    for p in params {
        if in_type(asked, &p.ty) {
            return true;
        }
    }
    false
}

#[tactic(auto, using(crate::proofs::FormsFound::has_none, crate::proofs::FormsFound::has_first, crate::proofs::FormsFound::has_both))]
fn in_constraint(asked: Form, c: &Constraint) -> bool
    ensures { result ≡ has asked (of_constraint c.now) }
{
    asks_sharing(asked) || in_view(asked, &c.from) || in_view(asked, &c.to)
}

#[tactic(auto, using(crate::proofs::FormsFound::has_none, crate::proofs::FormsFound::has_first, crate::proofs::FormsFound::has_both))]
fn in_constraints(asked: Form, constraints: &[Constraint]) -> bool
    ensures { result ≡ has asked (all_of (map of_constraint constraints.now)) }
{
    for c in constraints {
        if in_constraint(asked, c) {
            return true;
        }
    }
    false
}

#[tactic(auto, using(crate::proofs::FormsFound::has_none, crate::proofs::FormsFound::has_first, crate::proofs::FormsFound::has_both))]
fn in_result(asked: Form, ty: &Option<TypeTerm>) -> bool
    ensures { result ≡ has asked (given of_type ty.now) }
{
    match ty {
        None => false,
        Some(ty) => in_type(asked, ty),
    }
}

#[tactic(auto, using(crate::proofs::FormsFound::has_none, crate::proofs::FormsFound::has_first, crate::proofs::FormsFound::has_both))]
fn in_method(asked: Form, m: &Method) -> bool
    ensures { result ≡ has asked (of_method m.now) }
{
    in_result(asked, &m.result)
        || in_params(asked, m.params.as_slice())
        || in_constraints(asked, m.sharing.as_slice())
        || in_body(asked, m.body.as_slice())
}

#[cycle(decl_forms)]
#[tactic(auto, using(crate::proofs::FormEquations::at_inner, crate::proofs::FormEquations::at_slot, crate::proofs::FormEquations::at_body))]
fn in_member(asked: Form, m: &Member) -> bool
    ensures { result ≡ has asked (of_member m.now) }
{
    match m {
        Member::Inner(d) => in_decl(asked, d),
        Member::Slot(f) => in_type(asked, &f.ty),
        Member::Body(m) => in_method(asked, m),
    }
}

#[cycle(decl_forms)]
#[tactic(auto, using(crate::proofs::FormsFound::has_none, crate::proofs::FormsFound::has_first, crate::proofs::FormsFound::has_both, crate::proofs::FormEquations::at_decl))]
fn in_decl(asked: Form, d: &Decl) -> bool
    ensures { result ≡ has asked (of_decl d.now) }
{
    in_lists(asked, d.shares.as_slice(), d.adapts.as_slice())
        || in_members(asked, d.members.as_slice())
}

#[tactic(auto, using(crate::proofs::FormsFound::no_paths_shared, crate::proofs::FormsFound::no_paths_adapted, crate::proofs::FormsFound::shared, crate::proofs::FormsFound::adapted))]
fn in_lists(asked: Form, shares: &[Named], adapts: &[Named]) -> bool
    ensures { result ≡ (has asked (map Shared shares.now) || has asked (map Adapted adapts.now)) }
{
    asks_sharing(asked) && !(shares.is_empty() && adapts.is_empty())
}

#[cycle(decl_forms)]
#[tactic(auto, using(crate::proofs::FormsFound::has_none, crate::proofs::FormsFound::has_first, crate::proofs::FormsFound::has_both))]
fn in_members(asked: Form, members: &[Member]) -> bool
    ensures { result ≡ has asked (all_of (map of_member members.now)) }
{
    for m in members {
        if in_member(asked, m) {
            return true;
        }
    }
    false
}

#[tactic(auto, using(crate::proofs::FormsFound::has_none, crate::proofs::FormsFound::has_first, crate::proofs::FormsFound::has_both))]
fn in_decls(asked: Form, decls: &[Decl]) -> bool
    ensures { result ≡ has asked (all_of (map of_decl decls.now)) }
{
    for d in decls {
        if in_decl(asked, d) {
            return true;
        }
    }
    false
}

/// Whether the program has a form of sharing: `adapts`, `shares`, `sharing`, `(view ..)` or a mask.
pub fn has_sharing(p: &Program) -> bool
    ensures { IsTrue result ↔ HasSharing p.now }
{
    in_decls(Form::Sharing, p.decls.as_slice())
}

/// Whether some term of the program names a path other than `this`.
pub fn names_paths(p: &Program) -> bool
    ensures { IsTrue result ↔ NamesPaths p.now }
{
    in_decls(Form::Path, p.decls.as_slice())
}

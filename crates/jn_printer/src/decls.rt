// Declarations as they are written: each without its indentation and the line feed at its end.

ghost use Rattle.std.specs.Prelude.{◌≡◌, ◌++◌, codes, map, false, OnOk};
ghost use Rattle.jn_printer.specs.Pieces.{joined};
ghost use Rattle.jn_printer.specs.StmtText.{braced, lines};
ghost use Rattle.jn_printer.specs.DeclText.{kind_text, list_text, field_text, result_text, param_text, params_text, constraint_text, sharing_text, signature_text, method_text, heading_text, member_text, decl_text};

use crate::pieces::{print_name, print_names, print_type, print_view, put, put_if};
use crate::stmts::{deeper, print_body};
use jn_base::tree::{Constraint, Decl, Field, Kind, Member, Method, Named, Param, Text, TypeTerm};
use std::alloc::{AllocError, Global};

fn print_kind(out: &mut Vec<u8>, kind: Kind) -> Result<(), AllocError>
    ensures { OnOk result (out.new.items ≡ out.old.items ++ kind_text kind) }
{
    match kind {
        Kind::Class => put(out, b"class "),
        Kind::Package => put(out, b"package "),
    }
}

// The names behind their word; left out where there are none.
fn print_list(
    out: &mut Vec<u8>,
    names: &[Text],
    word: &[u8],
    listed: &[Named],
) -> Result<(), AllocError>
    ensures { OnOk result (out.new.items ≡ out.old.items ++ list_text names.now word.now listed.now) }
{
    if listed.is_empty() {
        return Ok(());
    }
    put(out, word)?;
    print_names(out, names, listed)
}

fn print_field(out: &mut Vec<u8>, names: &[Text], f: &Field) -> Result<(), AllocError>
    ensures { OnOk result (out.new.items ≡ out.old.items ++ field_text names.now f.now) }
{
    print_type(out, names, &f.ty)?;
    put(out, b" ")?;
    print_name(out, names, f.name.name)?;
    put(out, b";")
}

fn print_result(out: &mut Vec<u8>, names: &[Text], ty: &Option<TypeTerm>) -> Result<(), AllocError>
    ensures { OnOk result (out.new.items ≡ out.old.items ++ result_text names.now ty.now) }
{
    match ty {
        None => put(out, b"void"),
        Some(ty) => print_type(out, names, ty),
    }
}

fn print_param(out: &mut Vec<u8>, names: &[Text], p: &Param) -> Result<(), AllocError>
    ensures { OnOk result (out.new.items ≡ out.old.items ++ param_text names.now p.now) }
{
    put_if(out, p.fixed, b"final ")?;
    print_type(out, names, &p.ty)?;
    put(out, b" ")?;
    print_name(out, names, p.name.name)
}

#[tactic(auto, unfolding(crate::specs::DeclText::params_text))]
fn print_params(out: &mut Vec<u8>, names: &[Text], params: &[Param]) -> Result<(), AllocError>
    ensures { OnOk result (out.new.items ≡ out.old.items ++ params_text names.now params.now) }
{
    put(out, b"(")?;
    let mut later = false;
    for p in params {
        put_if(out, later, b", ")?;
        print_param(out, names, p)?;
        later = true;
    }
    put(out, b")")
}

fn print_constraint(out: &mut Vec<u8>, names: &[Text], c: &Constraint) -> Result<(), AllocError>
    ensures { OnOk result (out.new.items ≡ out.old.items ++ constraint_text names.now c.now) }
{
    print_view(out, names, &c.from)?;
    put(out, b" -> ")?;
    print_view(out, names, &c.to)
}

fn print_constraints(
    out: &mut Vec<u8>,
    names: &[Text],
    constraints: &[Constraint],
) -> Result<(), AllocError>
    ensures { OnOk result (out.new.items ≡ out.old.items ++ joined (constraint_text names.now) (codes ", ") false constraints.now) }
{
    let mut later = false;
    for c in constraints {
        put_if(out, later, b", ")?;
        print_constraint(out, names, c)?;
        later = true;
    }
    Ok(())
}

fn print_sharing(
    out: &mut Vec<u8>,
    names: &[Text],
    sharing: &[Constraint],
) -> Result<(), AllocError>
    ensures { OnOk result (out.new.items ≡ out.old.items ++ sharing_text names.now sharing.now) }
{
    if sharing.is_empty() {
        return Ok(());
    }
    put(out, b" sharing ")?;
    print_constraints(out, names, sharing)
}

#[tactic(auto, using(std::proofs::lemmas::Grind::common_steps), unfolding(crate::specs::DeclText::signature_text))]
fn print_signature(out: &mut Vec<u8>, names: &[Text], m: &Method) -> Result<(), AllocError>
    ensures { OnOk result (out.new.items ≡ out.old.items ++ signature_text names.now m.now) }
{
    print_result(out, names, &m.result)?;
    put(out, b" ")?;
    print_name(out, names, m.name.name)?;
    print_params(out, names, m.params.as_slice())?;
    print_sharing(out, names, m.sharing.as_slice())
}

#[tactic(auto, using(std::proofs::lemmas::Grind::common_steps))]
fn print_method(
    alloc: Global,
    out: &mut Vec<u8>,
    names: &[Text],
    texts: &[Text],
    m: &Method,
    indent: &[u8],
) -> Result<(), AllocError>
    ensures { OnOk result (out.new.items ≡ out.old.items ++ method_text names.now texts.now m.now indent.now) }
{
    print_signature(out, names, m)?;
    put(out, b" ")?;
    print_body(alloc, out, names, texts, m.body.as_slice(), indent)
}

#[tactic(auto, using(std::proofs::lemmas::Grind::common_steps), unfolding(crate::specs::DeclText::heading_text))]
fn print_heading(out: &mut Vec<u8>, names: &[Text], d: &Decl) -> Result<(), AllocError>
    ensures { OnOk result (out.new.items ≡ out.old.items ++ heading_text names.now d.now.kind d.now.name d.now.extends d.now.shares d.now.adapts) }
{
    print_kind(out, d.kind)?;
    print_name(out, names, d.name.name)?;
    print_list(out, names, b" extends ", d.extends.as_slice())?;
    print_list(out, names, b" shares ", d.shares.as_slice())?;
    print_list(out, names, b" adapts ", d.adapts.as_slice())
}

#[cycle(decl)]
#[tactic(auto, using(std::proofs::lemmas::Grind::common_steps, crate::proofs::DeclTexts::inner_text, crate::proofs::DeclTexts::slot_text, crate::proofs::DeclTexts::body_member))]
fn print_member(
    alloc: Global,
    out: &mut Vec<u8>,
    names: &[Text],
    texts: &[Text],
    m: &Member,
    indent: &[u8],
) -> Result<(), AllocError>
    ensures { OnOk result (out.new.items ≡ out.old.items ++ member_text names.now texts.now m.now indent.now) }
{
    match m {
        Member::Inner(d) => print_decl(alloc, out, names, texts, d, indent),
        Member::Slot(f) => print_field(out, names, f),
        Member::Body(m) => print_method(alloc, out, names, texts, m, indent),
    }
}

#[cycle(decl)]
fn print_members(
    alloc: Global,
    out: &mut Vec<u8>,
    names: &[Text],
    texts: &[Text],
    members: &[Member],
    indent: &[u8],
) -> Result<(), AllocError>
    ensures { OnOk result (out.new.items ≡ out.old.items ++ braced indent.now (map (member_text names.now texts.now) members.now)) }
{
    let inner = deeper(alloc, indent)?;
    put(out, b"{\n")?;
    for m in members {
        put(out, inner.as_slice())?;
        print_member(alloc, out, names, texts, m, inner.as_slice())?;
        put(out, b"\n")?;
    }
    put(out, indent)?;
    put(out, b"}")
}

/// Writes a declaration.
#[cycle(decl)]
#[tactic(auto, using(std::proofs::lemmas::Grind::common_steps, crate::proofs::DeclTexts::decl_parts))]
pub fn print_decl(
    alloc: Global,
    out: &mut Vec<u8>,
    names: &[Text],
    texts: &[Text],
    d: &Decl,
    indent: &[u8],
) -> Result<(), AllocError>
    ensures { OnOk result (out.new.items ≡ out.old.items ++ decl_text names.now texts.now d.now indent.now) }
{
    print_heading(out, names, d)?;
    put(out, b" ")?;
    print_members(alloc, out, names, texts, d.members.as_slice(), indent)
}

// Names, terms, views and types as they are written.

ghost use Rattle.std.specs.Prelude.{◌≡◌, ◌++◌, codes, false, OnOk};
ghost use Rattle.jn_printer.specs.Pieces.{text_if, joined, name_text, dotted, masks_text, names_text, ref_text, head_text, has_head, ends_text, term_text, view_text, type_text};

use jn_base::tree::{Head, Name, Named, Ref, Term, Text, TypeTerm, ViewTerm};
use std::alloc::AllocError;

pub fn put(out: &mut Vec<u8>, text: &[u8]) -> Result<(), AllocError>
    ensures { OnOk result (out.new.items ≡ out.old.items ++ text.now) }
{
    out.extend_from_slice(text)
}

pub fn put_if(out: &mut Vec<u8>, holds: bool, text: &[u8]) -> Result<(), AllocError>
    ensures { OnOk result (out.new.items ≡ out.old.items ++ text_if holds text.now) }
{
    if holds {
        return put(out, text);
    }
    Ok(())
}

pub fn print_name(out: &mut Vec<u8>, names: &[Text], x: Name) -> Result<(), AllocError>
    ensures { OnOk result (out.new.items ≡ out.old.items ++ name_text names.now x) }
{
    match names.get(x.0 as usize) {
        None => Ok(()),
        Some(text) => put(out, text.bytes.as_slice()),
    }
}

// The names with dots between them, and where `later` says so also in front of them.
pub fn print_dotted(
    out: &mut Vec<u8>,
    names: &[Text],
    later: bool,
    path: &[Name],
) -> Result<(), AllocError>
    ensures { OnOk result (out.new.items ≡ out.old.items ++ dotted names.now later path.now) }
{
    let mut dot = later;
    for x in path {
        put_if(out, dot, b".")?;
        print_name(out, names, *x)?;
        dot = true;
    }
    Ok(())
}

pub fn print_masks(out: &mut Vec<u8>, names: &[Text], masks: &[Named]) -> Result<(), AllocError>
    ensures { OnOk result (out.new.items ≡ out.old.items ++ masks_text names.now masks.now) }
{
    for m in masks {
        put(out, b"\\")?;
        print_name(out, names, m.name)?;
    }
    Ok(())
}

pub fn print_names(out: &mut Vec<u8>, names: &[Text], listed: &[Named]) -> Result<(), AllocError>
    ensures { OnOk result (out.new.items ≡ out.old.items ++ names_text names.now listed.now) }
{
    let mut later = false;
    for x in listed {
        put_if(out, later, b" & ")?;
        print_name(out, names, x.name)?;
        later = true;
    }
    Ok(())
}

fn print_ref(out: &mut Vec<u8>, names: &[Text], r: Ref) -> Result<(), AllocError>
    ensures { OnOk result (out.new.items ≡ out.old.items ++ ref_text names.now r) }
{
    match r {
        Ref::This => put(out, b"this"),
        Ref::Var(x) => print_name(out, names, x),
    }
}

fn print_head(out: &mut Vec<u8>, names: &[Text], h: &Head) -> Result<(), AllocError>
    ensures { OnOk result (out.new.items ≡ out.old.items ++ head_text names.now h.now) }
{
    match h {
        Head::Plain => Ok(()),
        Head::Own(r) => {
            print_ref(out, names, *r)?;
            put(out, b".class")
        }
        Head::Prefix(path, r) => {
            print_dotted(out, names, false, path.as_slice())?;
            put(out, b"[")?;
            print_ref(out, names, *r)?;
            put(out, b".class]")
        }
    }
}

fn has_head(h: &Head) -> bool
    ensures { result ≡ has_head h.now }
{
    match h {
        Head::Plain => false,
        Head::Own(_) | Head::Prefix(_, _) => true,
    }
}

// The exact names with a `!` behind them, where there are any, and the others.
fn print_ends(
    out: &mut Vec<u8>,
    names: &[Text],
    later: bool,
    exact: &[Name],
    others: &[Name],
) -> Result<(), AllocError>
    ensures { OnOk result (out.new.items ≡ out.old.items ++ ends_text names.now later exact.now others.now) }
{
    if exact.is_empty() {
        return print_dotted(out, names, later, others);
    }
    print_dotted(out, names, later, exact)?;
    put(out, b"!")?;
    print_dotted(out, names, true, others)
}

#[tactic(auto, unfolding(crate::specs::Pieces::term_text))]
pub fn print_term(out: &mut Vec<u8>, names: &[Text], t: &Term) -> Result<(), AllocError>
    ensures { OnOk result (out.new.items ≡ out.old.items ++ term_text names.now t.now) }
{
    print_head(out, names, &t.head)?;
    print_ends(
        out,
        names,
        has_head(&t.head),
        t.exact.as_slice(),
        t.names.as_slice(),
    )
}

#[tactic(auto, unfolding(crate::specs::Pieces::view_text))]
pub fn print_view(out: &mut Vec<u8>, names: &[Text], v: &ViewTerm) -> Result<(), AllocError>
    ensures { OnOk result (out.new.items ≡ out.old.items ++ view_text names.now v.now) }
{
    print_term(out, names, &v.term)?;
    print_masks(out, names, v.masks.as_slice())
}

fn print_terms(out: &mut Vec<u8>, names: &[Text], terms: &[Term]) -> Result<(), AllocError>
    ensures { OnOk result (out.new.items ≡ out.old.items ++ joined (term_text names.now) (codes " & ") false terms.now) }
{
    let mut later = false;
    for t in terms {
        put_if(out, later, b" & ")?;
        print_term(out, names, t)?;
        later = true;
    }
    Ok(())
}

#[tactic(auto, unfolding(crate::specs::Pieces::type_text))]
pub fn print_type(out: &mut Vec<u8>, names: &[Text], ty: &TypeTerm) -> Result<(), AllocError>
    ensures { OnOk result (out.new.items ≡ out.old.items ++ type_text names.now ty.now) }
{
    match ty {
        TypeTerm::Int => put(out, b"int"),
        TypeTerm::Bool => put(out, b"boolean"),
        TypeTerm::Class(terms, masks) => {
            print_terms(out, names, terms.as_slice())?;
            print_masks(out, names, masks.as_slice())
        }
    }
}

// Statements as they are written: each without its indentation and the line feed at its end.

ghost use Rattle.std.specs.Prelude.{◌≡◌, ◌++◌, map, IfOk, OnOk, slice_get};
ghost use Rattle.jn_printer.specs.Pieces.{bytes_of};
ghost use Rattle.jn_printer.specs.StmtText.{deeper, escape, escaped, braced, else_text, given_text, stmt_text, body_text};

use crate::exprs::print_expr;
use crate::pieces::{print_name, print_type, put, put_if};
use crate::symbol::Symbol;
use jn_base::tree::{Expr, Stmt, Text};
use std::alloc::{AllocError, Global};

/// The indentation of what stands in braces.
pub fn deeper(alloc: Global, indent: &[u8]) -> Result<Vec<u8>, AllocError>
    ensures { IfOk result (λ r. r.items ≡ deeper indent.now) }
{
    let mut deeper = Vec::new(alloc);
    put(&mut deeper, indent)?;
    put(&mut deeper, b"  ")?;
    Ok(deeper)
}

fn print_escape(out: &mut Vec<u8>, byte: u8) -> Result<(), AllocError>
    ensures { OnOk result (out.new.items ≡ out.old.items ++ escape byte) }
{
    match byte {
        b'"' => put(out, b"\\\""),
        b'\\' => put(out, b"\\\\"),
        b'\n' => put(out, b"\\n"),
        _ => put(out, &[byte]),
    }
}

fn print_escaped(out: &mut Vec<u8>, bytes: &[u8]) -> Result<(), AllocError>
    ensures { OnOk result (out.new.items ≡ out.old.items ++ escaped bytes.now) }
{
    for byte in bytes {
        print_escape(out, *byte)?;
    }
    Ok(())
}

fn print_string(out: &mut Vec<u8>, texts: &[Text], text: u32) -> Result<(), AllocError>
    ensures { OnOk result (out.new.items ≡ out.old.items ++ escaped (bytes_of (slice_get texts.now text))) }
{
    match texts.get(text as usize) {
        None => Ok(()),
        Some(text) => print_escaped(out, text.bytes.as_slice()),
    }
}

fn print_given(out: &mut Vec<u8>, names: &[Text], e: &Option<Expr>) -> Result<(), AllocError>
    ensures { OnOk result (out.new.items ≡ out.old.items ++ given_text names.now e.now) }
{
    match e {
        None => Ok(()),
        Some(e) => {
            put(out, b" ")?;
            print_expr(out, names, e, Symbol::Expression)
        }
    }
}

#[cycle(stmt)]
#[tactic(auto, using(std::proofs::lemmas::Grind::common_steps, crate::proofs::StmtTexts::block_text))]
fn print_stmt(
    alloc: Global,
    out: &mut Vec<u8>,
    names: &[Text],
    texts: &[Text],
    s: &Stmt,
    indent: &[u8],
) -> Result<(), AllocError>
    ensures { OnOk result (out.new.items ≡ out.old.items ++ stmt_text names.now texts.now s.now indent.now) }
{
    match s {
        Stmt::Block(body) => print_body(alloc, out, names, texts, body.as_slice(), indent),
        Stmt::Local(fixed, ty, name, e) => {
            put_if(out, *fixed, b"final ")?;
            print_type(out, names, ty)?;
            put(out, b" ")?;
            print_name(out, names, name.name)?;
            put(out, b" = ")?;
            print_expr(out, names, e, Symbol::Expression)?;
            put(out, b";")
        }
        Stmt::Assign(name, e) => {
            print_name(out, names, name.name)?;
            put(out, b" = ")?;
            print_expr(out, names, e, Symbol::Expression)?;
            put(out, b";")
        }
        Stmt::Set(of, name, e) => {
            print_expr(out, names, of, Symbol::Post)?;
            put(out, b".")?;
            print_name(out, names, name.name)?;
            put(out, b" = ")?;
            print_expr(out, names, e, Symbol::Expression)?;
            put(out, b";")
        }
        Stmt::Do(e) => {
            print_expr(out, names, e, Symbol::Post)?;
            put(out, b";")
        }
        Stmt::If(e, body, other, _) => {
            put(out, b"if (")?;
            print_expr(out, names, e, Symbol::Expression)?;
            put(out, b") ")?;
            print_body(alloc, out, names, texts, body.as_slice(), indent)?;
            print_else(alloc, out, names, texts, other.as_slice(), indent)
        }
        Stmt::While(e, body, _) => {
            put(out, b"while (")?;
            print_expr(out, names, e, Symbol::Expression)?;
            put(out, b") ")?;
            print_body(alloc, out, names, texts, body.as_slice(), indent)
        }
        Stmt::Return(e, _) => {
            put(out, b"return")?;
            print_given(out, names, e)?;
            put(out, b";")
        }
        Stmt::Print(e, _) => {
            put(out, b"print(")?;
            print_expr(out, names, e, Symbol::Expression)?;
            put(out, b");")
        }
        Stmt::PrintText(text, _) => {
            put(out, b"print(\"")?;
            print_string(out, texts, *text)?;
            put(out, b"\");")
        }
    }
}

/// Writes statements in braces.
#[cycle(stmt)]
pub fn print_body(
    alloc: Global,
    out: &mut Vec<u8>,
    names: &[Text],
    texts: &[Text],
    body: &[Stmt],
    indent: &[u8],
) -> Result<(), AllocError>
    ensures { OnOk result (out.new.items ≡ out.old.items ++ body_text names.now texts.now body.now indent.now) }
{
    let inner = deeper(alloc, indent)?;
    put(out, b"{\n")?;
    for s in body {
        put(out, inner.as_slice())?;
        print_stmt(alloc, out, names, texts, s, inner.as_slice())?;
        put(out, b"\n")?;
    }
    put(out, indent)?;
    put(out, b"}")
}

// An empty block is the same as no `else`.
#[cycle(stmt)]
fn print_else(
    alloc: Global,
    out: &mut Vec<u8>,
    names: &[Text],
    texts: &[Text],
    body: &[Stmt],
    indent: &[u8],
) -> Result<(), AllocError>
    ensures { OnOk result (out.new.items ≡ out.old.items ++ else_text indent.now (map (stmt_text names.now texts.now) body.now)) }
{
    if body.is_empty() {
        return Ok(());
    }
    put(out, b" else ")?;
    print_body(alloc, out, names, texts, body, indent)
}

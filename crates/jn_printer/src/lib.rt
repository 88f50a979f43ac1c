//! The canonical text of a program.
//!
//! What it is, the definitions in specs/ say: `program_text` in specs/DeclText.antt, with statements in
//! specs/StmtText.antt, expressions in specs/ExprText.antt, and names, terms and types in
//! specs/Pieces.antt. Each line is indented by two spaces for each open brace. That it is a source of the
//! program again, specs/WayBack.antt says, by the definitions of tokens and grammar alone.
#![tactic(auto)]

ghost use Rattle.std.specs.Prelude.{◌≡◌, IfOk};
ghost use Rattle.jn_printer.specs.DeclText.{program_text};
ghost use Rattle.jn_printer.specs.WayBack.{WayBack};

mod decls;
pub mod examples;
mod exprs;
mod pieces;
mod stmts;
mod symbol;

use crate::decls::print_decl;
use crate::pieces::put;
use jn_base::tree::Program;
use std::alloc::{AllocError, Global};

/// The canonical text of a program.
///
/// A name or a text that the program has not prints nothing, and a number below zero, which no source
/// has, is printed with its sign. The text of a program that some source spells without passing a limit
/// is itself a source of that program, but for places, and passes no limit.
pub fn print_program(alloc: Global, p: &Program) -> Result<Vec<u8>, AllocError>
    ensures text { IfOk result (λ r. r.items ≡ program_text p.now) }
    // The text of a program within the limits spells it but for places, and is within them.
    ensures back { IfOk result (λ r. WayBack p.now r.items) }
{
    let names = p.names.as_slice();
    let texts = p.texts.as_slice();
    let decls = p.decls.as_slice();
    let mut out = Vec::new(alloc);
    for d in decls {
        print_decl(alloc, &mut out, names, texts, d, b"")?;
        put(&mut out, b"\n")?;
    }
    Ok(out)
}

// Expressions as they are written.

ghost use Rattle.std.specs.Prelude.{◌≡◌, ◌++◌, map, OnOk};
ghost use Rattle.std.specs.Fmt.{signed_decimal};
ghost use Rattle.jn_printer.specs.ExprText.{op_text, truth, node_bare, args_text, all_at, all_of, expr_text, link_text, suffix_text};

use crate::pieces::{print_name, print_term, print_view, put, put_if};
use crate::symbol::{Symbol, is_instance, operand_symbol, symbol_of};
use itoa::Buffer;
use jn_base::tree::{Expr, Link, Node, Op, Suffix, Text};
use std::alloc::AllocError;

fn print_op(out: &mut Vec<u8>, op: Op) -> Result<(), AllocError>
    ensures { OnOk result (out.new.items ≡ out.old.items ++ op_text op) }
{
    match op {
        Op::Or => put(out, b" || "),
        Op::And => put(out, b" && "),
        Op::Eq => put(out, b" == "),
        Op::Ne => put(out, b" != "),
        Op::Lt => put(out, b" < "),
        Op::Le => put(out, b" <= "),
        Op::Gt => put(out, b" > "),
        Op::Ge => put(out, b" >= "),
        Op::Add => put(out, b" + "),
        Op::Sub => put(out, b" - "),
        Op::Mul => put(out, b" * "),
        Op::Div => put(out, b" / "),
        Op::Rem => put(out, b" % "),
    }
}

fn print_truth(out: &mut Vec<u8>, b: bool) -> Result<(), AllocError>
    ensures { OnOk result (out.new.items ≡ out.old.items ++ truth b) }
{
    if b {
        put(out, b"true")
    } else {
        put(out, b"false")
    }
}

fn print_number(out: &mut Vec<u8>, n: i64) -> Result<(), AllocError>
    ensures { OnOk result (out.new.items ≡ out.old.items ++ signed_decimal n) }
{
    let mut buffer = Buffer::new();
    put(out, buffer.format(n).as_bytes())
}

/// Writes an expression at a place that asks for a symbol: in parentheses exactly where it is no instance.
#[cycle(print)]
#[tactic(auto, using(std::proofs::lemmas::Grind::common_steps, crate::proofs::Bare::placed_text))]
pub fn print_expr(
    out: &mut Vec<u8>,
    names: &[Text],
    e: &Expr,
    asked: Symbol,
) -> Result<(), AllocError>
    ensures { OnOk result (out.new.items ≡ out.old.items ++ expr_text names.now e.now asked) }
{
    let apart = !is_instance(symbol_of(&e.node), asked);
    put_if(out, apart, b"(")?;
    print_node(out, names, &e.node)?;
    put_if(out, apart, b")")
}

// Without parentheses round it.
#[cycle(print)]
#[tactic(auto, using(crate::proofs::Bare::bare_number, crate::proofs::Bare::bare_truth, crate::proofs::Bare::bare_null, crate::proofs::Bare::bare_this, crate::proofs::Bare::bare_variable,))]
fn print_node(out: &mut Vec<u8>, names: &[Text], node: &Node) -> Result<(), AllocError>
    ensures { OnOk result (out.new.items ≡ out.old.items ++ (node_bare names.now node.now).text) }
{
    match node {
        Node::Int(n) => print_number(out, *n),
        Node::Bool(b) => print_truth(out, *b),
        Node::Null => put(out, b"null"),
        Node::This => put(out, b"this"),
        Node::Var(x) => print_name(out, names, *x),
        Node::New(term, args) => {
            put(out, b"new ")?;
            print_term(out, names, term)?;
            print_args(out, names, args.as_slice())
        }
        Node::Super(term, name, args) => {
            put(out, b"super[")?;
            print_term(out, names, term)?;
            put(out, b"].")?;
            print_name(out, names, name.name)?;
            print_args(out, names, args.as_slice())
        }
        Node::Post(first, suffixes) => {
            print_expr(out, names, first.get(), Symbol::Prim)?;
            print_suffixes(out, names, suffixes.as_slice())
        }
        Node::Not(inner) => {
            put(out, b"!")?;
            print_expr(out, names, inner.get(), Symbol::Unary)
        }
        Node::Neg(inner) => {
            put(out, b"-")?;
            print_expr(out, names, inner.get(), Symbol::Unary)
        }
        Node::View(view, inner) => {
            put(out, b"(view ")?;
            print_view(out, names, view)?;
            put(out, b") ")?;
            print_expr(out, names, inner.get(), Symbol::Unary)
        }
        Node::Chain(level, first, links) => {
            let operand = operand_symbol(*level);
            print_expr(out, names, first.get(), operand)?;
            print_links(out, names, links.as_slice(), operand)
        }
    }
}

#[cycle(print)]
fn print_args(out: &mut Vec<u8>, names: &[Text], args: &[Expr]) -> Result<(), AllocError>
    ensures { OnOk result (out.new.items ≡ out.old.items ++ args_text (map (expr_text names.now) args.now)) }
{
    put(out, b"(")?;
    let mut later = false;
    for e in args {
        put_if(out, later, b", ")?;
        print_expr(out, names, e, Symbol::Expression)?;
        later = true;
    }
    put(out, b")")
}

#[cycle(print)]
#[tactic(auto, using(std::proofs::lemmas::Grind::common_steps, crate::proofs::Bare::link_placed))]
fn print_links(
    out: &mut Vec<u8>,
    names: &[Text],
    links: &[Link],
    asked: Symbol,
) -> Result<(), AllocError>
    ensures { OnOk result (out.new.items ≡ out.old.items ++ all_at asked (map (link_text names.now) links.now)) }
{
    for l in links {
        print_op(out, l.op)?;
        print_expr(out, names, &l.right, asked)?;
    }
    Ok(())
}

#[cycle(print)]
#[tactic(auto, using(std::proofs::lemmas::Grind::common_steps, crate::proofs::Bare::suffix_parts))]
fn print_suffix(out: &mut Vec<u8>, names: &[Text], s: &Suffix) -> Result<(), AllocError>
    ensures { OnOk result (out.new.items ≡ out.old.items ++ suffix_text names.now s.now) }
{
    put(out, b".")?;
    print_name(out, names, s.name.name)?;
    match &s.args {
        None => Ok(()),
        Some(args) => print_args(out, names, args.as_slice()),
    }
}

#[cycle(print)]
fn print_suffixes(out: &mut Vec<u8>, names: &[Text], suffixes: &[Suffix]) -> Result<(), AllocError>
    ensures { OnOk result (out.new.items ≡ out.old.items ++ all_of (map (suffix_text names.now) suffixes.now)) }
{
    for s in suffixes {
        print_suffix(out, names, s)?;
    }
    Ok(())
}

//! Instructions in words.

use crate::labels::{Labels, class_text, down_text, field_text, method_text};
use jn_code::Instr;
use std::alloc::{AllocError, Global};

fn number_text(alloc: Global, word: &str, number: i64) -> Result<String, AllocError> {
    format!(in alloc; "{word}:{number}")
}

/// An instruction on two numbers, two truth values or two references.
fn operator_word(instr: &Instr) -> Option<&'static str> {
    match instr {
        Instr::Add => Some("ADD"),
        Instr::Sub => Some("SUB"),
        Instr::Mul => Some("MUL"),
        Instr::Div => Some("DIV"),
        Instr::Rem => Some("REM"),
        Instr::Lt => Some("LT"),
        Instr::Le => Some("LE"),
        Instr::Gt => Some("GT"),
        Instr::Ge => Some("GE"),
        Instr::Eqi => Some("EQI"),
        Instr::Eqb => Some("EQB"),
        Instr::Eqr => Some("EQR"),
        _ => None,
    }
}

/// Another instruction that has no operand of its own.
fn plain_word(instr: &Instr) -> &'static str {
    match instr {
        Instr::Null => "NULL",
        Instr::Pop => "POP",
        Instr::Neg => "NEG",
        Instr::Not => "NOT",
        Instr::Viewof => "VIEWOF",
        Instr::New => "NEW",
        Instr::Conv => "CONV",
        Instr::Check => "CHECK",
        Instr::Printi => "PRINTI",
        Instr::Printb => "PRINTB",
        Instr::Ret => "RET",
        Instr::Retv => "RETV",
        _ => "?",
    }
}

fn bare_text(alloc: Global, instr: &Instr) -> Result<String, AllocError> {
    let word = operator_word(instr).unwrap_or(plain_word(instr));
    String::from_str(alloc, word)
}

/// An instruction whose operand is a number.
fn numbered(instr: &Instr) -> Option<(&'static str, i64)> {
    match instr {
        Instr::Int(z) => Some(("INT", *z)),
        Instr::Bool(b) => Some(("BOOL", i64::from(*b))),
        Instr::Load(q) => Some(("LOAD", i64::from(*q))),
        Instr::Store(q) => Some(("STORE", i64::from(*q))),
        Instr::Jump(t) => Some(("JUMP", i64::from(*t))),
        Instr::Jfalse(t) => Some(("JFALSE", i64::from(*t))),
        Instr::Jtrue(t) => Some(("JTRUE", i64::from(*t))),
        Instr::Up(k) => Some(("UP", i64::from(*k))),
        Instr::Printt(x) => Some(("PRINTT", i64::from(*x))),
        _ => None,
    }
}

/// An instruction whose operand stands for something, or that has none.
fn labelled_text(l: &Labels<'_>, instr: &Instr) -> Result<String, AllocError> {
    match instr {
        Instr::Cls(k) => class_text(l, *k),
        Instr::Down(name) => down_text(l, *name),
        Instr::Ctor(j) => method_text(l, "CTOR", *j),
        Instr::Call(j) => method_text(l, "CALL", *j),
        Instr::Callat(j) => method_text(l, "CALLAT", *j),
        Instr::Get(j) => field_text(l, "GET", *j),
        Instr::Put(j) => field_text(l, "PUT", *j),
        _ => bare_text(l.alloc, instr),
    }
}

/// An instruction in words: `LOAD:1`, `CALL:one(1)1`.
pub fn instr_text(l: &Labels<'_>, instr: &Instr) -> Result<String, AllocError> {
    match numbered(instr) {
        Some((word, number)) => number_text(l.alloc, word, number),
        None => labelled_text(l, instr),
    }
}

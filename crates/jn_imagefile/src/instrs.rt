//! Instructions.

ghost use Rattle.std.specs.Prelude.{◌≡◌, ◌≤◌, ◌++◌, OnOk};
ghost use Rattle.jn_code.specs.Form.{InstrInForm};
ghost use Rattle.jn_code.specs.Spells.{OperandFits};
ghost use Rattle.jn_code.specs.SpellsInstr.{instr, instruction_of, opcode, operand_of};
ghost use Rattle.jn_imagefile.specs.Gives.{Gives};

use crate::bytes::{put_i64, put_u8, put_u16, put_u32};
use crate::fields::{i64_at, truth_at, u8_at, u16_at, u32_at};
use crate::lists::Item;
use crate::stop::Stop;
use jn_code::{FieldKind, Instr};
use sqlite_items::at;
use std::alloc::{AllocError, Global};

/// The instructions in the order of their bytes, from 1 on, each with an operand that says nothing.
const INSTRUCTIONS: [Instr; 40] = [
    Instr::Int(0),
    Instr::Bool(0),
    Instr::Null,
    Instr::Cls(0),
    Instr::Load(0),
    Instr::Store(0),
    Instr::Pop,
    Instr::Add,
    Instr::Sub,
    Instr::Mul,
    Instr::Div,
    Instr::Rem,
    Instr::Neg,
    Instr::Lt,
    Instr::Le,
    Instr::Gt,
    Instr::Ge,
    Instr::Eqi,
    Instr::Eqb,
    Instr::Eqr,
    Instr::Not,
    Instr::Jump(0),
    Instr::Jfalse(0),
    Instr::Jtrue(0),
    Instr::Viewof,
    Instr::Up(0),
    Instr::Down(0),
    Instr::New,
    Instr::Ctor(0),
    Instr::Call(0),
    Instr::Callat(0),
    Instr::Get(0),
    Instr::Put(0),
    Instr::Conv,
    Instr::Check,
    Instr::Printi,
    Instr::Printb,
    Instr::Printt(0),
    Instr::Ret,
    Instr::Retv,
];

/// The instruction of a byte.
fn instruction_of(code: u8) -> Option<Instr>
    ensures { result ≡ instruction_of code }
{
    if code == 0 {
        return None;
    }
    at(&INSTRUCTIONS, code as usize - 1).copied()
}

/// The operand of an instruction of that name, and the instruction with it.
#[tactic(auto, unfolding(jn_code::specs::SpellsFields::last))]
fn operand_at(x: Instr, bytes: &[u8]) -> Result<(Instr, &[u8]), Stop>
    ensures { Gives (λ y. (y.0, y.1.now)) result ((operand_of x).read bytes.now) }
{
    match x {
        Instr::Int(_) => i64_at(bytes).map(|(z, rest)| (Instr::Int(z), rest)),
        Instr::Bool(_) => truth_at(bytes).map(|(b, rest)| (Instr::Bool(b), rest)),
        Instr::Cls(_) => u16_at(bytes).map(|(n, rest)| (Instr::Cls(n), rest)),
        Instr::Load(_) => u8_at(bytes).map(|(n, rest)| (Instr::Load(n), rest)),
        Instr::Store(_) => u8_at(bytes).map(|(n, rest)| (Instr::Store(n), rest)),
        Instr::Jump(_) => u32_at(bytes).map(|(n, rest)| (Instr::Jump(n), rest)),
        Instr::Jfalse(_) => u32_at(bytes).map(|(n, rest)| (Instr::Jfalse(n), rest)),
        Instr::Jtrue(_) => u32_at(bytes).map(|(n, rest)| (Instr::Jtrue(n), rest)),
        Instr::Up(_) => u8_at(bytes).map(|(n, rest)| (Instr::Up(n), rest)),
        Instr::Down(_) => u16_at(bytes).map(|(n, rest)| (Instr::Down(n), rest)),
        Instr::Ctor(_) => u32_at(bytes).map(|(n, rest)| (Instr::Ctor(n), rest)),
        Instr::Call(_) => u32_at(bytes).map(|(n, rest)| (Instr::Call(n), rest)),
        Instr::Callat(_) => u32_at(bytes).map(|(n, rest)| (Instr::Callat(n), rest)),
        Instr::Get(_) => u32_at(bytes).map(|(n, rest)| (Instr::Get(n), rest)),
        Instr::Put(_) => u32_at(bytes).map(|(n, rest)| (Instr::Put(n), rest)),
        Instr::Printt(_) => u32_at(bytes).map(|(n, rest)| (Instr::Printt(n), rest)),
        _ => Ok((x, bytes)),
    }
}

/// The byte of an instruction that calculates with operands alone.
fn calculation_opcode(x: Instr) -> u8
    requires { (0x08 ≤ opcode x) × (opcode x ≤ 0x15) }
    ensures { result ≡ opcode x }
{
    match x {
        Instr::Add => 0x08,
        Instr::Sub => 0x09,
        Instr::Mul => 0x0a,
        Instr::Div => 0x0b,
        Instr::Rem => 0x0c,
        Instr::Neg => 0x0d,
        Instr::Lt => 0x0e,
        Instr::Le => 0x0f,
        Instr::Gt => 0x10,
        Instr::Ge => 0x11,
        Instr::Eqi => 0x12,
        Instr::Eqb => 0x13,
        Instr::Eqr => 0x14,
        Instr::Not => 0x15,
        _ => unreachable!(),
    }
}

/// The byte of an instruction.
fn opcode(x: Instr) -> u8
    ensures { result ≡ opcode x }
{
    match x {
        Instr::Int(_) => 0x01,
        Instr::Bool(_) => 0x02,
        Instr::Null => 0x03,
        Instr::Cls(_) => 0x04,
        Instr::Load(_) => 0x05,
        Instr::Store(_) => 0x06,
        Instr::Pop => 0x07,
        Instr::Jump(_) => 0x16,
        Instr::Jfalse(_) => 0x17,
        Instr::Jtrue(_) => 0x18,
        Instr::Viewof => 0x19,
        Instr::Up(_) => 0x1a,
        Instr::Down(_) => 0x1b,
        Instr::New => 0x1c,
        Instr::Ctor(_) => 0x1d,
        Instr::Call(_) => 0x1e,
        Instr::Callat(_) => 0x1f,
        Instr::Get(_) => 0x20,
        Instr::Put(_) => 0x21,
        Instr::Conv => 0x22,
        Instr::Check => 0x23,
        Instr::Printi => 0x24,
        Instr::Printb => 0x25,
        Instr::Printt(_) => 0x26,
        Instr::Ret => 0x27,
        Instr::Retv => 0x28,
        _ => calculation_opcode(x),
    }
}

/// Writes the operand of an instruction at the end.
#[tactic(auto, unfolding(jn_code::specs::SpellsFields::last))]
fn put_operand(out: &mut Vec<u8>, x: Instr) -> Result<(), AllocError>
    ensures bytes { OnOk result (out.new.items ≡ out.old.items ++ (operand_of x).spelled x) }
    ensures fits { OperandFits x }
{
    match x {
        Instr::Int(z) => put_i64(out, z),
        Instr::Bool(b) => put_u8(out, b),
        Instr::Cls(n) => put_u16(out, n),
        Instr::Load(n) => put_u8(out, n),
        Instr::Store(n) => put_u8(out, n),
        Instr::Jump(n) => put_u32(out, n),
        Instr::Jfalse(n) => put_u32(out, n),
        Instr::Jtrue(n) => put_u32(out, n),
        Instr::Up(n) => put_u8(out, n),
        Instr::Down(n) => put_u16(out, n),
        Instr::Ctor(n) => put_u32(out, n),
        Instr::Call(n) => put_u32(out, n),
        Instr::Callat(n) => put_u32(out, n),
        Instr::Get(n) => put_u32(out, n),
        Instr::Put(n) => put_u32(out, n),
        Instr::Printt(n) => put_u32(out, n),
        _ => Ok(()),
    }
}

impl Item for Instr {
    ghost field = { instr };

    ghost form = { InstrInForm };

    ghost fits = { OperandFits };

    #[tactic(auto, unfolding(jn_code::specs::SpellsInstr::read_instr))]
    fn read(_alloc: Global, bytes: &[u8]) -> Result<(Instr, &[u8]), Stop> {
        let (code, rest) = u8_at(bytes)?;
        match instruction_of(code) {
            None => Err(Stop::Bad(bytes.len(), FieldKind::Opcode)),
            Some(x) => operand_at(x, rest),
        }
    }

    fn write(&self, out: &mut Vec<u8>) -> Result<(), AllocError> {
        put_u8(out, opcode(*self))?;
        put_operand(out, *self)
    }
}

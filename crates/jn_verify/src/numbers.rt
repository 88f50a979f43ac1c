//! What an instruction names, gives and leads to.

ghost use Rattle.std.specs.Prelude.{◌≡◌, ◌++◌, slice_get};
ghost use Rattle.jn_code.specs.Kinds.{kind_of, result_kind, local_kind, result_of, field_kind, gives, target_of, goes_on};
ghost use Rattle.jn_code.specs.Valid.{number_is_there, local_is_there, is_place, returns_well};

use jn_code::{Code, Image, Instr, OperandKind};

pub fn kind_of(n: u8) -> OperandKind
    ensures { result ≡ kind_of n }
{
    match n {
        1 => OperandKind::Int,
        2 => OperandKind::Bool,
        _ => OperandKind::Reference,
    }
}

pub fn result_kind(n: u8) -> Option<OperandKind>
    ensures { result ≡ result_kind n }
{
    match n {
        0 => None,
        _ => Some(kind_of(n)),
    }
}

fn local_byte(code: &Code, at: usize) -> Option<u8>
    ensures { result ≡ slice_get (code.now.params ++ code.now.locals) at }
{
    let params = code.params.as_slice();
    if at < params.len() {
        return Some(params[at]);
    }
    code.locals.get(at - params.len()).copied()
}

pub fn local_kind(code: &Code, at: usize) -> Option<OperandKind>
    ensures { result ≡ local_kind code.now at }
{
    match local_byte(code, at) {
        Some(byte) => Some(kind_of(byte)),
        None => None,
    }
}

fn result_of(image: &Image, selector: usize) -> Option<OperandKind>
    ensures { result ≡ result_of image.now selector }
{
    match image.methods.get(selector) {
        Some(shape) => result_kind(shape.result),
        None => None,
    }
}

pub fn field_kind(image: &Image, selector: usize) -> Option<OperandKind>
    ensures { result ≡ field_kind image.now selector }
{
    match image.fields.get(selector) {
        Some(kind) => Some(kind_of(*kind)),
        None => None,
    }
}

pub fn gives(image: &Image, code: &Code, x: Instr) -> Option<OperandKind>
    ensures { result ≡ gives image.now code.now x }
{
    match x {
        Instr::Int(_)
        | Instr::Add
        | Instr::Sub
        | Instr::Mul
        | Instr::Div
        | Instr::Rem
        | Instr::Neg => Some(OperandKind::Int),
        Instr::Bool(_)
        | Instr::Lt
        | Instr::Le
        | Instr::Gt
        | Instr::Ge
        | Instr::Eqi
        | Instr::Eqb
        | Instr::Eqr
        | Instr::Not => Some(OperandKind::Bool),
        Instr::Null | Instr::New | Instr::Ctor(_) | Instr::Conv | Instr::Check => {
            Some(OperandKind::Reference)
        }
        Instr::Cls(_) | Instr::Viewof | Instr::Up(_) | Instr::Down(_) => Some(OperandKind::Class),
        Instr::Load(local) => local_kind(code, local as usize),
        Instr::Call(s) | Instr::Callat(s) => result_of(image, s as usize),
        Instr::Get(s) => field_kind(image, s as usize),
        Instr::Store(_) | Instr::Pop | Instr::Jump(_) | Instr::Jfalse(_) | Instr::Jtrue(_) => None,
        Instr::Put(_) | Instr::Printi | Instr::Printb | Instr::Printt(_) => None,
        Instr::Ret | Instr::Retv => None,
    }
}

pub fn target_of(x: Instr) -> Option<u32>
    ensures { result ≡ target_of x }
{
    match x {
        Instr::Jump(to) => Some(to),
        Instr::Jfalse(to) => Some(to),
        Instr::Jtrue(to) => Some(to),
        _ => None,
    }
}

pub fn goes_on(x: Instr) -> bool
    ensures { result ≡ goes_on x }
{
    !matches!(x, Instr::Jump(_) | Instr::Ret | Instr::Retv)
}

pub fn number_is_there(image: &Image, x: Instr) -> bool
    ensures { result ≡ number_is_there image.now x }
{
    match x {
        Instr::Cls(k) => (k as usize) < image.classes.len(),
        Instr::Ctor(s) => (s as usize) < image.methods.len(),
        Instr::Call(s) => (s as usize) < image.methods.len(),
        Instr::Callat(s) => (s as usize) < image.methods.len(),
        Instr::Get(s) => (s as usize) < image.fields.len(),
        Instr::Put(s) => (s as usize) < image.fields.len(),
        Instr::Printt(t) => (t as usize) < image.texts.len(),
        _ => true,
    }
}

pub fn local_is_there(code: &Code, x: Instr) -> bool
    ensures { result ≡ local_is_there code.now x }
{
    match x {
        Instr::Load(local) => local_kind(code, local as usize).is_some(),
        Instr::Store(local) => local_kind(code, local as usize).is_some(),
        _ => true,
    }
}

pub fn is_place(code: &Code, target: Option<u32>) -> bool
    ensures { result ≡ is_place code.now target }
{
    match target {
        None => true,
        Some(to) => (to as usize) < code.instrs.len(),
    }
}

pub fn returns_well(code: &Code, x: Instr) -> bool
    ensures { result ≡ returns_well code.now x }
{
    match x {
        Instr::Ret => result_kind(code.result).is_none(),
        Instr::Retv => result_kind(code.result).is_some(),
        _ => true,
    }
}

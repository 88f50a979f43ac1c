ghost use Rattle.std.specs.Prelude.{◌≡◌, ◌↔◌, ◌++◌, ℕ, [], ◌∷◌, length, slice_get, Some, IsTrue, IfOk, IfSome, IfNone, OnOk};
ghost use Rattle.jn_base.specs.Paths.{shown};
ghost use Rattle.jn_sem.specs.Does.{IsSpelled};
ghost use Rattle.jn_code.specs.Form.{CodeInForm};
ghost use Rattle.jn_agree.specs.Naming.{Naming};
ghost use Rattle.jn_link.specs.Joined.{IsStart};
ghost use Rattle.jn_link.specs.Start.{SpellsAt, IsBareAt, bare_sel, AreClassesOf, made_by, start_instrs};

use jn_agree::selectors::MethodSel;
use jn_base::compare::is_name;
use jn_base::path::Path;
use jn_base::tree::{Name, Program, Text};
use jn_code::{Code, Instr};
use jn_table::Table;
use sqlite_items::Items;
use std::alloc::{AllocError, Global};

/// Whether both are the same bytes.
fn same_bytes(xs: &[u8], ys: &[u8]) -> bool
    ensures { IsTrue result ↔ (xs.now ≡ ys.now) }
{
    xs == ys
}

/// The place of a name that is spelled so.
fn spelled_at(names: &[Text], bytes: &[u8]) -> Option<usize>
    ensures some { IfSome result (SpellsAt names.now bytes.now) }
    ensures none { IfNone result ((k : ℕ) → SpellsAt names.now bytes.now k → ⊥) }
{
    for (k, text) in names.iter().enumerate() {
        if same_bytes(text.bytes.as_slice(), bytes) {
            return Some(k);
        }
    }
    None
}

/// The name that is spelled so. A name that the program has not, which Main and `main` of a checked one are not, is
/// refused for want of memory.
fn name_spelled(p: &Program, bytes: &[u8]) -> Result<Name, AllocError>
    ensures { IfOk result (IsSpelled p.now bytes.now) }
{
    match spelled_at(p.names.as_slice(), bytes) {
        None => Err(AllocError),
        Some(k) => {
            let number = u32::try_from(k).map_err(|_| AllocError)?;
            Ok(Name(number))
        }
    }
}

/// Whether the selector has that name, no parameters and no result.
fn is_bare(sel: &MethodSel, name: Name) -> bool
    ensures { IsTrue result ↔ (sel.now ≡ bare_sel name) }
{
    if !is_name(sel.name, name) {
        return false;
    }
    if sel.shape.result != 0 {
        return false;
    }
    same_bytes(sel.shape.params.as_slice(), &[])
}

/// The place of the selector with that name, no parameters and no result.
fn bare_place(names: &[MethodSel], name: Name) -> Option<usize>
    ensures { IsBareAt names.now name result }
{
    for (k, sel) in names.iter().enumerate() {
        if is_bare(sel, name) {
            return Some(k);
        }
    }
    None
}

/// The number of the selector with that name, no parameters and no result. One above 4294967295, which no selector of a
/// program within the limits has, is refused for want of memory.
fn bare_number(names: &[MethodSel], name: Name) -> Result<Option<u32>, AllocError>
    ensures { IfOk result (IsBareAt names.now name) }
{
    match bare_place(names, name) {
        None => Ok(None),
        Some(k) => match u32::try_from(k) {
            Ok(k) => Ok(Some(k)),
            Err(_) => Err(AllocError),
        },
    }
}

/// The number of the selector of `main`. A program without it, which no checked one is, is refused for want of memory.
fn main_number(names: &[MethodSel], main: Name) -> Result<u32, AllocError>
    ensures { IfOk result (λ j. slice_get names.now j ≡ Some (bare_sel main)) }
{
    match bare_number(names, main)? {
        None => Err(AllocError),
        Some(j) => Ok(j),
    }
}

/// The path of a class at the top.
fn top_path(alloc: Global, class: Name) -> Result<Path, AllocError>
    ensures { IfOk result (λ path. path ≡ shown (class ∷ [])) }
{
    let mut names = Items::new(alloc);
    names.push(class)?;
    Ok(Path { names })
}

/// The number of a class at the top. One that isn't in the table, which Main of a checked program is, is refused for
/// want of memory.
fn class_number(alloc: Global, t: &Table, class: Name) -> Result<u16, AllocError>
    ensures { IfOk result (λ k. (n : Naming) → AreClassesOf t.now n → slice_get n.classes k ≡ Some (class ∷ [])) }
{
    let path = top_path(alloc, class)?;
    match t.find(&path) {
        None => Err(AllocError),
        Some(id) => Ok(id.0),
    }
}

/// Adds CTOR of the number, and nothing where there is none.
fn push_constructor(instrs: &mut Items<Instr>, constructor: Option<u32>) -> Result<(), AllocError>
    ensures { OnOk result (instrs.new ≡ instrs.old ++ made_by constructor) }
{
    match constructor {
        None => Ok(()),
        Some(j) => instrs.push(Instr::Ctor(j)),
    }
}

/// The instructions of the start: CLS, NEW, the constructor, CALL and RET.
fn instrs_of(
    alloc: Global,
    class: u16,
    constructor: Option<u32>,
    main: u32,
) -> Result<Items<Instr>, AllocError>
    ensures { IfOk result (λ all. all ≡ start_instrs class constructor main) }
{
    let mut instrs = Items::new(alloc);
    instrs.push(Instr::Cls(class))?;
    instrs.push(Instr::New)?;
    push_constructor(&mut instrs, constructor)?;
    instrs.push(Instr::Call(main))?;
    instrs.push(Instr::Ret)?;
    Ok(instrs)
}

/// The kind of the one local: the frame that starts the program has `this`, which is null.
fn null_this(alloc: Global) -> Result<Items<u8>, AllocError>
    ensures { IfOk result (λ kinds. kinds ≡ 3 ∷ []) }
{
    let mut kinds = Items::new(alloc);
    kinds.push(3)?;
    Ok(kinds)
}

/// The code with which a run begins: it makes an object of Main, by its constructor where it has one, and calls the
/// `main` that has no parameters and no result.
///
/// The table is that of the classes, and the selectors those of the program.
pub fn start_code(
    alloc: Global,
    p: &Program,
    t: &Table,
    names: &[MethodSel],
) -> Result<Code, AllocError>
    ensures start { IfOk result (λ c. (n : Naming) → AreClassesOf t.now n → n.methods ≡ names.now → IsStart p.now n c) }
    ensures in_form { IfOk result CodeInForm }
{
    let class = name_spelled(p, b"Main")?;
    let main = name_spelled(p, b"main")?;
    let number = class_number(alloc, t, class)?;
    let constructor = bare_number(names, class)?;
    let selector = main_number(names, main)?;
    let instrs = instrs_of(alloc, number, constructor, selector)?;
    let locals = null_this(alloc)?;
    Ok(Code {
        params: Items::new(alloc),
        result: 0,
        locals,
        stack: 1,
        instrs,
    })
}

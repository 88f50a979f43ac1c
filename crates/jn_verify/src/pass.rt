//! The pass over one code.
ghost use Rattle.std.specs.Prelude.{◌≡◌, ℕ, ◌+◌, ◌<◌, ◌≤◌, ◌^◌, ◌++◌, All, IfOk, OnOk, length, None, replicate, Option};
ghost use Rattle.jn_code.specs.Kinds.{list_of};
ghost use Rattle.jn_code.specs.Valid.{before, settle, give, give_target, give_next, end_fault, pass_at, pass, code_fault};
ghost use Rattle.jn_code.specs.Valid.{Notes};
ghost use Rattle.jn_verify.specs.Passes.{pass_of, given_on};
ghost use Rattle.jn_verify.specs.Tails.{list_at, seen, IsThere, IsGrown};

use crate::numbers::{gives, goes_on, target_of};
use crate::own::rest_of;
use crate::tails::Tails;
use jn_code::{Code, CodeWhy, Image, ImageFault, Instr, OperandKind};
use std::alloc::{AllocError, Global};

/// The kinds before each instruction, where they are known, by the number of their list.
type Known = Vec<Option<u32>>;

/// The instruction at `to` is given these kinds.
fn give(tails: &Tails, notes: &mut Known, to: usize, kinds: u32) -> Option<CodeWhy>
    requires there { kinds < length tails.now }
    requires known { All (IsThere tails.now) notes.old.items }
    ensures given { (n : ℕ) → pass_of n result (seen tails.now notes.new.items) ≡ give n to (list_at tails.now kinds) (seen tails.now notes.old.items) }
    ensures known { All (IsThere tails.now) notes.new.items }
{
    if to >= notes.len() {
        return None;
    }
    match notes[to] {
        None => {
            notes[to] = Some(kinds);
            None
        }
        Some(old) => {
            if tails.same(old, kinds) {
                None
            } else {
                Some(CodeWhy::Join)
            }
        }
    }
}

/// From now on the kinds before instruction n are known: these.
fn settle(tails: &Tails, notes: &mut Known, n: usize) -> u32
    requires known { All (IsThere tails.now) notes.old.items }
    ensures notes { seen tails.now notes.new.items ≡ settle n (seen tails.now notes.old.items) }
    ensures before { list_at tails.now result ≡ before (seen tails.now notes.old.items) n }
    ensures there { result < length tails.now }
    ensures known { All (IsThere tails.now) notes.new.items }
{
    if n >= notes.len() {
        return tails.none();
    }
    match notes[n] {
        Some(old) => old,
        None => {
            let none = tails.none();
            notes[n] = Some(none);
            none
        }
    }
}

fn give_target(tails: &Tails, notes: &mut Known, target: Option<u32>, kinds: u32) -> Option<CodeWhy>
    requires there { kinds < length tails.now }
    requires known { All (IsThere tails.now) notes.old.items }
    ensures given { (n : ℕ) → pass_of n result (seen tails.now notes.new.items) ≡ give_target n target (list_at tails.now kinds) (seen tails.now notes.old.items) }
    ensures known { All (IsThere tails.now) notes.new.items }
{
    match target {
        None => None,
        Some(to) => give(tails, notes, to as usize, kinds),
    }
}

fn give_next(
    tails: &Tails,
    notes: &mut Known,
    n: usize,
    is_next: bool,
    kinds: u32,
) -> Option<CodeWhy>
    requires place { n < 2 ^ 32 }
    requires there { kinds < length tails.now }
    requires known { All (IsThere tails.now) notes.old.items }
    ensures given { pass_of n result (seen tails.now notes.new.items) ≡ give_next n is_next (list_at tails.now kinds) (seen tails.now notes.old.items) }
    ensures known { All (IsThere tails.now) notes.new.items }
{
    if is_next {
        give(tails, notes, n + 1, kinds)
    } else {
        None
    }
}

/// What is wrong where the last instruction may go on.
fn end_fault(is_next: bool, later: &[Instr]) -> Option<CodeWhy>
    ensures { (n : ℕ) (s : Notes) → pass_of n result s ≡ end_fault n is_next later.now s }
{
    if is_next && later.is_empty() {
        return Some(CodeWhy::End);
    }
    None
}

/// Instruction n, with these kinds after it, gives them to its target and to the next one.
fn give_on(
    tails: &Tails,
    notes: &mut Known,
    n: usize,
    x: Instr,
    later: &[Instr],
    kinds: u32,
) -> Option<CodeWhy>
    requires place { n < 2 ^ 32 }
    requires there { kinds < length tails.now }
    requires known { All (IsThere tails.now) notes.old.items }
    ensures given { pass_of n result (seen tails.now notes.new.items) ≡ given_on n x later.now (list_at tails.now kinds) (seen tails.now notes.old.items) }
    ensures known { All (IsThere tails.now) notes.new.items }
{
    if let Some(why) = give_target(tails, notes, target_of(x), kinds) {
        return Some(why);
    }
    let is_next = goes_on(x);
    if let Some(why) = give_next(tails, notes, n, is_next, kinds) {
        return Some(why);
    }
    end_fault(is_next, later)
}

/// The list of what is given, where that is anything, before list n.
fn with_given(tails: &mut Tails, n: u32, given: Option<OperandKind>) -> Result<u32, AllocError>
    requires there { n < length tails.old }
    requires few { length tails.old < 2 ^ 32 }
    ensures kinds { IfOk result (λ m. list_at tails.new m ≡ list_of given ++ list_at tails.old n) }
    ensures there { IfOk result (λ m. m < length tails.new) }
    ensures grown { OnOk result (IsGrown tails.old tails.new) }
{
    match given {
        None => Ok(n),
        Some(kind) => tails.push(n, kind),
    }
}

/// Instruction n, before the instructions that come later.
fn pass_at(
    image: &Image,
    code: &Code,
    tails: &mut Tails,
    notes: &mut Known,
    n: usize,
    x: Instr,
    later: &[Instr],
) -> Result<Option<CodeWhy>, AllocError>
    requires place { n + 1 < 2 ^ 32 }
    requires few { length tails.old ≤ n + 1 }
    requires known { All (IsThere tails.old) notes.old.items }
    ensures passed { IfOk result (λ why. pass_of n why (seen tails.new notes.new.items) ≡ pass_at image.now code.now n x later.now (seen tails.old notes.old.items)) }
    ensures few { OnOk result (length tails.new ≤ n + 2) }
    ensures known { OnOk result (All (IsThere tails.new) notes.new.items) }
{
    let kinds = settle(tails, notes, n);
    match rest_of(image, code, x, tails, kinds) {
        Err(why) => Ok(Some(why)),
        Ok(rest) => {
            let given = with_given(tails, rest, gives(image, code, x))?;
            Ok(give_on(tails, notes, n, x, later, given))
        }
    }
}

/// The pass over code k.
pub fn code_fault(
    alloc: Global,
    image: &Image,
    k: u32,
    code: &Code,
) -> Result<Option<ImageFault>, AllocError>
    requires { length code.now.instrs < 2 ^ 32 }
    ensures { IfOk result (λ fault. fault ≡ code_fault (pass image.now code.now) k None) }
{
    let instrs = code.instrs.as_slice();
    if instrs.is_empty() {
        return Ok(Some(ImageFault::BadCode(k, 0, CodeWhy::End)));
    }
    let mut tails = Tails::new(alloc);
    let mut notes = no_notes(alloc, instrs.len())?;
    for n in 0..instrs.len() {
        let later = &instrs[n + 1..];
        if let Some(why) = pass_at(image, code, &mut tails, &mut notes, n, instrs[n], later)? {
            return Ok(Some(ImageFault::BadCode(k, n as u32, why)));
        }
    }
    Ok(None)
}

/// At first nothing is known.
fn no_notes(alloc: Global, count: usize) -> Result<Known, AllocError>
    ensures { IfOk result (λ notes. notes.items ≡ replicate count None) }
{
    let mut notes = Vec::new(alloc);
    for _ in 0..count {
        notes.push(None)?;
    }
    Ok(notes)
}

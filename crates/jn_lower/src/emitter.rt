ghost use Rattle.std.specs.Prelude.{◌≡◌, ◌≢◌, ◌<◌, ℕ, [], ◌∷◌, length, slice_get, Some, IfOk, IfSome, IfNone, OnOk, OnErr};
ghost use Rattle.jn_lower.specs.Placed.{Are};
ghost use Rattle.jn_lower.specs.Emitted.{Emitted, Adds, Patched, Declares, HasPlace, IsSpare};

use jn_code::Instr;
use sqlite_items::Items;
use std::alloc::{AllocError, Global};

/// What is known of the locals of a code.
#[derive(Debug, Drop)]
pub struct Locals {
    /// The kinds of the receiver, of the parameters and of the locals so far: each variable's number is its place.
    pub kinds: Items<u8>,
    /// The kinds of the scratch locals so far, which are numbered from `scratch` on. No kind stands twice.
    pub spare: Items<u8>,
    /// The first number that no variable of the body has.
    pub scratch: u8,
}

/// The instructions of a code so far, with what is known of its locals.
#[derive(Debug, Drop)]
pub struct Emitter {
    pub instrs: Items<Instr>,
    pub locals: Locals,
}

/// The first place of the kind.
fn place_of(kinds: &[u8], kind: u8) -> Option<usize>
    ensures some { IfSome result (λ j. slice_get kinds.now j ≡ Some kind) }
    ensures none { IfNone result ((j : ℕ) → slice_get kinds.now j ≡ Some kind → ⊥) }
{
    for (j, k) in kinds.iter().enumerate() {
        if *k == kind {
            return Some(j);
        }
    }
    None
}

/// The place of the kind in the list, behind the last one where it isn't there yet.
fn place_in(kinds: &mut Items<u8>, kind: u8) -> Result<usize, AllocError>
    ensures { IfOk result (λ j. HasPlace kind kinds.old kinds.new j) }
{
    match place_of(kinds.as_slice(), kind) {
        Some(j) => Ok(j),
        None => {
            let j = kinds.len();
            kinds.push(kind)?;
            Ok(j)
        }
    }
}

impl Emitter {
    /// No instruction, and no local.
    pub fn new(alloc: Global, scratch: u8) -> Emitter
        ensures instrs { result.instrs ≡ [] }
        ensures kinds { result.locals.kinds ≡ [] }
        ensures spare { result.locals.spare ≡ [] }
        ensures scratch { result.locals.scratch ≡ scratch }
    {
        let kinds = Items::new(alloc);
        let spare = Items::new(alloc);
        Emitter {
            instrs: Items::new(alloc),
            locals: Locals {
                kinds,
                spare,
                scratch,
            },
        }
    }

    /// How many instructions there are: the place of the next one.
    pub fn len(&self) -> usize
        ensures { result ≡ length self.now.instrs }
    {
        self.instrs.len()
    }

    /// The place of the next instruction, as a jump names it. A code of more than 4294967295 instructions is refused
    /// for want of memory.
    pub fn place(&self) -> Result<u32, AllocError>
        ensures { IfOk result (λ n. n ≡ length self.now.instrs) }
    {
        u32::try_from(self.instrs.len()).map_err(|_| AllocError)
    }

    /// One more instruction: what stood before stays, and it stands behind. An `Err` changes nothing.
    pub fn push(&mut self, instr: Instr) -> Result<(), AllocError>
        ensures ok { OnOk result (Adds (instr ∷ []) self.old self.new) }
        ensures emitted { OnOk result (Emitted (Are (instr ∷ [])) self.old self.new) }
        ensures err { OnErr result (self.new ≡ self.old) }
    {
        self.instrs.push(instr)
    }

    /// The instruction stands at that place, and all others stay.
    pub fn patch(&mut self, at: usize, instr: Instr)
        requires { at < length self.old.instrs }
        ensures set { Patched at instr self.old self.new }
        ensures there { slice_get self.new.instrs at ≡ Some instr }
        ensures others { (k : ℕ) → k ≢ at → slice_get self.new.instrs k ≡ slice_get self.old.instrs k }
        ensures length { length self.new.instrs ≡ length self.old.instrs }
    {
        self.instrs.set(at, instr);
    }

    /// One more local, of that kind; its number is the result. An `Err` changes nothing. A number above 255, which no
    /// local of a program within the limits has, is refused for want of memory.
    pub fn declare(&mut self, kind: u8) -> Result<u8, AllocError>
        ensures number { IfOk result (λ q. q ≡ length self.old.locals.kinds) }
        ensures declares { OnOk result (Declares kind self.old self.new) }
        ensures err { OnErr result (self.new ≡ self.old) }
    {
        let q = u8::try_from(self.locals.kinds.len()).map_err(|_| AllocError)?;
        self.locals.kinds.push(kind)?;
        Ok(q)
    }

    /// The number of the scratch local of that kind, which is the next one where none has the kind yet. A number above
    /// 255, which no local of a program within the limits has, is refused for want of memory.
    pub fn spare(&mut self, kind: u8) -> Result<u8, AllocError>
        ensures { IfOk result (λ q. IsSpare kind self.old self.new q) }
    {
        let j = place_in(&mut self.locals.spare, kind)?;
        let j = u8::try_from(j).map_err(|_| AllocError)?;
        self.locals.scratch.checked_add(j).ok_or(AllocError)
    }
}

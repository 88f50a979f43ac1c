ghost use Rattle.std.specs.Prelude.{◌≡◌, ℕ, ◌<◌, [], ◌∷◌, pos};
ghost use Rattle.jn_steps.specs.Runs.{End};
ghost use Rattle.jn_code.specs.Machine.{Done, Stuck};
ghost use Rattle.jn_kinds.specs.CarefulExample.{ends, ends_with_slots};
ghost use Rattle.jn_code.specs.declared.image.Image.{Image};
ghost use Rattle.jn_code.specs.Form.{InForm};
ghost use Rattle.jn_code.specs.Valid.{IsValid};
ghost use Rattle.jn_kinds.specs.Kept.{KindsAreKept};

use jn_code::Instr;

/// In a valid image every word is used as what it is, in runs of any length, whatever the depth and the arena. It
/// does nothing.
pub fn kinds_are_kept()
    ensures { (i : Image) → InForm i → IsValid i → (capacity depth n : ℕ) → capacity < 4294967296 →
        KindsAreKept i capacity depth n }
{}

/// Worked rows of codes, of which not all are valid: a number is printed, null or a truth value is not printed as a
/// number, and a slot that holds a truth value is not read as a number. It does nothing.
pub fn careful_rows()
    ensures number { ends (Instr.Int (pos 7) ∷ Instr.Printi ∷ Instr.Ret ∷ []) ≡ End Done (55 ∷ 10 ∷ []) }
    ensures reference { ends (Instr.Null ∷ Instr.Printi ∷ Instr.Ret ∷ []) ≡ End Stuck [] }
    ensures truth { ends (Instr.Bool 1 ∷ Instr.Printi ∷ Instr.Ret ∷ []) ≡ End Stuck [] }
    ensures condition { ends (Instr.Int (pos 1) ∷ Instr.Jfalse 2 ∷ Instr.Ret ∷ []) ≡ End Stuck [] }
    ensures number_slot { ends_with_slots (1 ∷ 3 ∷ []) (Instr.Cls 1 ∷ Instr.New ∷ Instr.Get 0 ∷ Instr.Printi ∷ Instr.Ret ∷
        []) ≡ End Done (48 ∷ 10 ∷ []) }
    ensures truth_slot { ends_with_slots (2 ∷ 3 ∷ []) (Instr.Cls 1 ∷ Instr.New ∷ Instr.Get 0 ∷ Instr.Printi ∷ Instr.Ret ∷
        []) ≡ End Stuck [] }
{}

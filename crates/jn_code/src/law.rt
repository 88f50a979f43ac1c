ghost use Rattle.std.specs.Prelude.{◌≡◌, ℕ, ◌∷◌, [], pos};
ghost use Rattle.jn_code.specs.declared.image.Image.{Image};
ghost use Rattle.jn_steps.specs.Laws.{RunsGoOn};
ghost use Rattle.jn_code.specs.Valid.{IsValid, first_fault};
ghost use Rattle.jn_code.specs.Known.{IsSound};
ghost use Rattle.jn_code.specs.Never.{NeverStuck};
ghost use Rattle.jn_code.specs.Going.{StaysGoing};
ghost use Rattle.jn_code.specs.Machine.{Machine, Halt, Done, instruct, mach};
ghost use Rattle.jn_code.specs.Example.{plain_image, seven, wrong_kind, no_operand};

use crate::fault::{CodeWhy, ImageFault};

/// A run with more instructions goes on from where it was, and one that has halted stays as it is. It does nothing.
pub fn machine_goes_on()
    ensures { (i : Image) (capacity depth : ℕ) → RunsGoOn (instruct i capacity depth) (λ (m : Machine). m.output) }
{}

/// In a valid image the kinds before each instruction are known and right. It does nothing.
pub fn valid_is_sound()
    ensures { (i : Image) → IsValid i → IsSound i }
{}

/// A valid image never gets stuck, whatever the depth and the number of instructions. It does nothing.
pub fn never_stuck()
    ensures { (i : Image) → IsValid i → NeverStuck i }
{}

/// Each state of a run of a valid image has words of the kinds that are known, and references to objects that are there. It
/// does nothing.
pub fn stays_going()
    ensures { (i : Image) → IsValid i → StaysGoing i }
{}

/// Worked rows: an image that prints 7, cut off after 2 and after 1 instructions, and two that are not valid. It does
/// nothing.
pub fn example_rows()
    ensures valid { first_fault (plain_image 1 seven) ≡ None }
    ensures kind { first_fault (plain_image 1 wrong_kind) ≡ Some (ImageFault.BadCode 0 1 CodeWhy.Kind) }
    ensures stack { first_fault (plain_image 1 no_operand) ≡ Some (ImageFault.BadCode 0 2 CodeWhy.Stack) }
    ensures done { (a d : ℕ) → mach (plain_image 1 seven) a d 3 ≡ record { outcome = Some Done; output = 55 ∷ 10 ∷ [] } }
    ensures two { (a d : ℕ) → mach (plain_image 1 seven) a d 2 ≡ record { outcome = None; output = 55 ∷ 10 ∷ [] } }
    ensures one { (a d : ℕ) → mach (plain_image 1 seven) a d 1 ≡ record { outcome = None; output = [] } }
{}

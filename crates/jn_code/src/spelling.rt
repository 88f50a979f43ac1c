//! Images and their files belong to each other. Each function does nothing, and its contract says what holds.

ghost use Rattle.std.specs.Prelude.{◌≡◌, ℕ, ◌≤◌, List, [], ◌∷◌, ◌++◌, length, take, Ok, Err};
ghost use Rattle.jn_code.specs.declared.image.Image.{Image};
ghost use Rattle.jn_code.specs.Example.{plain_image, seven};
ghost use Rattle.jn_code.specs.Form.{InForm};
ghost use Rattle.jn_code.specs.Spells.{Fits, Spells, file_of, image_of, limit};
ghost use Rattle.jn_code.specs.SpellsExample.{seven_file, altered};

use crate::fault::{FieldKind, ImageFault};

/// An image has one spelling at most, and has one where it is in form and its file is within its limit. A spelling is of
/// one image, and none is the front of another.
pub fn spellings()
    ensures one { (i : Image) (a b : List ℕ) → Spells i a → Spells i b → a ≡ b }
    ensures has { (i : Image) → Fits i → InForm i → length (file_of i) ≤ limit → Spells i (file_of i) }
    ensures of_one { (i j : Image) (a : List ℕ) → Spells i a → Spells j a → i ≡ j }
    ensures no_front { (i j : Image) (a rest : List ℕ) → Spells i a → Spells j (a ++ rest) → rest ≡ [] }
{}

/// Worked rows: the file of the image that prints 7, and the first fault of bytes near it.
pub fn file_rows()
    ensures file { file_of (plain_image 1 seven) ≡ seven_file }
    ensures image { image_of seven_file ≡ Ok (plain_image 1 seven) }
    ensures cut { image_of (take 40 seven_file) ≡ Err (ImageFault.Short 34) }
    ensures behind { image_of (seven_file ++ 0 ∷ []) ≡ Err (ImageFault.Trailing 48) }
    ensures magic { image_of (altered 0 0x4b) ≡ Err ImageFault.BadMagic }
    ensures kind { image_of (altered 25 0x09) ≡ Err (ImageFault.BadField 25 FieldKind.Kind) }
    ensures opcode { image_of (altered 43 0x29) ≡ Err (ImageFault.BadField 43 FieldKind.Opcode) }
    ensures stack { image_of (altered 28 0x10) ≡ Err (ImageFault.BadField 27 FieldKind.Count) }
{}

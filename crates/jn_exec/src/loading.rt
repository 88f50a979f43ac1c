ghost use Rattle.std.specs.Prelude.{◌≡◌, List, ℕ, take, Ok, IfOk, IfErr};
ghost use Rattle.jn_code.specs.declared.image.Image.{Image as AnImage};
ghost use Rattle.jn_code.specs.Spells.{Spells};
ghost use Rattle.std.specs.Prelude.{◌<◌, get_or};
ghost use Rattle.jn_code.specs.Valid.{IsValid};
ghost use Rattle.jn_exec.specs.Images.{valid_image_of, IsMachineFor, IsFaultOf};

use jn_code::{Image, ImageFault};
use jn_imagefile::read_image;
use jn_machine::Machine;
use jn_verify::verify;
use std::alloc::Global;

/// The fresh machine for the valid image that the bytes spell, with that many cells and at most that many frames beside the
/// first; or the first fault: that of the bytes, then that of the image. Memory may come at any bytes.
pub fn load(alloc: Global, bytes: &[u8], arena: u32, depth: u32) -> Result<Machine, ImageFault>
    ensures machine { IfOk result (IsMachineFor bytes.now arena depth) }
    ensures fault { IfErr result (λ f. IsFaultOf bytes.now f) }
{
    match read_image(alloc, bytes) {
        Err(fault) => Err(fault),
        Ok(image) => match verify(alloc, image) {
            Err(fault) => Err(fault),
            Ok(good) => match Machine::make(alloc, good, arena, depth) {
                Ok(machine) => Ok(machine),
                Err(_) => Err(ImageFault::Memory),
            },
        },
    }
}

/// Bytes have a valid image exactly where they spell it, and no more than one byte behind the greatest file decides it. It
/// does nothing.
pub fn law()
    ensures found { (bytes : List ℕ) (i : AnImage) → ((k : ℕ) → get_or bytes k 0 < 256) → valid_image_of bytes ≡ Ok i → Spells i bytes × IsValid i }
    ensures only { (bytes : List ℕ) (i : AnImage) → Spells i bytes → IsValid i → valid_image_of bytes ≡ Ok i }
    ensures front { (bytes : List ℕ) → valid_image_of (take 134217729 bytes) ≡ valid_image_of bytes }
{}

//! The bytes of an image.

ghost use Rattle.std.specs.Prelude.{◌≤◌, length, OnOk, IfOk};
ghost use Rattle.jn_code.specs.Form.{InForm};
ghost use Rattle.jn_code.specs.Spells.{Fits, Spells, file_of, limit};
ghost use Rattle.jn_imagefile.specs.Appends.{Appends};

use crate::bytes::put_u32;
use crate::puts::{put_field_kinds, put_list, put_short_list};
use crate::reading::MAGIC;
use jn_code::Image;
use std::alloc::{AllocError, Global};

#[tactic(auto, unfolding(jn_code::specs::SpellsFile::file, jn_code::specs::SpellsFields::part, jn_code::specs::SpellsFields::last))]
fn put_image(out: &mut Vec<u8>, image: &Image) -> Result<(), AllocError>
    requires { InForm image.now }
    ensures { OnOk result (Appends (file_of image.now) (Fits image.now) out.old.items out.new.items) }
{
    put_u32(out, MAGIC)?;
    put_list(out, &image.texts)?;
    put_list(out, &image.methods)?;
    put_field_kinds(out, &image.fields)?;
    put_short_list(out, &image.groups)?;
    put_short_list(out, &image.classes)?;
    put_list(out, &image.codes)?;
    put_u32(out, image.start)?;
    Ok(())
}

/// The bytes that spell the image.
pub fn write_image(alloc: Global, image: &Image) -> Result<Vec<u8>, AllocError>
    requires form { InForm image.now }
    requires within { length (file_of image.now) ≤ limit }
    ensures { IfOk result (λ v. Spells image.now v.items) }
{
    let mut out = Vec::new(alloc);
    put_image(&mut out, image)?;
    Ok(out)
}

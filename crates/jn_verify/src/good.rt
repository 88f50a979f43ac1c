ghost use Rattle.std.specs.Prelude.{◌≡◌, ◌<◌, ◌≤◌, ◌^◌, All, IfOk, IfErr, length, slice_get};
ghost use Rattle.jn_code.specs.Form.{InForm};
ghost use Rattle.jn_code.specs.Known.{IsSound};
ghost use Rattle.jn_code.specs.Valid.{IsValid, first_fault, start_fault, codes_fault, starts_well};
ghost use Rattle.jn_verify.specs.Causes.{IsCause, IsShort};

use crate::numbers::result_kind;
use crate::pass::code_fault;
use crate::rows::row_fault;
use jn_code::{CodeWhy, Image, ImageFault};
use std::alloc::{AllocError, Global};
use std::marker::Model;

/// An image that is valid and in form. Contracts see it as that image, and only [`verify`] makes one.
#[derive(Drop)]
pub struct Good {
    image: Image,
}

impl Model for Good {
    ghost use Rattle.jn_code.specs.declared.image.Image.{Image};
    ghost use Rattle.jn_code.specs.Form.{InForm};
    ghost use Rattle.jn_code.specs.Valid.{IsValid};

    ghost Value = { Image };

    ghost view = { λ g. g.image };

    ghost invariant = { λ g. IsValid g.image × InForm g.image };
}

impl Good {
    /// The image. Before each instruction of its codes the kinds of the operands are known and right.
    pub fn image(&self) -> &Image
        ensures same { result.now ≡ self.now }
        ensures valid { IsValid self.now }
        ensures sound { IsSound self.now }
        ensures form { InForm self.now }
    {
        &self.image
    }
}

fn starts_well(image: &Image) -> bool
    ensures { result ≡ starts_well (slice_get image.now.codes image.now.start) }
{
    match image.codes.get(image.start as usize) {
        Some(code) => code.params.len() == 0 && result_kind(code.result).is_none(),
        None => false,
    }
}

fn start_fault(image: &Image) -> Option<ImageFault>
    ensures { result ≡ start_fault image.now }
{
    if starts_well(image) {
        return None;
    }
    Some(ImageFault::BadCode(image.start, 0, CodeWhy::Start))
}

/// The first fault of the codes, and then that of the start.
fn codes_fault(alloc: Global, image: &Image) -> Result<Option<ImageFault>, AllocError>
    requires count { length image.now.codes < 2 ^ 32 }
    requires codes { All IsShort image.now.codes }
    ensures { IfOk result (λ fault. fault ≡ codes_fault image.now 0 image.now.codes) }
{
    let codes = image.codes.as_slice();
    for k in 0..codes.len() {
        if let Some(fault) = code_fault(alloc, image, k as u32, &codes[k])? {
            return Ok(Some(fault));
        }
    }
    Ok(start_fault(image))
}

/// The first fault of the rows, and then that of the codes.
fn first_fault(alloc: Global, image: &Image) -> Result<Option<ImageFault>, AllocError>
    requires { InForm image.now }
    ensures { IfOk result (λ fault. fault ≡ first_fault image.now) }
{
    let rows = image.classes.as_slice();
    for k in 0..rows.len() {
        if let Some(why) = row_fault(image, k as u16, &rows[k]) {
            return Ok(Some(ImageFault::BadRow(k as u16, why)));
        }
    }
    codes_fault(alloc, image)
}

/// The image as it was handed in, exactly where it is valid; else its first fault, or Memory.
pub fn verify(alloc: Global, i: Image) -> Result<Good, ImageFault>
    requires { InForm i }
    ensures ok { IfOk result (λ good. (good ≡ i) × IsValid i) }
    ensures err { IfErr result (λ fault. IsCause i fault) }
{
    match first_fault(alloc, &i) {
        Err(_) => Err(ImageFault::Memory),
        Ok(Some(fault)) => Err(fault),
        Ok(None) => Ok(Good { image: i }),
    }
}

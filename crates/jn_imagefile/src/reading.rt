//! The image that bytes spell.

ghost use Rattle.std.specs.Prelude.{◌≡◌, ◌-◌, ◌≤◌, Ok, IfOk};
ghost use Rattle.jn_code.specs.declared.image.Image.{Image};
ghost use Rattle.jn_code.specs.Spells.{Spells, image_of, limit};
ghost use Rattle.jn_code.specs.SpellsFile.{file, magic_number};
ghost use Rattle.jn_imagefile.specs.Gives.{Gives};
ghost use Rattle.jn_imagefile.specs.Answers.{Answers};
ghost use Rattle.jn_imagefile.specs.Gives.{Tells};

use crate::counted::{few_at, field_kinds_at, list_at, short_list_at};
use crate::fields::u32_at;
use crate::stop::Stop;
use jn_code::{Image, ImageFault};
use sqlite_items::Items;
use std::alloc::Global;

/// How many bytes a file has at most.
const LIMIT: usize = 134_217_728;

/// The bytes 4a 4e 44 31.
pub const MAGIC: u32 = 0x3144_4e4a;

fn magic_at(bytes: &[u8]) -> Result<(u32, &[u8]), Stop>
    ensures { Gives (λ x. (x.0, x.1.now)) result (magic_number.read bytes.now) }
{
    let (magic, rest) = u32_at(bytes)?;
    if magic != MAGIC {
        return Err(Stop::Magic);
    }
    Ok((magic, rest))
}

/// An image of nothing, into which one is read.
fn no_image(alloc: Global) -> Image {
    Image {
        texts: Items::new(alloc),
        methods: Items::new(alloc),
        fields: Items::new(alloc),
        groups: Items::new(alloc),
        classes: Items::new(alloc),
        codes: Items::new(alloc),
        start: 0,
    }
}

/// Reads an image, and gives the bytes behind it.
#[tactic(auto, unfolding(jn_code::specs::SpellsFile::file, jn_code::specs::SpellsFields::part, jn_code::specs::SpellsFields::last))]
fn image_into<'a>(alloc: Global, out: &mut Image, bytes: &'a [u8]) -> Result<&'a [u8], Stop>
    ensures { Gives (λ rest. (out.new, rest.now)) result (file.read bytes.now) }
{
    let (_, rest) = magic_at(bytes)?;
    let (texts, rest) = list_at(alloc, rest)?;
    out.texts = texts;
    let (methods, rest) = list_at(alloc, rest)?;
    out.methods = methods;
    let (fields, rest) = field_kinds_at(alloc, rest)?;
    out.fields = fields;
    let (groups, rest) = short_list_at(alloc, rest)?;
    out.groups = groups;
    let (classes, rest) = few_at(alloc, rest, 4096)?;
    out.classes = classes;
    let (codes, rest) = list_at(alloc, rest)?;
    out.codes = codes;
    let (start, rest) = u32_at(rest)?;
    out.start = start;
    Ok(rest)
}

fn image_at(alloc: Global, bytes: &[u8]) -> Result<(Image, &[u8]), Stop>
    ensures { Gives (λ x. (x.0, x.1.now)) result (file.read bytes.now) }
{
    let mut image = no_image(alloc);
    let rest = image_into(alloc, &mut image, bytes)?;
    Ok((image, rest))
}

/// The place where so many of all bytes are left.
fn place_of(size: usize, left: usize) -> u32
    requires { size ≤ limit }
    ensures { result ≡ size - left }
{
    size.saturating_sub(left) as u32
}

fn fault_of(size: usize, stop: Stop) -> ImageFault
    requires { size ≤ limit }
    ensures { Tells stop size result }
{
    match stop {
        Stop::Memory => ImageFault::Memory,
        Stop::Short(left) => ImageFault::Short(place_of(size, left)),
        Stop::Magic => ImageFault::BadMagic,
        Stop::Bad(left, field) => ImageFault::BadField(place_of(size, left), field),
    }
}

#[tactic(auto, unfolding(jn_code::specs::Spells::image_of))]
fn answer(alloc: Global, bytes: &[u8]) -> Result<Image, ImageFault>
    ensures { Answers result (image_of bytes.now) }
{
    if LIMIT < bytes.len() {
        return Err(ImageFault::TooLong);
    }
    match image_at(alloc, bytes) {
        Err(stop) => Err(fault_of(bytes.len(), stop)),
        Ok((image, rest)) => {
            if !rest.is_empty() {
                let at = place_of(bytes.len(), rest.len());
                return Err(ImageFault::Trailing(at));
            }
            Ok(image)
        }
    }
}

/// The image that the bytes spell, all of the bytes, or the first fault: that they are too many, and then that of the
/// first field that is wrong. A list takes memory as its items are read, so its count alone takes none.
pub fn read_image(alloc: Global, bytes: &[u8]) -> Result<Image, ImageFault>
    // What is given is spelled, and so it is in form.
    ensures found { IfOk result (λ i. Spells i bytes.now) }
    // What is spelled is given, unless memory runs out.
    ensures only { (i : Image) → Spells i bytes.now → Answers result (Ok i) }
    // Which fault it is.
    ensures exact { Answers result (image_of bytes.now) }
{
    answer(alloc, bytes)
}

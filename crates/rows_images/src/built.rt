//! From a source to the file of its image, and back to the image.
ghost use Rattle.std.specs.Prelude.{IfOk};
ghost use Rattle.jn_base.specs.Spelling.{IsTextOf};
ghost use Rattle.jn_base.specs.WithinLimits.{IsWithinLimits};
ghost use Rattle.jn_rules.specs.Verdict.{TreePasses};
ghost use Rattle.jn_check.specs.Worlds.{IsWorld};
ghost use Rattle.jn_link.specs.Joined.{IsImageOf};
ghost use Rattle.rows_images.specs.Accepted.{IsAccepted};

use jn_base::refusal::Refusal;
use jn_base::tree::Program;
use jn_cases::Tally;
use jn_check::{World, check};
use jn_code::{Image, ImageFault};
use jn_header::CheckFault;
use jn_imagefile::{read_image, write_image};
use jn_link::image;
use jn_parser::{ParseFault, parse};
use jn_verify::{Good, verify};
use jn_words::refusal_line;
use std::alloc::{AllocError, Global};

/// The most bytes that a source may have.
const LONGEST: usize = 1_048_576;

/// The program of a source that is accepted, what it is known by, and the file of its image.
#[derive(Drop)]
pub struct Built {
    pub program: Program,
    pub world: World,
    pub file: Vec<u8>,
}

/// Why a source has no image: the line of its refusal, or want of memory.
#[derive(Drop)]
pub enum Unbuilt {
    Refused(Vec<u8>),
    Memory,
}

impl From<AllocError> for Unbuilt {
    fn from(_error: AllocError) -> Unbuilt {
        Unbuilt::Memory
    }
}

/// The line of a refusal.
fn refused(alloc: Global, p: Option<&Program>, refusal: &Refusal) -> Unbuilt {
    match refusal_line(alloc, p, refusal) {
        Ok(line) => Unbuilt::Refused(line),
        Err(_) => Unbuilt::Memory,
    }
}

/// That a source is too long.
fn too_long(alloc: Global) -> Unbuilt {
    match Vec::from_slice(alloc, b"too long") {
        Ok(line) => Unbuilt::Refused(line),
        Err(_) => Unbuilt::Memory,
    }
}

/// The program that a source spells.
fn parsed(alloc: Global, source: &[u8]) -> Result<Program, Unbuilt>
    ensures { IfOk result (λ p. IsTextOf p source.now) }
{
    if source.len() > LONGEST {
        return Err(too_long(alloc));
    }
    match parse(alloc, source) {
        Ok(program) => Ok(program),
        Err(ParseFault::Refused(refusal)) => Err(refused(alloc, None, &refusal)),
        Err(ParseFault::Memory) => Err(Unbuilt::Memory),
    }
}

/// What an accepted program is known by.
fn accepted(alloc: Global, p: &Program) -> Result<World, Unbuilt>
    requires { IsWithinLimits p.now }
    ensures passes { IfOk result (λ w. TreePasses p.now) }
    ensures world { IfOk result (λ w. IsWorld p.now w) }
{
    match check(alloc, p) {
        Ok(world) => Ok(world),
        Err(CheckFault::Refused(refusal)) => Err(refused(alloc, Some(p), &refusal)),
        Err(CheckFault::Memory) => Err(Unbuilt::Memory),
    }
}

/// The image of an accepted program.
fn image_of(alloc: Global, p: &Program, w: &World) -> Result<Image, AllocError>
    requires accepted { IsAccepted p.now }
    requires world { IsWorld p.now w.now }
    ensures { IfOk result (λ i. IsImageOf p.now i) }
{
    image(
        alloc,
        p,
        &w.table,
        &w.members,
        &w.groups,
        &w.slots,
        w.bodies.as_slice(),
    )
}

/// The file of the image of an accepted program.
fn file_of(alloc: Global, p: &Program, w: &World) -> Result<Vec<u8>, AllocError>
    requires accepted { IsAccepted p.now }
    requires world { IsWorld p.now w.now }
{
    let image = image_of(alloc, p, w)?;
    write_image(alloc, &image)
}

/// The program of a source, what it is known by, and the file of its image.
pub fn build(alloc: Global, source: &[u8]) -> Result<Built, Unbuilt>
    ensures { IfOk result (λ b. IsAccepted b.program) }
{
    let program = parsed(alloc, source)?;
    let world = accepted(alloc, &program)?;
    let file = file_of(alloc, &program, &world)?;
    Ok(Built {
        program,
        world,
        file,
    })
}

/// The image in a file, read and verified.
pub fn loaded(alloc: Global, file: &[u8]) -> Result<Good, ImageFault> {
    match read_image(alloc, file) {
        Ok(image) => verify(alloc, image),
        Err(fault) => Err(fault),
    }
}

/// Tells what is wrong with a file or an image.
pub fn tell_fault(alloc: Global, fault: ImageFault, tally: &mut Tally) -> Result<(), AllocError> {
    let said = format!(in alloc; "{fault:?}")?;
    tally.fault("the image", said.as_str())
}

ghost use Rattle.std.specs.Prelude.{◌≡◌, None, option_copied};
ghost use Rattle.jn_base.specs.WithinLimits.{IsWithinLimits};
ghost use Rattle.jn_drive.specs.Answer.{IsRefusedBy, IsOfFault, too_long_refusal};
ghost use Rattle.jn_drive.specs.Built.{Parses, Passes};

use crate::halt::Halt;
use jn_base::refusal::{Refusal, Rule};
use jn_base::tree::{Place, Program};
use jn_check::{World, check};
use jn_heads::CheckFault;
use jn_parser::{ParseFault, parse};
use jn_words::refusal_line;
use sqlite_items::Items;
use std::alloc::Global;

/// How many bytes a source may have.
pub const LIMIT: usize = 1_048_576;

/// The program that the bytes of a source spell.
pub fn parsed(alloc: Global, source: &[u8]) -> Result<Program, Halt>
    ensures { Parses source.now result }
{
    if source.len() > LIMIT {
        return Err(refused(alloc, None, &too_long()));
    }
    match parse(alloc, source) {
        Ok(program) => Ok(program),
        Err(fault) => Err(unparsed(alloc, &fault)),
    }
}

/// What an accepted program is known by.
pub fn accepted(alloc: Global, program: &Program) -> Result<World, Halt>
    requires { IsWithinLimits program.now }
    ensures { Passes program.now result }
{
    match check(alloc, program) {
        Ok(world) => Ok(world),
        Err(CheckFault::Refused(refusal)) => Err(refused(alloc, Some(program), &refusal)),
        Err(CheckFault::Memory) => Err(Halt::Memory),
    }
}

/// Why there is no tree.
fn unparsed(alloc: Global, fault: &ParseFault) -> Halt
    ensures { IsOfFault fault.now result }
{
    match fault {
        ParseFault::Refused(refusal) => refused(alloc, None, refusal),
        ParseFault::Memory => Halt::Memory,
    }
}

/// The refusal of a source that has too many bytes.
fn too_long() -> Refusal
    ensures { result ≡ too_long_refusal }
{
    Refusal {
        rule: Rule::E02,
        at: Place { line: 1, column: 1 },
        class: None,
        member: None,
        limit: None,
    }
}

/// A refusal of a source, with its line. Where there is a tree, the line tells its names.
fn refused(alloc: Global, program: Option<&Program>, refusal: &Refusal) -> Halt
    ensures { IsRefusedBy (option_copied program.entry) refusal.now result }
{
    match refusal_line(alloc, program, refusal) {
        Ok(line) => Halt::Refused(Items::from_vec(line)),
        Err(_) => Halt::Memory,
    }
}

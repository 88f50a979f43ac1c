//! The round trip: the canonical text of a program, parsed, is that program but for its places.
#![tactic(auto)]

ghost use Rattle.jn_base.specs.WithinLimits.{IsWithinLimits};
ghost use Rattle.jn_round_trip.specs.Returns.{ComesBack};

use jn_base::refusal::Refusal;
use jn_base::tree::Program;
use jn_parser::{ParseFault, parse};
use jn_printer::print_program;
use std::alloc::Global;

/// The longest source.
const MOST: usize = 1_048_576;

/// What the text of a program gives where it is parsed again.
#[derive(Debug, Drop)]
pub enum Returned {
    /// This program.
    Parsed(Program),
    /// A refusal.
    Refused(Refusal),
    /// The text is longer than a source may be.
    TooLong,
    /// There was no memory.
    Memory,
}

/// Prints a program, and parses its text.
pub fn text_parsed(alloc: Global, p: &Program) -> Returned
    // A program within the limits comes back as it was, but for its places.
    ensures { IsWithinLimits p.now → ComesBack p.now result }
{
    let text = match print_program(alloc, p) {
        Ok(text) => text,
        Err(_) => return Returned::Memory,
    };
    if text.len() > MOST {
        return Returned::TooLong;
    }
    match parse(alloc, text.as_slice()) {
        Ok(again) => Returned::Parsed(again),
        Err(ParseFault::Refused(refusal)) => Returned::Refused(refusal),
        Err(ParseFault::Memory) => Returned::Memory,
    }
}

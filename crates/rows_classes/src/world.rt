//! The program of a case, with its table.

use crate::shown::refusal_text;
use jn_base::path::Path;
use jn_base::tree::{Name, Program};
use jn_names::mask_names;
use jn_parser::{ParseFault, parse};
use jn_table::{ClassId, Table, TableFault};
use std::alloc::{AllocError, Global};

/// A program with its table, in which the universe is filled unless that is refused, and with its mask names.
#[derive(Drop)]
pub struct World {
    pub program: Program,
    pub table: Table,
    pub refused: Option<TableFault>,
    pub masks: Vec<Name>,
}

/// What comes of a source: a program, or the line of what is refused.
#[derive(Drop)]
pub enum Made {
    World(World),
    Refused(String),
}

/// The most bytes that a source may have.
const LONGEST: usize = 1_048_576;

/// The program of a source.
pub fn made_of(alloc: Global, source: &[u8]) -> Result<Made, AllocError> {
    if source.len() > LONGEST {
        return refused(String::from_str(alloc, "it is too long"));
    }
    match parse(alloc, source) {
        Ok(program) => world_of(alloc, program),
        Err(ParseFault::Refused(r)) => refused(refusal_text(alloc, None, &r)),
        Err(ParseFault::Memory) => Err(AllocError),
    }
}

fn refused(text: Result<String, AllocError>) -> Result<Made, AllocError> {
    Ok(Made::Refused(text?))
}

/// What a program has beside itself: its table, what filling that refused, and its mask names.
#[derive(Drop)]
struct Parts {
    table: Table,
    refused: Option<TableFault>,
    masks: Vec<Name>,
}

fn world_of(alloc: Global, program: Program) -> Result<Made, AllocError> {
    match parts_of(alloc, &program) {
        Err(fault) => Err(fault),
        Ok(parts) => Ok(Made::World(World {
            program,
            table: parts.table,
            refused: parts.refused,
            masks: parts.masks,
        })),
    }
}

fn parts_of(alloc: Global, program: &Program) -> Result<Parts, AllocError> {
    let masks = mask_names(alloc, program)?;
    let mut table = Table::new(alloc, program)?;
    let refused = filled(&mut table)?;
    Ok(Parts {
        table,
        refused,
        masks,
    })
}

/// Fills the universe, and tells the fault where it is refused.
fn filled(table: &mut Table) -> Result<Option<TableFault>, AllocError> {
    match table.ask_all() {
        Ok(()) => Ok(None),
        Err(TableFault::Memory) => Err(AllocError),
        Err(fault) => Ok(Some(fault)),
    }
}

/// The path of a number of the table.
pub fn path_at(table: &Table, id: ClassId) -> Option<&Path> {
    table.known().get(id.0 as usize)
}

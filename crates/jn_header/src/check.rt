//! Names that stand twice, and the class table.

ghost use Rattle.std.specs.Prelude.{◌≡◌, [], reverse, OnOk, Result};
ghost use Rattle.jn_base.specs.declared.refusal.Refusal.{Refusal as ARefusal};
ghost use Rattle.jn_base.specs.Duplicates.{duplicates};
ghost use Rattle.jn_base.specs.Universe.{InUniverse};
ghost use Rattle.jn_table.specs.Answers.{UniversePasses, UniverseRefused};
ghost use Rattle.jn_table.specs.Tables.{IsTableOf, IsFilled, KeepsNumbers};
ghost use Rattle.jn_rules.specs.Plans.{Nothing};
ghost use Rattle.jn_header.specs.Check.{IsAtHome, NamesVerdict, TableVerdict, IsTableFault};
ghost use Rattle.jn_heads.specs.Told.{Told, itself};

use crate::twice::first_duplicate;
use crate::unknown::first_unknown;
use jn_base::path::Path;
use jn_base::refusal::{Refusal, Rule};
use jn_base::tree::Program;
use jn_heads::CheckFault;
use jn_homes::home_of;
use jn_table::{Table, TableFault};
use std::alloc::Global;

/// Whether no name stands twice where it may stand once: a second declaration, field or method of one name in one
/// body, a second name in one list, a second parameter, a local where its name is in scope. The first that does, in
/// source order, is answered.
pub fn check_names(alloc: Global, p: &Program) -> Result<(), CheckFault>
    ensures told { Told (NamesVerdict p.now) itself result }
    ensures only { (o : Result Nothing ARefusal) → NamesVerdict p.now o → Told (λ a. a ≡ o) itself result }
{
    match first_duplicate(alloc, p)? {
        Some(refusal) => Err(CheckFault::Refused(refusal)),
        None => Ok(()),
    }
}

/// Whether the class table of a program in which no name stands twice passes: it has no more than 4,096 paths, none
/// of them is its own strict super or has supers of both kinds, and each name that is extended is a member of the
/// namespace. The first of these that doesn't hold is answered.
///
/// Where it passes, the universe is filled in the table; else the table still is one of the program.
pub fn check_table(alloc: Global, p: &Program, t: &mut Table) -> Result<(), CheckFault>
    requires table { IsTableOf p.now t.old }
    requires once { duplicates p.now ≡ [] }
    ensures told { Told (TableVerdict p.now) itself result }
    ensures only { (o : Result Nothing ARefusal) → TableVerdict p.now o → Told (λ a. a ≡ o) itself result }
    ensures filled { OnOk result (IsFilled p.now t.new) }
    ensures stays { IsTableOf p.now t.new }
    ensures numbers { KeepsNumbers t.old t.new }
{
    match t.ask_all() {
        Ok(()) => check_extended(alloc, p, t),
        Err(fault) => Err(refused(p, fault)),
    }
}

/// The names that are extended, where nothing of the universe is refused.
fn check_extended(alloc: Global, p: &Program, table: &Table) -> Result<(), CheckFault>
    requires once { duplicates p.now ≡ [] }
    requires filled { IsFilled p.now table.now }
    requires universe { UniversePasses p.now }
    ensures { Told (TableVerdict p.now) itself result }
{
    match first_unknown(alloc, p, table)? {
        Some(refusal) => Err(CheckFault::Refused(refusal)),
        None => Ok(()),
    }
}

/// What a refused universe comes to.
fn refused(p: &Program, fault: TableFault) -> CheckFault
    requires once { duplicates p.now ≡ [] }
    requires universe { UniverseRefused p.now fault }
    ensures { IsTableFault p.now result }
{
    match fault {
        TableFault::TooMany(path) => CheckFault::Refused(at_home(p, Rule::E13, path)),
        TableFault::Cycle(path) => CheckFault::Refused(at_home(p, Rule::E08, path)),
        TableFault::Kind(path) => CheckFault::Refused(at_home(p, Rule::E07, path)),
        TableFault::NoClass(_) => unreachable!(),
        TableFault::Memory => CheckFault::Memory,
    }
}

/// The refusal at the home of a path of the universe, which is shown.
fn at_home(p: &Program, rule: Rule, path: Path) -> Refusal
    requires once { duplicates p.now ≡ [] }
    requires universe { InUniverse p.now (reverse path.names) }
    ensures { IsAtHome p.now rule (reverse path.names) result }
{
    let at = home_of(p, &path).unwrap();
    Refusal {
        rule,
        at,
        class: Some(path),
        member: None,
        limit: None,
    }
}

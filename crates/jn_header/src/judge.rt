//! Everything that a program says outside its bodies.

ghost use Rattle.std.specs.Prelude.{◌≡◌, [], IfOk, Result};
ghost use Rattle.jn_base.specs.declared.refusal.Refusal.{Refusal as ARefusal};
ghost use Rattle.jn_base.specs.Duplicates.{duplicates};
ghost use Rattle.jn_base.specs.WithinLimits.{IsWithinLimits};
ghost use Rattle.jn_intern.specs.Pools.{Keeps};
ghost use Rattle.jn_table.specs.Tables.{IsFilled, IsTableOf, KeepsNumbers};
ghost use Rattle.jn_base.specs.TableRules.{TablePasses};
ghost use Rattle.jn_heads.specs.Told.{Told};
ghost use Rattle.jn_rules.specs.Plans.{Nothing};
ghost use Rattle.jn_rules.specs.Verdict.{MembersPass, HeadersVerdict};
ghost use Rattle.jn_header.specs.Bodies.{IsJudged, AreBodies};
ghost use Rattle.jn_header.specs.Classes.{OrRefused};
ghost use Rattle.jn_header.specs.Judged.{AreParts, PartsPass, nothing};

use crate::bodies::Bodies;
use crate::check::check_table;
use crate::classes::judge_members;
use crate::constraints::judge_constraints;
use crate::headers::check_types;
use crate::shared::{Shared, shared_of};
use jn_base::tree::{Name, Program};
use jn_heads::CheckFault;
use jn_intern::Pool;
use jn_names::{Members, mask_names};
use jn_share::{Groups, Slots};
use jn_table::Table;
use std::alloc::Global;

/// What is known of a program whose headers pass: its least members, the groups of its classes, the slots of their
/// fields, and the names of its masks.
#[derive(Drop)]
pub struct Headers {
    pub members: Members,
    pub groups: Groups,
    pub slots: Slots,
    pub masks: Vec<Name>,
}

/// The limits and the constraints, where the members pass.
fn behind_members(
    alloc: Global,
    p: &Program,
    t: &mut Table,
    masks: Vec<Name>,
    bodies: Bodies,
) -> Result<Headers, CheckFault>
    requires limits { IsWithinLimits p.now }
    requires judged { IsJudged p.now t.old masks.items }
    requires members { MembersPass p.now }
    requires bodies { AreBodies p.now t.old bodies }
    ensures told { OrRefused p.now (PartsPass p.now t.old) result }
    ensures kept { t.new ≡ t.old }
{
    match shared_of(alloc, p, t) {
        Err(fault) => Err(fault),
        Ok(shared) => match judge_constraints(alloc, p, t, &bodies, &shared, &masks) {
            Err(fault) => Err(fault),
            Ok(()) => Ok(headers_with(bodies, shared, masks)),
        },
    }
}

/// The parts together.
fn headers_with(bodies: Bodies, shared: Shared, masks: Vec<Name>) -> Headers
    ensures members { result.members ≡ bodies.members }
    ensures groups { result.groups ≡ shared.groups }
    ensures slots { result.slots ≡ shared.slots }
    ensures masks { result.masks ≡ masks }
{
    Headers {
        members: bodies.members,
        groups: shared.groups,
        slots: shared.slots,
        masks,
    }
}

/// The members, the limits and the constraints, where the class table and the types of headers pass.
fn behind_types(
    alloc: Global,
    p: &Program,
    t: &mut Table,
    masks: Vec<Name>,
    pool: &mut Pool,
) -> Result<Headers, CheckFault>
    requires limits { IsWithinLimits p.now }
    requires judged { IsJudged p.now t.old masks.items }
    ensures told { OrRefused p.now (PartsPass p.now t.old) result }
    ensures keeps { Keeps pool.old pool.new }
    ensures kept { t.new ≡ t.old }
{
    match judge_members(alloc, p, t, &masks, pool) {
        Err(fault) => Err(fault),
        Ok(bodies) => behind_members(alloc, p, t, masks, bodies),
    }
}

/// The types of headers and all behind them, where the class table passes.
fn behind_table(
    alloc: Global,
    p: &Program,
    t: &mut Table,
    pool: &mut Pool,
) -> Result<Headers, CheckFault>
    requires limits { IsWithinLimits p.now }
    requires once { duplicates p.now ≡ [] }
    requires filled { IsFilled p.now t.old }
    requires table { TablePasses p.now }
    ensures told { OrRefused p.now (PartsPass p.now t.old) result }
    ensures keeps { Keeps pool.old pool.new }
    ensures kept { t.new ≡ t.old }
{
    let masks = mask_names(alloc, p)?;
    match check_types(alloc, p, t, &masks, pool) {
        Err(fault) => Err(fault),
        Ok(()) => behind_types(alloc, p, t, masks, pool),
    }
}

/// Whether what a program says outside its bodies passes, where no name stands twice in it; or the first refusal: of
/// the class table; of the types of headers, in source order; of the members of the first class in class order; more
/// than 1,048,576 entries; more than 250 slots of the first class in class order; a sharing constraint that doesn't
/// hold, of the first class in class order and its first method by bytes.
///
/// Where it passes, the universe is filled in the table, and the parts are those of the program. In each case the
/// table is one of the program still, and older numbers of the table and of the pool keep their meaning. The program
/// is within the limits: some source spells it but for its places.
pub fn check_headers(
    alloc: Global,
    p: &Program,
    t: &mut Table,
    pool: &mut Pool,
) -> Result<Headers, CheckFault>
    requires limits { IsWithinLimits p.now }
    requires once { duplicates p.now ≡ [] }
    requires table { IsTableOf p.now t.old }
    // The verdict of the headers is answered, and no other answer is given.
    ensures told { Told (HeadersVerdict p.now) nothing result }
    ensures only { (o : Result Nothing ARefusal) → HeadersVerdict p.now o → Told (λ a. a ≡ o) nothing result }
    // The table is filled, and the parts are the definitions' values.
    ensures parts { IfOk result (λ h. AreParts p.now t.new h) }
    // What the table and the pool had stays.
    ensures stays { IsTableOf p.now t.new }
    ensures numbers { KeepsNumbers t.old t.new }
    ensures keeps { Keeps pool.old pool.new }
{
    match check_table(alloc, p, t) {
        Err(fault) => Err(fault),
        Ok(()) => behind_table(alloc, p, t, pool),
    }
}

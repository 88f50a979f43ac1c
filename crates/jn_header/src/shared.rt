//! What classes share with one another: groups and slots.

ghost use Rattle.std.specs.Prelude.{◌≡◌, []};
ghost use Rattle.jn_base.specs.Duplicates.{duplicates};
ghost use Rattle.jn_base.specs.WithinLimits.{IsWithinLimits};
ghost use Rattle.jn_table.specs.Tables.{IsFilled};
ghost use Rattle.jn_share.specs.Groups.{AreGroups};
ghost use Rattle.jn_share.specs.Slots.{AreFieldTypes, AreSlots, SlotsAsked};
ghost use Rattle.jn_rules.specs.Verdict.{MembersPass, LimitsPass};
ghost use Rattle.jn_header.specs.Bodies.{OrMemory};
ghost use Rattle.jn_header.specs.Classes.{OrRefused};
ghost use Rattle.jn_header.specs.Shared.{AreShared, of_share};

use jn_base::tree::Program;
use jn_heads::{CheckFault, of_names};
use jn_names::field_types;
use jn_share::{Groups, ShareFault, Slots};
use jn_table::{FieldTypes, Table};
use std::alloc::Global;

/// The groups of a program's classes, and the slots of their fields.
#[derive(Drop)]
pub struct Shared {
    pub groups: Groups,
    pub slots: Slots,
}

/// The fault of what is shared, as one of a check.
fn of_share(fault: ShareFault) -> CheckFault
    ensures { result ≡ of_share fault }
{
    match fault {
        ShareFault::Refused(refusal) => CheckFault::Refused(refusal),
        ShareFault::Memory => CheckFault::Memory,
    }
}

/// The groups. No listed name is refused, since the headers pass.
fn groups_of(alloc: Global, p: &Program, t: &Table) -> Result<Groups, CheckFault>
    requires filled { IsFilled p.now t.now }
    requires members { MembersPass p.now }
    ensures { OrMemory (AreGroups p.now t.now.known.items) result }
{
    match Groups::build(alloc, p, t) {
        Ok(groups) => Ok(groups),
        Err(fault) => Err(of_share(fault)),
    }
}

/// The types of the declared fields. None is refused, since the headers pass.
fn types_of(alloc: Global, p: &Program, t: &mut Table) -> Result<FieldTypes, CheckFault>
    requires filled { IsFilled p.now t.old }
    requires members { MembersPass p.now }
    ensures told { OrMemory (λ types. AreFieldTypes p.now t.old.known.items types.list.items) result }
    ensures kept { t.new ≡ t.old }
{
    match field_types(alloc, p, t) {
        Ok(types) => Ok(types),
        Err(fault) => Err(of_names(fault)),
    }
}

/// The slots, or the refusal of a limit: too many entries, or too many slots of the first class that has them.
fn slots_of(
    alloc: Global,
    p: &Program,
    t: &Table,
    g: &Groups,
    types: &FieldTypes,
) -> Result<Slots, CheckFault>
    requires members { MembersPass p.now }
    requires asked { SlotsAsked p.now t.now g.now types.now }
    ensures { OrRefused p.now (λ s. LimitsPass p.now × AreSlots p.now t.now.known.items s) result }
{
    match Slots::build(alloc, t, g, types) {
        Ok(slots) => Ok(slots),
        Err(fault) => Err(of_share(fault)),
    }
}

/// The groups and slots of a program whose members pass, or the refusal of a limit: more than 1,048,576 entries, or
/// more than 250 slots of a class, the first in class order.
pub fn shared_of(alloc: Global, p: &Program, t: &mut Table) -> Result<Shared, CheckFault>
    requires limits { IsWithinLimits p.now }
    requires once { duplicates p.now ≡ [] }
    requires filled { IsFilled p.now t.old }
    requires members { MembersPass p.now }
    ensures told { OrRefused p.now (λ s. LimitsPass p.now × AreShared p.now t.old.known.items s) result }
    ensures kept { t.new ≡ t.old }
{
    match groups_of(alloc, p, t) {
        Err(fault) => Err(fault),
        Ok(groups) => match types_of(alloc, p, t) {
            Err(fault) => Err(fault),
            Ok(types) => match slots_of(alloc, p, t, &groups, &types) {
                Err(fault) => Err(fault),
                Ok(slots) => Ok(Shared { groups, slots }),
            },
        },
    }
}

ghost use Rattle.std.specs.Prelude.{◌≡◌, ◌↔◌, length, IsTrue, IfOk, option_copied};
ghost use Rattle.jn_base.specs.declared.refusal.Refusal.{Refusal as ARefusal};
ghost use Rattle.jn_base.specs.declared.tree.Program.{Program};
ghost use Rattle.jn_share.specs.Firsts.{FirstsTo};
ghost use Rattle.jn_share.specs.Keys.{KeysFor};
ghost use Rattle.jn_share.specs.Limits.{LimitRefused, over_limit};
ghost use Rattle.jn_share.specs.Listing.{IsFault};
ghost use Rattle.jn_share.specs.Members.{AreGroupMembers};
ghost use Rattle.jn_share.specs.Slots.{SlotsAsked, FindsEntry, EntryTold};

use crate::entries::entries;
use crate::fault::ShareFault;
use crate::field_first::FieldFirst;
use crate::firsts::firsts_of;
use crate::groups::Groups;
use crate::keys::{FieldKey, all_keys, first_over, slot_rows};
use crate::members::{GroupMembers, group_members};
use crate::prepared::prepare;
use crate::refining::settle;
use jn_base::refusal::{Limit, Refusal, Rule};
use jn_base::tree::{Name, Place};
use jn_table::{ClassId, FieldTypes, Table};
use sqlite_items::at;
use std::alloc::{AllocError, Global};

/// The slot of a field.
#[derive(Clone, Copy, Debug, PartialEq, Eq)]
pub struct FieldSlot {
    pub field: Name,
    pub slot: u8,
    /// Whether the type of the field hangs on `this`.
    pub hangs: bool,
}

/// The slots of the fields of a class, and the size of its group.
#[derive(Drop)]
pub struct SlotRow {
    pub fields: Vec<FieldSlot>,
    pub size: u16,
}

/// The slots of a program's classes.
#[derive(Drop)]
pub struct Slots {
    rows: Vec<SlotRow>,
}

/// What slots are made of: the fields of each class, and the slots of each group in their order.
#[derive(Drop)]
struct Made {
    rows: Vec<Vec<FieldFirst>>,
    keys: Vec<Vec<FieldKey>>,
}

/// What the slots of a program are made of.
fn make(
    alloc: Global,
    t: &Table,
    g: &Groups,
    types: &FieldTypes,
    lists: &GroupMembers,
) -> Result<Made, AllocError>
    requires { AreGroupMembers g.now lists.now }
    ensures long { IfOk result (λ made. length made.rows.items ≡ length t.now.known.items) }
    ensures firsts { IfOk result (λ made. (p : Program) → SlotsAsked p t.now g.now types.now
        → FirstsTo p t.now (length t.now.known.items) made.rows.items) }
    ensures keys { IfOk result (λ made. KeysFor made.rows.items lists.now.numbers.items made.keys.items) }
{
    let all = prepare(alloc, t, types)?;
    let parts = settle(alloc, t, g, types, &all)?;
    let rows = firsts_of(alloc, t, g, types, &all, &parts, lists)?;
    let keys = all_keys(alloc, &rows, lists)?;
    Ok(Made { rows, keys })
}

/// The refusal of a limit that is passed.
fn over(limit: Limit, at: Place) -> ShareFault
    ensures { IsFault result (over_limit limit at) }
{
    ShareFault::Refused(Refusal {
        rule: Rule::E04,
        at,
        class: None,
        member: None,
        limit: Some(limit),
    })
}

/// Whether both names are one.
fn is_field(entry: &FieldSlot, field: Name) -> bool
    ensures { IsTrue result ↔ (entry.now.field ≡ field) }
{
    entry.field.0 == field.0
}

/// The entry of the field, where it is there.
fn find_entry(entries: &[FieldSlot], field: Name) -> Option<&FieldSlot>
    ensures { FindsEntry entries.now field (option_copied result) }
{
    for entry in entries {
        if is_field(entry, field) {
            return Some(entry);
        }
    }
    None
}

/// The entry of the field of the number, where it has one.
fn entry_at(rows: &[SlotRow], id: ClassId, field: Name) -> Option<&FieldSlot>
    ensures { EntryTold rows.now id field (option_copied result) }
{
    match at(rows, id.0 as usize) {
        None => None,
        Some(row) => find_entry(&row.fields, field),
    }
}

impl Slots {
    ghost use Rattle.jn_share.specs.Slots.{SlotsGive, SlotsRefusedOr, SlotTold, SaysNoSlot, SaysSize, SaysNoSize, SaysHangs};

    /// The slots of a program, by a table in which its universe is filled, its groups and the types of its fields; or
    /// the refusal of a limit: of its entries, or of the slots of the first class whose group has too many.
    pub fn build(
        alloc: Global,
        t: &Table,
        g: &Groups,
        types: &FieldTypes,
    ) -> Result<Slots, ShareFault>
        ensures gives { (p : Program) → SlotsAsked p t.now g.now types.now → SlotsGive p t.now.known.items result }
        ensures refused { (p : Program) → SlotsAsked p t.now g.now types.now → (r : ARefusal) → LimitRefused p r
            → SlotsRefusedOr r result }
    {
        let lists = group_members(alloc, g)?;
        if entries(t, g, &lists) > 1_048_576 {
            return Err(over(Limit::Entries, Place { line: 1, column: 1 }));
        }
        let made = make(alloc, t, g, types, &lists)?;
        match first_over(t, &made.keys, &lists) {
            Some(k) => Err(over(Limit::Slots, g.home(k))),
            None => {
                let rows = slot_rows(alloc, t, &made.keys, &lists, &made.rows)?;
                Ok(Slots { rows })
            }
        }
    }

    /// The slot number of a field; none where the class has no such field.
    pub fn slot(&self, id: ClassId, field: Name) -> Option<u8>
        ensures told { SlotTold self.now id field result }
        ensures none { SaysNoSlot self.now id field result }
    {
        match entry_at(&self.rows, id, field) {
            None => None,
            Some(entry) => Some(entry.slot),
        }
    }

    /// The size of the group of a class; 0 for a package.
    pub fn size(&self, id: ClassId) -> u16
        ensures size { SaysSize self.now id result }
        ensures none { SaysNoSize self.now id result }
    {
        match at(&self.rows, id.0 as usize) {
            None => 0,
            Some(row) => row.size,
        }
    }

    /// Whether the class has the field, and its type hangs on `this`.
    pub fn hangs(&self, id: ClassId, field: Name) -> bool
        ensures { SaysHangs self.now id field result }
    {
        match entry_at(&self.rows, id, field) {
            None => false,
            Some(entry) => entry.hangs,
        }
    }
}

ghost use Rattle.std.specs.Prelude.{◌≡◌, ◌<◌, ◌↔◌, true, ℕ, List, Contains, slice_get, Some, length, IsTrue, IfOk, OnOk, IfSome, IfNone};
ghost use Rattle.std.specs.List.Sorted.{IsStrictlyIncreasing};
ghost use Rattle.jn_reach.specs.Pairs.{AreMembers};
ghost use Rattle.jn_share.specs.Keys.{AddsOwn, AreKeys, SlotFor, SlotRowFor, KeysFor, KeysAt, FieldsAt, SaysSlotRow, SlotRowsTo, SaysOver, NoneOverTo};
ghost use Rattle.jn_share.specs.declared.field_first.FieldFirst.{FieldFirst as AFieldFirst};
ghost use Rattle.jn_share.specs.declared.keys.FieldKey.{FieldKey as AFieldKey};

use crate::field_first::FieldFirst;
use crate::members::GroupMembers;
use crate::pairs::is_class;
use crate::slots::{FieldSlot, SlotRow};
use jn_base::tree::Name;
use jn_table::Table;
use sqlite_items::at;
use std::alloc::{AllocError, Global};

/// A slot of a group: a field, with the number of the first class that has it in this slot.
#[derive(Clone, Copy, Debug, PartialEq, Eq)]
pub struct FieldKey {
    pub class: usize,
    pub field: Name,
}

/// Adds the slots of which the class is the first itself.
fn own_keys(keys: &mut Vec<FieldKey>, row: &[FieldFirst], m: usize) -> Result<(), AllocError>
    ensures { OnOk result (AddsOwn row.now m keys.old.items keys.new.items) }
{
    for x in row {
        if x.first == m {
            keys.push(FieldKey {
                class: m,
                field: x.field,
            })?;
        }
    }
    Ok(())
}

/// The slots of a group, by the numbers of its classes.
fn keys_of(
    alloc: Global,
    rows: &[Vec<FieldFirst>],
    among: &[usize],
) -> Result<Vec<FieldKey>, AllocError>
    requires { IsStrictlyIncreasing among.now }
    ensures { IfOk result (λ keys. AreKeys rows.now among.now keys.items) }
{
    let mut keys = Vec::new(alloc);
    for m in among {
        if let Some(row) = at(rows, *m) {
            own_keys(&mut keys, row, *m)?;
        }
    }
    Ok(keys)
}

/// The place of the slot, none where it isn't there.
fn key_place(keys: &[FieldKey], class: usize, field: Name) -> Option<usize>
    ensures some { IfSome result (λ i. slice_get keys.now i ≡ Some (record { class = class; field = field })) }
    ensures none { IfNone result (Contains keys.now (record { class = class; field = field }) → ⊥) }
{
    for (i, k) in keys.iter().enumerate() {
        if is_key(k, class, field) {
            return Some(i);
        }
    }
    None
}

/// Whether the slot is that one.
fn is_key(k: &FieldKey, class: usize, field: Name) -> bool
    ensures { IsTrue result ↔ (k.now ≡ record { class = class; field = field }) }
{
    k.class == class && k.field.0 == field.0
}

/// The slots of each group.
pub fn all_keys(
    alloc: Global,
    rows: &[Vec<FieldFirst>],
    lists: &GroupMembers,
) -> Result<Vec<Vec<FieldKey>>, AllocError>
    requires { AreMembers lists.now.starts.items lists.now.numbers.items }
    ensures { IfOk result (λ keys. KeysFor rows.now lists.now.numbers.items keys.items) }
{
    let mut keys = Vec::new(alloc);
    for numbers in &lists.numbers {
        keys.push(keys_of(alloc, rows, numbers)?)?;
    }
    Ok(keys)
}

/// The slots of the group of the number.
pub fn keys_at<'a>(keys: &'a [Vec<FieldKey>], lists: &GroupMembers, k: usize) -> &'a [FieldKey]
    ensures { (ks : List AFieldKey) → KeysAt keys.now lists.now.starts.items k ks → result.now ≡ ks }
{
    match at(&lists.starts, k) {
        None => &[],
        Some(start) => match at(keys, *start) {
            None => &[],
            Some(all) => all,
        },
    }
}

/// The fields of the number.
fn fields_at(rows: &[Vec<FieldFirst>], k: usize) -> &[FieldFirst]
    ensures { (fields : List AFieldFirst) → FieldsAt rows.now k fields → result.now ≡ fields }
{
    match at(rows, k) {
        None => &[],
        Some(row) => row,
    }
}

/// The slot of a field.
fn slot_of(keys: &[FieldKey], x: &FieldFirst) -> FieldSlot
    ensures { SlotFor keys.now x.now result }
{
    FieldSlot {
        field: x.field,
        slot: match key_place(keys, x.first, x.field) {
            None => 0,
            Some(place) => place.min(255) as u8,
        },
        hangs: x.hangs,
    }
}

/// The slots of the fields of a class.
fn slot_row(alloc: Global, keys: &[FieldKey], fields: &[FieldFirst]) -> Result<SlotRow, AllocError>
    ensures { IfOk result (λ row. SlotRowFor keys.now fields.now row) }
{
    let mut slots = Vec::new(alloc);
    for x in fields {
        slots.push(slot_of(keys, x))?;
    }
    Ok(SlotRow {
        fields: slots,
        size: keys.len().min(65_534) as u16 + 1,
    })
}

/// The slots of the fields of the number, where it is a class; none and no size for a package.
fn class_slots(
    alloc: Global,
    t: &Table,
    keys: &[Vec<FieldKey>],
    lists: &GroupMembers,
    rows: &[Vec<FieldFirst>],
    k: usize,
) -> Result<SlotRow, AllocError>
    requires { k < length t.now.known.items }
    ensures { IfOk result (λ row. SaysSlotRow t.now keys.now lists.now.starts.items rows.now k row) }
{
    if !is_class(t, k) {
        return Ok(SlotRow {
            fields: Vec::new(alloc),
            size: 0,
        });
    }
    let row = slot_row(alloc, keys_at(keys, lists, k), fields_at(rows, k))?;
    Ok(row)
}

/// The slots of all numbers.
pub fn slot_rows(
    alloc: Global,
    t: &Table,
    keys: &[Vec<FieldKey>],
    lists: &GroupMembers,
    rows: &[Vec<FieldFirst>],
) -> Result<Vec<SlotRow>, AllocError>
    ensures { IfOk result (λ out. SlotRowsTo t.now keys.now lists.now.starts.items rows.now (length
        t.now.known.items) out.items) }
{
    let mut out = Vec::new(alloc);
    for k in 0..t.known().len() {
        let row = class_slots(alloc, t, keys, lists, rows, k)?;
        out.push(row)?;
    }
    Ok(out)
}

/// The first class whose group has more than 250 slots.
pub fn first_over(t: &Table, keys: &[Vec<FieldKey>], lists: &GroupMembers) -> Option<usize>
    ensures some { IfSome result (λ k. k < length t.now.known.items) }
    ensures over { IfSome result (λ k. SaysOver t.now keys.now lists.now.starts.items k true × NoneOverTo t.now
        keys.now lists.now.starts.items k) }
    ensures none { IfNone result (NoneOverTo t.now keys.now lists.now.starts.items (length t.now.known.items)) }
{
    for k in 0..t.known().len() {
        if is_over(t, keys, lists, k) {
            return Some(k);
        }
    }
    None
}

/// Whether the number is a class whose group has more than 250 slots.
fn is_over(t: &Table, keys: &[Vec<FieldKey>], lists: &GroupMembers, k: usize) -> bool
    requires { k < length t.now.known.items }
    ensures { SaysOver t.now keys.now lists.now.starts.items k result }
{
    is_class(t, k) && keys_at(keys, lists, k).len() > 250
}

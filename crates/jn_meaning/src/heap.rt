ghost use Rattle.std.specs.Prelude.{◌≡◌, map, OnOk, IfOk};
ghost use Rattle.std.specs.Option.{option_map};
ghost use Rattle.jn_sem.specs.State.{slot_value, stored_value, with_stored};
ghost use Rattle.jn_meaning.specs.Values.{value_of};
ghost use Rattle.jn_meaning.specs.Heaps.{slot_of, stored_of, heap_of, is_for, IsFirstFor, Stores};

use crate::classes::is_one_path;
use crate::value::Value;
use jn_base::tree::Name;
use jn_table::{ClassId, Table};
use sqlite_items::at;
use std::alloc::{AllocError, Global};

/// A slot: a field, with the first class that has it in this slot.
#[derive(Clone, Copy)]
pub struct Slot {
    pub class: ClassId,
    pub field: Name,
}

/// The value of a slot.
#[derive(Clone, Copy)]
pub struct Kept {
    pub slot: Slot,
    pub value: Value,
}

/// An object: the class as which it was made, and the values of its slots.
#[derive(Drop)]
pub struct Object {
    pub made: ClassId,
    pub stored: Vec<Kept>,
}

/// The objects in the order of their making, and the cells that they use.
#[derive(Drop)]
pub struct Heap {
    pub objects: Vec<Object>,
    pub used: u32,
}

/// Whether both are one slot.
fn is_slot(t: &Table, kept: &Kept, s: Slot) -> bool
    ensures { result ≡ is_for t.now.known.items s kept.now }
{
    is_one_path(t, kept.slot.class, s.class) && kept.slot.field.0 == s.field.0
}

/// The place of the first value of the slot.
fn place_of(t: &Table, stored: &[Kept], s: Slot) -> Option<usize>
    ensures { IsFirstFor t.now.known.items stored.now s result }
{
    for (i, kept) in stored.iter().enumerate() {
        if is_slot(t, kept, s) {
            return Some(i);
        }
    }
    None
}

/// The value of the slot among these.
fn value_in(t: &Table, stored: &[Kept], s: Slot) -> Option<Value>
    ensures { option_map (value_of t.now.known.items) result ≡ stored_value (map (stored_of t.now.known.items) stored.now) (slot_of t.now.known.items s) }
{
    match place_of(t, stored, s) {
        None => None,
        Some(i) => match at(stored, i) {
            None => None,
            Some(kept) => Some(kept.value),
        },
    }
}

/// The value of a slot of an object, where it has one.
pub fn value_at(t: &Table, h: &Heap, o: usize, s: Slot) -> Option<Value>
    ensures { option_map (value_of t.now.known.items) result ≡ slot_value (heap_of t.now.known.items h.now) o (slot_of t.now.known.items s) }
{
    match h.objects.get(o) {
        None => None,
        Some(object) => value_in(t, &object.stored, s),
    }
}

/// The slot gets the value, in its own place; one that has none yet comes last.
fn put_value(t: &Table, stored: &mut Vec<Kept>, s: Slot, v: Value) -> Result<(), AllocError>
    ensures { OnOk result (map (stored_of t.now.known.items) stored.new.items ≡ with_stored (map (stored_of t.now.known.items) stored.old.items) (slot_of t.now.known.items s) (value_of t.now.known.items v)) }
{
    match place_of(t, stored, s) {
        Some(i) => {
            if i < stored.len() {
                let slot = stored[i].slot;
                stored[i] = Kept { slot, value: v };
            }
            Ok(())
        }
        None => {
            stored.push(Kept { slot: s, value: v })?;
            Ok(())
        }
    }
}

/// The slot of the object gets the value; false where there is no such object.
pub fn store(t: &Table, h: &mut Heap, o: usize, s: Slot, v: Value) -> Result<bool, AllocError>
    ensures { IfOk result (λ b. Stores t.now.known.items h.old h.new o s v b) }
{
    if o >= h.objects.len() {
        return Ok(false);
    }
    put_value(t, &mut h.objects[o].stored, s, v)?;
    Ok(true)
}

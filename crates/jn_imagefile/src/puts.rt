//! Writes a count, and what it counts.

ghost use Rattle.std.specs.Prelude.{◌≡◌, ◌++◌, ◌<◌, ◌≤◌, length, All, OnOk};
ghost use Rattle.std.specs.Int.{w16, w32};
ghost use Rattle.std.specs.List.{flat_map};
ghost use Rattle.jn_code.specs.SpellsFields.{at_most, byte, number, raw, kind_byte, counted, listed, ascending};
ghost use Rattle.jn_code.specs.SpellsFile.{kinds};
ghost use Rattle.jn_imagefile.specs.Appends.{Appends};

use crate::bytes::{put_u8, put_u16, put_u32};
use crate::lists::{Entry, Item, put_entries, put_items};
use sqlite_items::Items;
use std::alloc::AllocError;

/// Bytes as they are.
#[tactic(auto, unfolding(jn_code::specs::SpellsFields::part))]
pub fn put_string(out: &mut Vec<u8>, text: &Items<u8>) -> Result<(), AllocError>
    requires { length text.now < 4294967296 }
    ensures { OnOk result (out.new.items ≡ out.old.items ++ (counted (number w32) raw).spelled text.now) }
{
    put_u32(out, text.len() as u32)?;
    out.extend_from_slice(text.as_slice())
}

/// Kinds, a byte each.
fn put_kinds(out: &mut Vec<u8>, some: &[u8]) -> Result<(), AllocError>
    ensures { OnOk result (out.new.items ≡ out.old.items ++ flat_map byte.spelled some.now) }
{
    out.extend_from_slice(some)
}

/// Kinds, and their count in a byte.
#[tactic(auto, unfolding(jn_code::specs::SpellsFields::part))]
pub fn put_few_kinds(out: &mut Vec<u8>, some: &Items<u8>) -> Result<(), AllocError>
    requires { length some.now < 256 }
    ensures { OnOk result (out.new.items ≡ out.old.items ++ (counted byte kinds).spelled some.now) }
{
    put_u8(out, some.len() as u8)?;
    put_kinds(out, some.as_slice())
}

/// Kinds, and their count in four bytes.
#[tactic(auto, unfolding(jn_code::specs::SpellsFields::part))]
pub fn put_field_kinds(out: &mut Vec<u8>, some: &Items<u8>) -> Result<(), AllocError>
    requires { length some.now < 4294967296 }
    ensures { OnOk result (out.new.items ≡ out.old.items ++ (counted (number w32) (listed (kind_byte 1 4))).spelled some.now) }
{
    put_u32(out, some.len() as u32)?;
    put_kinds(out, some.as_slice())
}

/// Items, and their count in four bytes.
#[tactic(auto, unfolding(jn_code::specs::SpellsFields::part))]
pub fn put_list<T: Item>(out: &mut Vec<u8>, items: &Items<T>) -> Result<(), AllocError>
    requires count { length items.now < 4294967296 }
    requires each { All T.form items.now }
    ensures { OnOk result (Appends ((counted (number w32) (listed T.field)).spelled items.now) (All T.fits items.now) out.old.items out.new.items) }
{
    put_u32(out, items.len() as u32)?;
    put_items(out, items.as_slice())
}

/// Items, and their count in two bytes.
#[tactic(auto, unfolding(jn_code::specs::SpellsFields::part))]
pub fn put_short_list<T: Item>(out: &mut Vec<u8>, items: &Items<T>) -> Result<(), AllocError>
    requires count { length items.now < 65536 }
    requires each { All T.form items.now }
    ensures { OnOk result (Appends ((counted (number w16) (listed T.field)).spelled items.now) (All T.fits items.now) out.old.items out.new.items) }
{
    put_u16(out, items.len() as u16)?;
    put_items(out, items.as_slice())
}

/// Entries, and their count in four bytes.
#[tactic(auto, unfolding(jn_code::specs::SpellsFields::part))]
pub fn put_ordered<T: Entry>(out: &mut Vec<u8>, entries: &Items<T>) -> Result<(), AllocError>
    requires { length entries.now < 4294967296 }
    ensures { OnOk result (Appends ((counted (number w32) (ascending T.key T.field)).spelled entries.now) (All T.fits entries.now) out.old.items out.new.items) }
{
    put_u32(out, entries.len() as u32)?;
    put_entries(out, entries.as_slice())
}

/// Entries, and their count in two bytes.
#[tactic(auto, unfolding(jn_code::specs::SpellsFields::part))]
pub fn put_short_ordered<T: Entry>(out: &mut Vec<u8>, entries: &Items<T>) -> Result<(), AllocError>
    requires { length entries.now < 65536 }
    ensures { OnOk result (Appends ((counted (number w16) (ascending T.key T.field)).spelled entries.now) (All T.fits entries.now) out.old.items out.new.items) }
{
    put_u16(out, entries.len() as u16)?;
    put_entries(out, entries.as_slice())
}

//! A count, and so many of what it counts.

ghost use Rattle.std.specs.Prelude.{◌≤◌, length, IfOk};
ghost use Rattle.std.specs.Int.{w16, w32};
ghost use Rattle.jn_code.specs.SpellsFields.{at_most, byte, number, raw, kind_byte, counted, listed, ascending};
ghost use Rattle.jn_code.specs.SpellsFile.{kinds};
ghost use Rattle.jn_imagefile.specs.Gives.{Gives};

use crate::fields::{count_at, small_count_at, u16_at, u32_at};
use crate::lists::{Entry, Item, entries_at, items_at, kinds_at};
use crate::stop::Stop;
use sqlite_items::Items;
use std::alloc::Global;

/// Bytes as they are.
#[tactic(auto, unfolding(jn_code::specs::SpellsFields::part))]
pub fn string_at(alloc: Global, bytes: &[u8]) -> Result<(Items<u8>, &[u8]), Stop>
    ensures { Gives (λ x. (x.0, x.1.now)) result ((counted (number w32) raw).read bytes.now) }
{
    let (len, rest) = u32_at(bytes)?;
    let len = len as usize;
    if rest.len() < len {
        return Err(Stop::Short(rest.len()));
    }
    let (text, rest) = rest.split_at(len);
    Ok((Items::from_slice(alloc, text)?, rest))
}

/// At most `most` kinds, from 1 to 3, and the count in a byte.
#[tactic(auto, unfolding(jn_code::specs::SpellsFields::part))]
pub fn few_kinds_at(alloc: Global, bytes: &[u8], most: u8) -> Result<(Items<u8>, &[u8]), Stop>
    ensures reads { Gives (λ x. (x.0, x.1.now)) result ((counted (at_most most byte) kinds).read bytes.now) }
    ensures few { IfOk result (λ x. length x.0 ≤ most) }
{
    let (count, rest) = small_count_at(bytes, most)?;
    let (kinds, rest) = kinds_at(alloc, u32::from(count), 3, rest)?;
    Ok((kinds, rest))
}

/// Kinds from 1 to 4, and the count in four bytes.
#[tactic(auto, unfolding(jn_code::specs::SpellsFields::part))]
pub fn field_kinds_at(alloc: Global, bytes: &[u8]) -> Result<(Items<u8>, &[u8]), Stop>
    ensures { Gives (λ x. (x.0, x.1.now)) result ((counted (number w32) (listed (kind_byte 1 4))).read bytes.now) }
{
    let (count, rest) = u32_at(bytes)?;
    kinds_at(alloc, count, 4, rest)
}

/// Items, and their count in four bytes.
#[tactic(auto, unfolding(jn_code::specs::SpellsFields::part))]
pub fn list_at<T: Item>(alloc: Global, bytes: &[u8]) -> Result<(Items<T>, &[u8]), Stop>
    ensures { Gives (λ x. (x.0, x.1.now)) result ((counted (number w32) (listed T.field)).read bytes.now) }
{
    let (count, rest) = u32_at(bytes)?;
    items_at(alloc, count, rest)
}

/// Items, and their count in two bytes.
#[tactic(auto, unfolding(jn_code::specs::SpellsFields::part))]
pub fn short_list_at<T: Item>(alloc: Global, bytes: &[u8]) -> Result<(Items<T>, &[u8]), Stop>
    ensures { Gives (λ x. (x.0, x.1.now)) result ((counted (number w16) (listed T.field)).read bytes.now) }
{
    let (count, rest) = u16_at(bytes)?;
    items_at(alloc, u32::from(count), rest)
}

/// At most `most` items, and their count in two bytes.
#[tactic(auto, unfolding(jn_code::specs::SpellsFields::part))]
pub fn few_at<T: Item>(alloc: Global, bytes: &[u8], most: u16) -> Result<(Items<T>, &[u8]), Stop>
    ensures { Gives (λ x. (x.0, x.1.now)) result ((counted (at_most most (number w16)) (listed T.field)).read bytes.now) }
{
    let (count, rest) = count_at(bytes, most)?;
    items_at(alloc, u32::from(count), rest)
}

/// Entries in order, and their count in four bytes.
#[tactic(auto, unfolding(jn_code::specs::SpellsFields::part))]
pub fn ordered_at<T: Entry>(alloc: Global, bytes: &[u8]) -> Result<(Items<T>, &[u8]), Stop>
    ensures { Gives (λ x. (x.0, x.1.now)) result ((counted (number w32) (ascending T.key T.field)).read bytes.now) }
{
    let (count, rest) = u32_at(bytes)?;
    entries_at(alloc, count, rest)
}

/// Entries in order, and their count in two bytes.
#[tactic(auto, unfolding(jn_code::specs::SpellsFields::part))]
pub fn short_ordered_at<T: Entry>(alloc: Global, bytes: &[u8]) -> Result<(Items<T>, &[u8]), Stop>
    ensures { Gives (λ x. (x.0, x.1.now)) result ((counted (number w16) (ascending T.key T.field)).read bytes.now) }
{
    let (count, rest) = u16_at(bytes)?;
    entries_at(alloc, u32::from(count), rest)
}

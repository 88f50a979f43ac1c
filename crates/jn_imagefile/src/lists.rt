//! Lists of the file.

ghost use Rattle.std.specs.Prelude.{ℕ, ◌≡◌, All, OnOk};
ghost use Rattle.std.specs.List.{flat_map};
ghost use Rattle.jn_code.specs.SpellsFields.{Field, kind_byte, read_listed, read_ascending};
ghost use Rattle.jn_imagefile.specs.Gives.{Gives};
ghost use Rattle.jn_imagefile.specs.Appends.{Appends};

use crate::fields::kind_at;
use crate::stop::Stop;
use sqlite_items::Items;
use std::alloc::{AllocError, Global};

/// What a list of the file holds.
pub trait Item: Drop {
    /// How it stands in the file.
    ghost field: { Field Self };

    /// It is in form.
    ghost form: { Self → Type 0 };

    /// Its numbers are of their types.
    ghost fits: { Self → Type 0 };

    fn read(alloc: Global, bytes: &[u8]) -> Result<(Self, &[u8]), Stop>
        ensures { Gives (λ x. (x.0, x.1.now)) result (field.read bytes.now) };

    /// Writes it at the end.
    fn write(&self, out: &mut Vec<u8>) -> Result<(), AllocError>
        requires { form self.now }
        ensures { OnOk result (Appends (field.spelled self.now) (fits self.now) out.old.items out.new.items) };
}

/// What a list holds in the order of its keys.
pub trait Entry: Drop {
    ghost key: { Self → ℕ };

    /// How it stands in the file where its key has to be at least that.
    ghost field: { ℕ → Field Self };

    /// Its numbers are of their types.
    ghost fits: { Self → Type 0 };

    fn key(&self) -> u32
        ensures { result ≡ key self.now };

    fn read(bytes: &[u8], least: u64) -> Result<(Self, &[u8]), Stop>
        ensures { Gives (λ x. (x.0, x.1.now)) result ((field least).read bytes.now) };

    /// Writes it at the end.
    fn write(&self, out: &mut Vec<u8>) -> Result<(), AllocError>
        ensures { OnOk result (Appends ((field 0).spelled self.now) (fits self.now) out.old.items out.new.items) };
}

/// So many items.
pub fn items_at<T: Item>(alloc: Global, count: u32, bytes: &[u8]) -> Result<(Items<T>, &[u8]), Stop>
    ensures { Gives (λ x. (x.0, x.1.now)) result (read_listed T.field.read count bytes.now) }
{
    let mut items = Items::new(alloc);
    let mut rest = bytes;
    for _ in 0..count {
        let (item, after) = T::read(alloc, rest)?;
        items.push(item)?;
        rest = after;
    }
    Ok((items, rest))
}

/// So many entries in order.
pub fn entries_at<T: Entry>(
    alloc: Global,
    count: u32,
    bytes: &[u8],
) -> Result<(Items<T>, &[u8]), Stop>
    ensures { Gives (λ x. (x.0, x.1.now)) result (read_ascending T.key (λ least. (T.field least).read) 0 count bytes.now) }
{
    let mut entries = Items::new(alloc);
    let mut rest = bytes;
    let mut least: u64 = 0;
    for _ in 0..count {
        let (entry, after) = T::read(rest, least)?;
        least = u64::from(entry.key()) + 1;
        entries.push(entry)?;
        rest = after;
    }
    Ok((entries, rest))
}

/// So many kinds, from 1 to `most`.
pub fn kinds_at(
    alloc: Global,
    count: u32,
    most: u8,
    bytes: &[u8],
) -> Result<(Items<u8>, &[u8]), Stop>
    ensures { Gives (λ x. (x.0, x.1.now)) result (read_listed (kind_byte 1 most).read count bytes.now) }
{
    let mut kinds = Items::new(alloc);
    let mut rest = bytes;
    for _ in 0..count {
        let (kind, after) = kind_at(rest, 1, most)?;
        kinds.push(kind)?;
        rest = after;
    }
    Ok((kinds, rest))
}

/// Writes the items at the end.
pub fn put_items<T: Item>(out: &mut Vec<u8>, items: &[T]) -> Result<(), AllocError>
    requires { All T.form items.now }
    ensures { OnOk result (Appends (flat_map T.field.spelled items.now) (All T.fits items.now) out.old.items out.new.items) }
{
    for item in items {
        item.write(out)?;
    }
    Ok(())
}

/// Writes the entries at the end.
pub fn put_entries<T: Entry>(out: &mut Vec<u8>, entries: &[T]) -> Result<(), AllocError>
    ensures { OnOk result (Appends (flat_map (T.field 0).spelled entries.now) (All T.fits entries.now) out.old.items out.new.items) }
{
    for entry in entries {
        entry.write(out)?;
    }
    Ok(())
}

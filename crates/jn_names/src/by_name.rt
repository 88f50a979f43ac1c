//! For each name, by its number, the classes whose declarations have it.

ghost use Rattle.std.specs.Prelude.{◌≡◌, ◌++◌, [], ◌∷◌, ℕ, false, nat_eq, OnOk};
ghost use Rattle.indexmap.specs.IndexMap.{get};
ghost use Rattle.jn_names.specs.ByName.{kept_at, Adds};

use indexmap::IndexMap;
use jn_table::ClassId;
use std::alloc::{AllocError, Global};

/// The numbers that are kept at a name, which are taken out.
fn taken(alloc: Global, lists: &mut IndexMap<u32, Vec<ClassId>>, name: u32) -> Vec<ClassId>
    ensures kept { result.items ≡ kept_at (get nat_eq lists.old) name }
    ensures others { (m : ℕ) → nat_eq name m ≡ false → get nat_eq lists.new m ≡ get nat_eq lists.old m }
{
    match lists.swap_remove(&name) {
        None => Vec::new(alloc),
        Some(ids) => ids,
    }
}

/// Keeps one more number at a name.
fn keep(
    alloc: Global,
    lists: &mut IndexMap<u32, Vec<ClassId>>,
    name: u32,
    id: ClassId,
) -> Result<(), AllocError>
    ensures here { OnOk result
        (kept_at (get nat_eq lists.new) name ≡ kept_at (get nat_eq lists.old) name ++ id ∷ []) }
    ensures others { OnOk result ((m : ℕ) → nat_eq name m ≡ false
        → kept_at (get nat_eq lists.new) m ≡ kept_at (get nat_eq lists.old) m) }
{
    let mut ids = taken(alloc, lists, name);
    ids.push(id)?;
    lists.insert(name, ids)?;
    Ok(())
}

/// Keeps the number at each of the names.
pub fn keep_at_each(
    alloc: Global,
    lists: &mut IndexMap<u32, Vec<ClassId>>,
    names: &[u32],
    id: ClassId,
) -> Result<(), AllocError>
    ensures { OnOk result (Adds names.now id (get nat_eq lists.old) (get nat_eq lists.new)) }
{
    for name in names {
        keep(alloc, lists, *name, id)?;
    }
    Ok(())
}

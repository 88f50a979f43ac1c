//! The places of declared names in the order of the names. A name's place is found by halves.

ghost use Rattle.std.specs.Prelude.{◌≡◌, ◌<◌, ℕ, List, Some, All, Any, Contains, IfOk, OnOk, length, map, slice_get};
ghost use Rattle.jn_index.specs.Index.{IsIndex, keys_in};
ghost use Rattle.jn_reach.specs.Graph.{Lists};
ghost use Rattle.jn_base.specs.declared.tree.Name.{Name as AName};
ghost use Rattle.jn_table.specs.Depths.{IsOrdered};
ghost use Rattle.jn_table.specs.Gather.{Gains};
ghost use Rattle.jn_table.specs.NamePlaces.{AreNamePlaces, PlacedAmong, PlacedIn, name_key};

use crate::ascending::ascending;
use crate::entry::Entry;
use jn_base::tree::Name;
use jn_index::{Placed, indexed, place_of};
use std::alloc::{AllocError, Global};

/// The key of a name.
fn name_key(alloc: Global, name: Name) -> Result<Vec<u32>, AllocError>
    ensures { IfOk result (λ key. key.items ≡ name_key name) }
{
    let mut key = Vec::new(alloc);
    key.push(name.0)?;
    Ok(key)
}

/// The keys of the names.
fn name_keys(alloc: Global, names: &[Name]) -> Result<Vec<Vec<u32>>, AllocError>
    ensures { IfOk result (λ keys. keys_in keys.items ≡ map name_key names.now) }
{
    let mut keys = Vec::new(alloc);
    for name in names {
        let key = name_key(alloc, *name)?;
        keys.push(key)?;
    }
    Ok(keys)
}

/// The place of a name in the order of which this is the index.
fn name_place(alloc: Global, index: &[Placed], name: Name) -> Result<usize, AllocError>
    requires { (order : List AName) × IsIndex (map name_key order) index.now × Contains order name }
    ensures { IfOk result (λ place. (order : List AName) → IsIndex (map name_key order) index.now
        → slice_get order place ≡ Some name) }
{
    let key = name_key(alloc, name)?;
    match place_of(index, &key) {
        Some(place) => Ok(place),
        None => unreachable!(),
    }
}

/// For each entry the place of its name in the order.
pub fn name_places(
    alloc: Global,
    order: &[Name],
    entries: &[Entry],
) -> Result<Vec<usize>, AllocError>
    requires { IsOrdered entries.now order.now }
    ensures { IfOk result (λ places. AreNamePlaces entries.now order.now places.items) }
{
    let keys = name_keys(alloc, order)?;
    let index = indexed(alloc, keys)?;
    let mut places = Vec::new(alloc);
    for entry in entries {
        let place = name_place(alloc, &index, entry.name)?;
        places.push(place)?;
    }
    Ok(places)
}

/// Adds the places of the names of the entries of those numbers.
fn add_placed(all: &mut Vec<usize>, places: &[usize], row: &[usize]) -> Result<(), AllocError>
    requires { All (λ i. i < length places.now) row.now }
    ensures { OnOk result (Gains (PlacedAmong places.now row.now) all.old.items all.new.items) }
{
    for number in row {
        all.push(places[*number])?;
    }
    Ok(())
}

/// The places of the names that are declared in one of the namespaces of those numbers, in order.
pub fn declared_places(
    alloc: Global,
    places: &[usize],
    inside: &[Vec<usize>],
    numbers: &[usize],
) -> Result<Vec<usize>, AllocError>
    requires inside { All (λ row. All (λ i. i < length places.now) row.items) inside.now }
    requires numbers { All (λ n. n < length inside.now) numbers.now }
    ensures { IfOk result (λ row. Lists (λ k. Any (PlacedIn places.now inside.now k) numbers.now) row.items) }
{
    let mut all = Vec::new(alloc);
    for at in numbers {
        add_placed(&mut all, places, &inside[*at])?;
    }
    let row = ascending(all)?;
    Ok(row)
}

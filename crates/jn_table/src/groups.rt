//! The places of keys, key by key: the numbers of the entries, or of the paths, that go with one key are found by
//! halves.

ghost use Rattle.std.specs.Prelude.{◌≡◌, ℕ, List, Some, IfOk, map, slice_get};
ghost use Rattle.jn_reach.specs.Each.{Each};
ghost use Rattle.jn_reach.specs.Graph.{Lists};
ghost use Rattle.jn_index.specs.Index.{IsIndex, IsFirst, keys_in};
ghost use Rattle.jn_table.specs.Groups.{IsFirstOf, IsGroups, PlacesOf, RowAt, StandsAt, entry_key, namespace_key};
ghost use Rattle.jn_table.specs.Places.{path_key};

use crate::entry::Entry;
use crate::route::Route;
use jn_index::{Placed, indexed, place_of};
use jn_reach::class_members;
use sqlite_items::at;
use std::alloc::{AllocError, Global};

/// Keys by their places: the first place of a key is found by halves, and the row of that number has all of its places.
#[derive(Drop)]
pub struct Groups {
    pub index: Vec<Placed>,
    pub rows: Vec<Vec<usize>>,
}

/// The first place of the key that stands at the place.
fn first_of(index: &[Placed], key: &[u32], place: usize) -> usize
    ensures { (keys : List (List ℕ)) → IsIndex keys index.now → slice_get keys place ≡ Some key.now
        → IsFirst keys key.now result }
{
    match place_of(index, key) {
        Some(first) => first,
        None => place,
    }
}

/// For each key its first place.
fn firsts_of(alloc: Global, index: &[Placed], keys: &[Vec<u32>]) -> Result<Vec<usize>, AllocError>
    requires { IsIndex (keys_in keys.now) index.now }
    ensures { IfOk result (λ firsts. Each (IsFirstOf (keys_in keys.now)) keys.now firsts.items) }
{
    let mut firsts = Vec::new(alloc);
    for (place, key) in keys.iter().enumerate() {
        let first = first_of(index, key, place);
        firsts.push(first)?;
    }
    Ok(firsts)
}

/// The same keys.
fn copied(alloc: Global, keys: &[Vec<u32>]) -> Result<Vec<Vec<u32>>, AllocError>
    ensures { IfOk result (λ all. keys_in all.items ≡ keys_in keys.now) }
{
    let mut all = Vec::new(alloc);
    for key in keys {
        let same = Vec::from_slice(alloc, key)?;
        all.push(same)?;
    }
    Ok(all)
}

/// The keys by their places.
pub fn grouped(alloc: Global, keys: &[Vec<u32>]) -> Result<Groups, AllocError>
    ensures { IfOk result (λ groups. IsGroups (keys_in keys.now) groups) }
{
    let same = copied(alloc, keys)?;
    let index = indexed(alloc, same)?;
    let firsts = firsts_of(alloc, &index, keys)?;
    let rows = class_members(alloc, &firsts)?;
    Ok(Groups { index, rows })
}

/// The row of that number.
fn row_at(rows: &[Vec<usize>], number: Option<usize>) -> &[usize]
    ensures { RowAt rows.now number result.now }
{
    match number {
        None => &[],
        Some(k) => match at(rows, k) {
            None => &[],
            Some(row) => row,
        },
    }
}

/// The places of the key, in order.
pub fn places_of<'a>(groups: &'a Groups, key: &[u32]) -> &'a [usize]
    ensures { (keys : List (List ℕ)) → IsGroups keys groups.now → Lists (StandsAt keys key.now) result.now }
{
    row_at(&groups.rows, place_of(&groups.index, key))
}

/// The places of the key of the path, in order.
fn path_places(alloc: Global, groups: &Groups, path: &Route) -> Result<Vec<usize>, AllocError>
    ensures { IfOk result (λ row. (keys : List (List ℕ)) → IsGroups keys groups.now → PlacesOf keys path.now row) }
{
    let key = path.key(alloc)?;
    let row = Vec::from_slice(alloc, places_of(groups, &key))?;
    Ok(row)
}

/// For each path the places of its key, in order.
pub fn rows_at(
    alloc: Global,
    groups: &Groups,
    paths: &[Route],
) -> Result<Vec<Vec<usize>>, AllocError>
    ensures { IfOk result (λ rows. (keys : List (List ℕ)) → IsGroups keys groups.now
        → Each (PlacesOf keys) paths.now rows.items) }
{
    let mut rows = Vec::new(alloc);
    for path in paths {
        let row = path_places(alloc, groups, path)?;
        rows.push(row)?;
    }
    Ok(rows)
}

/// The keys of the paths.
pub fn path_keys(alloc: Global, paths: &[Route]) -> Result<Vec<Vec<u32>>, AllocError>
    ensures { IfOk result (λ keys. keys_in keys.items ≡ map path_key paths.now) }
{
    let mut keys = Vec::new(alloc);
    for path in paths {
        let key = path.key(alloc)?;
        keys.push(key)?;
    }
    Ok(keys)
}

/// The keys of the paths of the entries.
pub fn entry_keys(alloc: Global, entries: &[Entry]) -> Result<Vec<Vec<u32>>, AllocError>
    ensures { IfOk result (λ keys. keys_in keys.items ≡ map entry_key entries.now) }
{
    let mut keys = Vec::new(alloc);
    for entry in entries {
        let key = entry.path.key(alloc)?;
        keys.push(key)?;
    }
    Ok(keys)
}

/// The keys of the namespaces of the entries.
pub fn namespace_keys(alloc: Global, entries: &[Entry]) -> Result<Vec<Vec<u32>>, AllocError>
    ensures { IfOk result (λ keys. keys_in keys.items ≡ map namespace_key entries.now) }
{
    let mut keys = Vec::new(alloc);
    for entry in entries {
        let key = entry.namespace.key(alloc)?;
        keys.push(key)?;
    }
    Ok(keys)
}

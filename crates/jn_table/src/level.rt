ghost use Rattle.std.specs.Prelude.{◌≡◌, ◌<◌, ◌≤◌, ℕ, List, All, IfOk, OnOk, length, map};
ghost use Rattle.jn_index.specs.Index.{keys_in};
ghost use Rattle.jn_reach.specs.Graph.{Lists};
ghost use Rattle.jn_table.specs.Exact.{IsNextOf, IsRoot};
ghost use Rattle.jn_table.specs.Gather.{AreInside, Gains};
ghost use Rattle.jn_table.specs.Groups.{IsGroups, StandsAt};
ghost use Rattle.jn_table.specs.Level.{AreGrouped, DirectByAt, IsInheritedAt, IsWrittenAt, child_key, key_under};
ghost use Rattle.jn_table.specs.Level.{ChildPaths, DirectRow, DirectRows, IsShaped};
ghost use Rattle.jn_table.specs.declared.level.Child.{Child as AChild};

use crate::ascending::ascending;
use crate::entry::Entry;
use crate::gather::{Part, parts};
use crate::groups::{Groups, grouped, places_of};
use crate::route::Route;
use jn_base::tree::Name;
use jn_closure::closure;
use std::alloc::{AllocError, Global};

/// A path of the next depth: a member of the path of that number.
#[derive(Drop)]
pub struct Child {
    pub up: usize,
    pub name: Name,
}

/// The paths of one depth, and for each the numbers of its direct supers and of its supers.
#[derive(Drop)]
pub struct Level {
    pub paths: Vec<Route>,
    pub direct: Vec<Vec<usize>>,
    pub sups: Vec<Vec<usize>>,
}

/// The key of the path with that name under the path of that number.
fn key_under(alloc: Global, up: usize, name: Name) -> Result<Vec<u32>, AllocError>
    requires { up < 4096 }
    ensures { IfOk result (λ key. key.items ≡ key_under up name) }
{
    let mut key = Vec::new(alloc);
    key.push(up as u32)?;
    key.push(name.0)?;
    Ok(key)
}

/// The keys of the paths of the next depth.
fn child_keys(alloc: Global, children: &[Child]) -> Result<Vec<Vec<u32>>, AllocError>
    requires { All (λ child. child.up < 4096) children.now }
    ensures { IfOk result (λ keys. keys_in keys.items ≡ map child_key children.now) }
{
    let mut keys = Vec::new(alloc);
    for child in children {
        let key = key_under(alloc, child.up, child.name)?;
        keys.push(key)?;
    }
    Ok(keys)
}

/// Adds the numbers of the paths of the next depth with that name under the path of that number.
fn add_under(
    alloc: Global,
    all: &mut Vec<usize>,
    groups: &Groups,
    up: usize,
    name: Name,
) -> Result<(), AllocError>
    requires { up < 4096 }
    ensures { OnOk result ((keys : List (List ℕ)) → IsGroups keys groups.now
        → Gains (StandsAt keys (key_under up name)) all.old.items all.new.items) }
{
    let key = key_under(alloc, up, name)?;
    all.extend_from_slice(places_of(groups, &key))?;
    Ok(())
}

/// Adds the numbers of those with one of the written names under the path of that number.
fn add_written(
    alloc: Global,
    all: &mut Vec<usize>,
    groups: &Groups,
    up: usize,
    written: &[Name],
) -> Result<(), AllocError>
    requires { up < 4096 }
    ensures { OnOk result ((keys : List (List ℕ)) → IsGroups keys groups.now
        → Gains (IsWrittenAt keys up written.now) all.old.items all.new.items) }
{
    for name in written {
        add_under(alloc, all, groups, up, *name)?;
    }
    Ok(())
}

/// Adds the numbers of those with that name under one of the paths of those numbers.
fn add_inherited(
    alloc: Global,
    all: &mut Vec<usize>,
    groups: &Groups,
    direct: &[usize],
    name: Name,
) -> Result<(), AllocError>
    requires { All (λ up. up < 4096) direct.now }
    ensures { OnOk result ((keys : List (List ℕ)) → IsGroups keys groups.now
        → Gains (IsInheritedAt keys direct.now name) all.old.items all.new.items) }
{
    for up in direct {
        add_under(alloc, all, groups, *up, name)?;
    }
    Ok(())
}

/// The numbers of the direct supers of a path of the next depth, in order, by what is known of its namespace:
/// the names that its declarations extend, and the numbers of the namespace's direct supers.
fn supers_of(
    alloc: Global,
    written: &[Name],
    direct: &[usize],
    groups: &Groups,
    heir: &Child,
) -> Result<Vec<usize>, AllocError>
    requires up { heir.now.up < 4096 }
    requires direct { All (λ up. up < 4096) direct.now }
    ensures { IfOk result (λ row. (children : List AChild) → AreGrouped children groups.now
        → Lists (DirectByAt written.now direct.now children heir.now) row.items) }
{
    let mut all = Vec::new(alloc);
    add_written(alloc, &mut all, groups, heir.up, written)?;
    add_inherited(alloc, &mut all, groups, direct, heir.name)?;
    let row = ascending(all)?;
    Ok(row)
}

/// The numbers of the direct supers of a path of the next depth, in order.
fn direct_row(
    alloc: Global,
    entries: &[Entry],
    level: &Level,
    inside: &[Vec<usize>],
    groups: &Groups,
    heir: &Child,
) -> Result<Vec<usize>, AllocError>
    requires few { length level.now.paths.items ≤ 4096 }
    requires shaped { IsShaped level.now }
    requires inside { AreInside entries.now level.now.paths.items inside.now }
    requires heir { heir.now.up < length level.now.paths.items }
    ensures row { IfOk result (λ row. (children : List AChild) → AreGrouped children groups.now
        → DirectRow entries.now level.now children heir.now row.items) }
{
    let sups = &level.sups[heir.up];
    let written = parts(alloc, entries, inside, sups, heir.name, Part::Extends)?;
    let row = supers_of(alloc, &written, &level.direct[heir.up], groups, heir)?;
    Ok(row)
}

/// For each path of the next depth the numbers of its direct supers.
fn direct_rows(
    alloc: Global,
    entries: &[Entry],
    level: &Level,
    inside: &[Vec<usize>],
    children: &[Child],
) -> Result<Vec<Vec<usize>>, AllocError>
    requires few { length level.now.paths.items ≤ 4096 }
    requires shaped { IsShaped level.now }
    requires inside { AreInside entries.now level.now.paths.items inside.now }
    requires children { All (λ child. child.up < length level.now.paths.items) children.now }
    ensures rows { IfOk result (λ rows. DirectRows entries.now level.now children.now children.now rows.items) }
{
    let keys = child_keys(alloc, children)?;
    let groups = grouped(alloc, &keys)?;
    let mut rows = Vec::new(alloc);
    for heir in children {
        let row = direct_row(alloc, entries, level, inside, &groups, heir)?;
        rows.push(row)?;
    }
    Ok(rows)
}

/// The paths of the next depth.
fn child_paths(alloc: Global, level: &Level, children: &[Child]) -> Result<Vec<Route>, AllocError>
    requires { All (λ child. child.up < length level.now.paths.items) children.now }
    ensures { IfOk result (λ paths. ChildPaths level.now.paths.items children.now paths.items) }
{
    let mut paths = Vec::new(alloc);
    for child in children {
        let path = level.paths[child.up].down(alloc, child.name)?;
        paths.push(path)?;
    }
    Ok(paths)
}

/// The next depth of the table.
pub fn next(
    alloc: Global,
    entries: &[Entry],
    level: &Level,
    inside: &[Vec<usize>],
    children: &[Child],
) -> Result<Level, AllocError>
    requires few { length level.now.paths.items ≤ 4096 }
    requires shaped { IsShaped level.now }
    requires inside { AreInside entries.now level.now.paths.items inside.now }
    requires children { All (λ child. child.up < length level.now.paths.items) children.now }
    ensures shaped { IfOk result (λ below. IsShaped below) }
    ensures paths { IfOk result (λ below. ChildPaths level.now.paths.items children.now below.paths.items) }
    ensures exact { IfOk result (λ below. IsNextOf entries.now level.now children.now below) }
{
    let paths = child_paths(alloc, level, children)?;
    let direct = direct_rows(alloc, entries, level, inside, children)?;
    let sups = closure(alloc, &direct)?;
    Ok(Level {
        paths,
        direct,
        sups,
    })
}

/// The program itself, as the depth above the top-level names.
pub fn root(alloc: Global) -> Result<Level, AllocError>
    ensures one { IfOk result (λ level. length level.paths.items ≡ 1) }
    ensures shaped { IfOk result (λ level. IsShaped level) }
    ensures exact { IfOk result (λ level. IsRoot level) }
{
    let mut paths = Vec::new(alloc);
    paths.push(Route::root(alloc))?;
    let mut direct = Vec::new(alloc);
    direct.push(Vec::new(alloc))?;
    let mut own = Vec::new(alloc);
    own.push(0)?;
    let mut sups = Vec::new(alloc);
    sups.push(own)?;
    Ok(Level {
        paths,
        direct,
        sups,
    })
}

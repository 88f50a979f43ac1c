ghost use Rattle.std.specs.Prelude.{◌≡◌, ◌<◌, ◌↔◌, All, Any, Contains, IfOk, IsTrue, length};
ghost use Rattle.jn_base.specs.declared.tree.Name.{Name as AName};
ghost use Rattle.jn_table.specs.Gather.{AreAtPaths, HasNameAt, IsKindAt};
ghost use Rattle.jn_table.specs.Own.{KindsAt, NamesAt, HasAt, IsFlagAt, IsOwnOf};
ghost use Rattle.jn_reach.specs.Each.{Each};

use crate::entry::Entry;
use crate::gather::{Part, add_names, names_of};
use crate::groups::{entry_keys, grouped, rows_at};
use crate::route::Route;
use jn_base::tree::{Kind, Name};
use std::alloc::{AllocError, Global};

/// What the declarations at each path are and have, path by path, and the numbers of their entries.
#[derive(Drop)]
pub struct Own {
    pub declared: Vec<Vec<usize>>,
    pub classes: Vec<bool>,
    pub packages: Vec<bool>,
    pub methods: Vec<Vec<Name>>,
    pub fields: Vec<Vec<Name>>,
}

/// Whether the two are one kind.
fn is_kind(a: Kind, b: Kind) -> bool
    ensures { IsTrue result ↔ (a ≡ b) }
{
    match (a, b) {
        (Kind::Class, Kind::Class) => true,
        (Kind::Package, Kind::Package) => true,
        (Kind::Class, Kind::Package) => false,
        (Kind::Package, Kind::Class) => false,
    }
}

/// Whether one of the entries of those numbers is of that kind.
fn has_kind(entries: &[Entry], row: &[usize], kind: Kind) -> bool
    requires { All (λ i. i < length entries.now) row.now }
    ensures { IsTrue result ↔ Any (IsKindAt entries.now kind) row.now }
{
    for number in row {
        if is_kind(entries[*number].kind, kind) {
            return true;
        }
    }
    false
}

/// For each row of numbers whether one of their entries is of that kind.
fn own_kinds(
    alloc: Global,
    entries: &[Entry],
    rows: &[Vec<usize>],
    kind: Kind,
) -> Result<Vec<bool>, AllocError>
    requires { All (λ row. All (λ i. i < length entries.now) row.items) rows.now }
    ensures { IfOk result (λ all. Each (KindsAt entries.now kind) rows.now all.items) }
{
    let mut all = Vec::new(alloc);
    for row in rows {
        all.push(has_kind(entries, row, kind))?;
    }
    Ok(all)
}

/// The names that the entries of those numbers have in that part.
pub fn names_at(
    alloc: Global,
    entries: &[Entry],
    row: &[usize],
    part: Part,
) -> Result<Vec<Name>, AllocError>
    requires { All (λ i. i < length entries.now) row.now }
    ensures { IfOk result (λ all. (D : AName) → Contains all.items D ↔ Any (HasNameAt entries.now part D) row.now) }
{
    let mut all = Vec::new(alloc);
    for number in row {
        add_names(&mut all, names_of(&entries[*number], part))?;
    }
    Ok(all)
}

/// For each row of numbers the names that their entries have in that part.
fn own_names(
    alloc: Global,
    entries: &[Entry],
    rows: &[Vec<usize>],
    part: Part,
) -> Result<Vec<Vec<Name>>, AllocError>
    requires { All (λ row. All (λ i. i < length entries.now) row.items) rows.now }
    ensures { IfOk result (λ all. Each (NamesAt entries.now part) rows.now all.items) }
{
    let mut all = Vec::new(alloc);
    for row in rows {
        let names = names_at(alloc, entries, row, part)?;
        all.push(names)?;
    }
    Ok(all)
}

/// For each path the numbers of the entries that are at it.
fn at_paths(
    alloc: Global,
    entries: &[Entry],
    paths: &[Route],
) -> Result<Vec<Vec<usize>>, AllocError>
    ensures { IfOk result (λ rows. AreAtPaths entries.now paths.now rows.items) }
{
    let keys = entry_keys(alloc, entries)?;
    let groups = grouped(alloc, &keys)?;
    let rows = rows_at(alloc, &groups, paths)?;
    Ok(rows)
}

/// What the declarations at each path are and have.
pub fn own_of(alloc: Global, entries: &[Entry], paths: &[Route]) -> Result<Own, AllocError>
    ensures { IfOk result (λ own. IsOwnOf entries.now paths.now own) }
{
    let declared = at_paths(alloc, entries, paths)?;
    let classes = own_kinds(alloc, entries, &declared, Kind::Class)?;
    let packages = own_kinds(alloc, entries, &declared, Kind::Package)?;
    let methods = own_names(alloc, entries, &declared, Part::Methods)?;
    let fields = own_names(alloc, entries, &declared, Part::Fields)?;
    Ok(Own {
        declared,
        classes,
        packages,
        methods,
        fields,
    })
}

/// Whether the flag of one of the numbers is set.
pub fn some_flag(flags: &[bool], numbers: &[usize]) -> bool
    requires { All (λ n. n < length flags.now) numbers.now }
    ensures { IsTrue result ↔ Any (IsFlagAt flags.now) numbers.now }
{
    for number in numbers {
        if flags[*number] {
            return true;
        }
    }
    false
}

/// The names of the rows of those numbers.
pub fn gathered(
    alloc: Global,
    rows: &[Vec<Name>],
    numbers: &[usize],
) -> Result<Vec<Name>, AllocError>
    requires { All (λ n. n < length rows.now) numbers.now }
    ensures { IfOk result (λ all. (D : AName) → Contains all.items D ↔ Any (HasAt rows.now D) numbers.now) }
{
    let mut all = Vec::new(alloc);
    for number in numbers {
        add_names(&mut all, &rows[*number])?;
    }
    Ok(all)
}

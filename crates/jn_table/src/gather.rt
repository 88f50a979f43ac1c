ghost use Rattle.std.specs.Prelude.{◌≡◌, ◌<◌, ◌↔◌, All, Any, Contains, IsTrue, IfOk, OnOk, length};
ghost use Rattle.jn_base.specs.declared.tree.Name.{Name as AName};
ghost use Rattle.jn_table.specs.Gather.{Gains, part_of, AreInside, PartAmong, PartIn};

use crate::entry::Entry;
use crate::groups::{grouped, namespace_keys, rows_at};
use crate::route::Route;
use jn_base::compare::is_name;
use jn_base::tree::Name;
use std::alloc::{AllocError, Global};

/// For each namespace the numbers of the entries that stand in it.
pub fn insides(
    alloc: Global,
    entries: &[Entry],
    paths: &[Route],
) -> Result<Vec<Vec<usize>>, AllocError>
    ensures { IfOk result (λ rows. AreInside entries.now paths.now rows.items) }
{
    let keys = namespace_keys(alloc, entries)?;
    let groups = grouped(alloc, &keys)?;
    let rows = rows_at(alloc, &groups, paths)?;
    Ok(rows)
}

/// The names of a declaration that are asked for.
#[derive(Clone, Copy)]
pub enum Part {
    Extends,
    Methods,
    Fields,
}

/// Those names of the declaration.
pub fn names_of(entry: &Entry, part: Part) -> &[Name]
    ensures { result.now ≡ part_of part entry.now }
{
    match part {
        Part::Extends => entry.extends.as_slice(),
        Part::Methods => entry.methods.as_slice(),
        Part::Fields => entry.fields.as_slice(),
    }
}

/// Adds the names.
pub fn add_names(all: &mut Vec<Name>, names: &[Name]) -> Result<(), AllocError>
    ensures { OnOk result (Gains (Contains names.now) all.old.items all.new.items) }
{
    for name in names {
        all.push(*name)?;
    }
    Ok(())
}

/// Adds the names that those of the entries that are declarations of `name` have.
fn add_part(
    all: &mut Vec<Name>,
    entries: &[Entry],
    row: &[usize],
    name: Name,
    part: Part,
) -> Result<(), AllocError>
    requires { All (λ i. i < length entries.now) row.now }
    ensures { OnOk result (Gains (PartAmong entries.now name part row.now) all.old.items all.new.items) }
{
    for number in row {
        let entry = &entries[*number];
        if is_name(entry.name, name) {
            add_names(all, names_of(entry, part))?;
        }
    }
    Ok(())
}

/// The names that declarations of `name` in one of the namespaces of those numbers have.
pub fn parts(
    alloc: Global,
    entries: &[Entry],
    inside: &[Vec<usize>],
    numbers: &[usize],
    name: Name,
    part: Part,
) -> Result<Vec<Name>, AllocError>
    requires inside { All (λ row. All (λ i. i < length entries.now) row.items) inside.now }
    requires numbers { All (λ n. n < length inside.now) numbers.now }
    ensures { IfOk result (λ all. (D : AName) →
        Contains all.items D ↔ Any (PartIn entries.now name part inside.now D) numbers.now) }
{
    let mut all = Vec::new(alloc);
    for at in numbers {
        add_part(&mut all, entries, &inside[*at], name, part)?;
    }
    Ok(all)
}

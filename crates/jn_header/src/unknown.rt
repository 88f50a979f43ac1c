//! The names that declarations extend and that are no members of the namespaces in which these stand.

ghost use Rattle.std.specs.Prelude.{◌≡◌, [], reverse, IfOk, IsTrue, ◌↔◌};
ghost use Rattle.jn_base.specs.Duplicates.{duplicates};
ghost use Rattle.jn_base.specs.TableRules.{unknown_at};
ghost use Rattle.jn_table.specs.Tables.{IsFilled};
ghost use Rattle.jn_header.specs.Unknown.{IsKnown, FirstWithout, UnknownIs, FirstUnknownIs};

use jn_base::path::Path;
use jn_base::refusal::{Refusal, Rule};
use jn_base::tree::{Name, Named, Program};
use jn_homes::decl_near;
use jn_table::Table;
use sqlite_items::Items;
use std::alloc::{AllocError, Global};

/// The first declared path in class order that extends a name which is no member of its namespace, as the refusal
/// at the first such name.
///
/// The table is filled, so that its paths are those of the universe, in class order.
pub fn first_unknown(
    alloc: Global,
    p: &Program,
    table: &Table,
) -> Result<Option<Refusal>, AllocError>
    requires once { duplicates p.now ≡ [] }
    requires filled { IsFilled p.now table.now }
    ensures { IfOk result (λ found. FirstUnknownIs p.now found) }
{
    for path in table.known() {
        match unknown_of(alloc, p, table, path)? {
            Some(named) => return Ok(Some(unknown_at(alloc, path, named)?)),
            None => {}
        }
    }
    Ok(None)
}

/// The refusal at the name, which shows the path of the declaration.
fn unknown_at(alloc: Global, path: &Path, named: Named) -> Result<Refusal, AllocError>
    ensures { IfOk result (λ r. r ≡ unknown_at (reverse path.now.names) named) }
{
    let names = Items::from_slice(alloc, path.names.as_slice())?;
    Ok(Refusal {
        rule: Rule::E06,
        at: named.at,
        class: Some(Path { names }),
        member: Some(named.name),
        limit: None,
    })
}

/// The first name that the declaration at the path extends and that is no member of its namespace.
fn unknown_of(
    alloc: Global,
    p: &Program,
    table: &Table,
    path: &Path,
) -> Result<Option<Named>, AllocError>
    requires once { duplicates p.now ≡ [] }
    requires filled { IsFilled p.now table.now }
    ensures { IfOk result (λ found. UnknownIs p.now (reverse path.now.names) found) }
{
    match decl_near(p, path, table.way(path)) {
        Some(decl) => {
            let space = path.up(alloc, 1)?;
            first_stranger(alloc, table, &space, decl.extends.as_slice())
        }
        None => Ok(None),
    }
}

/// The first name of the list of which the namespace at this path has no path in the table.
fn first_stranger(
    alloc: Global,
    table: &Table,
    space: &Path,
    list: &[Named],
) -> Result<Option<Named>, AllocError>
    ensures { IfOk result (λ found. FirstWithout (λ n. IsKnown table.now space.now.names n.name) list.now found) }
{
    for named in list {
        if !is_known(alloc, table, space, named.name)? {
            return Ok(Some(*named));
        }
    }
    Ok(None)
}

/// Whether the table has the path of the name in this namespace.
fn is_known(alloc: Global, table: &Table, space: &Path, name: Name) -> Result<bool, AllocError>
    ensures { IfOk result (λ told. IsTrue told ↔ IsKnown table.now space.now.names name) }
{
    let path = space.down(alloc, name)?;
    Ok(table.find(&path).is_some())
}

ghost use Rattle.std.specs.Prelude.{◌≡◌, ◌<◌, ◌≤◌, All, Any, IfOk, length, map};
ghost use Rattle.jn_reach.specs.Graph.{Lists};
ghost use Rattle.jn_table.specs.Universes.{FitUniverse, KindBy, UpBy, MembersUpTo, class_id, OrderedBy, NumbersOf, RowOf, RowsOf};
ghost use Rattle.jn_table.specs.Near.{IsNear, IsPathAt};
ghost use Rattle.jn_table.specs.Own.{HasAt};
ghost use Rattle.jn_table.specs.Ups.{up_path};

use crate::class::{ClassId, Row, RowMember};
use crate::near::{Near, near_of};
use crate::order::in_byte_order;
use crate::own::{Own, gathered, some_flag};
use crate::route::Route;
use crate::universe::Universe;
use jn_base::tree::{Kind, Name, Text};
use std::alloc::{AllocError, Global};

/// The kind of the declarations at the paths of those numbers.
fn kind_of(own: &Own, sups: &[usize]) -> Kind
    requires { All (λ n. n < length own.now.classes.items) sups.now }
    ensures { KindBy own.now sups.now result }
{
    if some_flag(&own.classes, sups) {
        return Kind::Class;
    }
    Kind::Package
}

/// The number of the path without its last name, which is in the row where there is one.
fn up_of(paths: &[Route], row: &[usize], path: &Route) -> Option<ClassId>
    requires few { length paths.now ≤ 4096 }
    requires within { All (λ k. k < length paths.now) row.now }
    requires row { Lists (IsPathAt paths.now (up_path path.now)) row.now }
    ensures { UpBy paths.now path.now result }
{
    for number in row {
        if path.is_under(&paths[*number]) {
            return Some(ClassId(*number as u16));
        }
    }
    None
}

/// The numbers as those of a table.
fn ids_of(alloc: Global, row: &[usize]) -> Result<Vec<ClassId>, AllocError>
    requires { All (λ n. n < 4096) row.now }
    ensures { IfOk result (λ ids. ids.items ≡ map class_id row.now) }
{
    let mut ids = Vec::new(alloc);
    for number in row {
        ids.push(ClassId(*number as u16))?;
    }
    Ok(ids)
}

/// The members of a path, whose numbers are in the row.
fn members_of(
    alloc: Global,
    paths: &[Route],
    row: &[usize],
    up: &Route,
) -> Result<Vec<RowMember>, AllocError>
    requires few { length paths.now ≤ 4096 }
    requires within { All (λ k. k < length paths.now) row.now }
    requires row { Lists (IsPathAt (map up_path paths.now) up.now) row.now }
    ensures { IfOk result (λ all. MembersUpTo paths.now up.now (length paths.now) all.items) }
{
    let mut all = Vec::new(alloc);
    for number in row {
        if let Some(name) = paths[*number].under(up) {
            let id = ClassId(*number as u16);
            all.push(RowMember { name, id })?;
        }
    }
    Ok(all)
}

/// The names that the lists of those numbers have, each once, in the order of their bytes.
fn names_at(
    alloc: Global,
    texts: &[Text],
    lists: &[Vec<Name>],
    numbers: &[usize],
) -> Result<Vec<Name>, AllocError>
    requires { All (λ n. n < length lists.now) numbers.now }
    ensures { IfOk result (λ names. OrderedBy texts.now (λ m. Any (HasAt lists.now m) numbers.now) names.items) }
{
    let names = gathered(alloc, lists, numbers)?;
    in_byte_order(alloc, texts, &names)
}

/// The numbers of a row.
#[derive(Drop)]
pub struct Numbers {
    direct: Vec<ClassId>,
    sups: Vec<ClassId>,
    members: Vec<RowMember>,
}

/// The numbers of the row of that number.
fn numbers_of(
    alloc: Global,
    universe: &Universe,
    near: &Near,
    number: usize,
) -> Result<Numbers, AllocError>
    requires fits { FitUniverse universe.now }
    requires near { IsNear universe.now.nodes.paths.items near.now }
    requires number { number < length universe.now.nodes.paths.items }
    ensures { IfOk result (λ numbers. NumbersOf universe.now number numbers) }
{
    let paths = &universe.nodes.paths;
    let direct = ids_of(alloc, &universe.nodes.direct[number])?;
    let sups = ids_of(alloc, &universe.sups[number])?;
    let members = members_of(alloc, paths, &near.members[number], &paths[number])?;
    Ok(Numbers {
        direct,
        sups,
        members,
    })
}

/// The row of the path of that number.
fn row_of(
    alloc: Global,
    texts: &[Text],
    universe: &Universe,
    near: &Near,
    number: usize,
) -> Result<Row, AllocError>
    requires fits { FitUniverse universe.now }
    requires near { IsNear universe.now.nodes.paths.items near.now }
    requires number { number < length universe.now.nodes.paths.items }
    ensures { IfOk result (λ row. RowOf texts.now universe.now number row) }
{
    let path = &universe.nodes.paths[number];
    let above = &universe.sups[number];
    let shown = path.shown(alloc)?;
    let methods = names_at(alloc, texts, &universe.own.methods, above)?;
    let fields = names_at(alloc, texts, &universe.own.fields, above)?;
    let numbers = numbers_of(alloc, universe, near, number)?;
    Ok(Row {
        path: shown,
        kind: kind_of(&universe.own, above),
        up: up_of(&universe.nodes.paths, &near.ups[number], path),
        direct: numbers.direct,
        sups: numbers.sups,
        members: numbers.members,
        methods,
        fields,
    })
}

/// The rows of all paths.
pub fn rows_of(alloc: Global, texts: &[Text], universe: &Universe) -> Result<Vec<Row>, AllocError>
    requires fits { FitUniverse universe.now }
    ensures { IfOk result (λ rows. RowsOf texts.now universe.now (length universe.now.nodes.paths.items) rows.items) }
{
    let near = near_of(alloc, &universe.nodes.paths)?;
    let mut rows = Vec::new(alloc);
    for number in 0..universe.nodes.paths.len() {
        let row = row_of(alloc, texts, universe, &near, number)?;
        rows.push(row)?;
    }
    Ok(rows)
}

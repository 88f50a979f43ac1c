ghost use Rattle.std.specs.Prelude.{◌≡◌, ◌≤◌, IfOk, IfErr, length, map};
ghost use Rattle.jn_reach.specs.Graph.{IsClosure};
ghost use Rattle.jn_base.specs.Paths.{shown};
ghost use Rattle.jn_table.specs.Depths.{IsOrdered};
ghost use Rattle.jn_table.specs.Fills.{FillsAll, NodesAll, UniverseAll, RefusesAll};
ghost use Rattle.jn_table.specs.Universes.{FitUniverse, RowsOf};
ghost use Rattle.jn_table.specs.Nodes.{FitNodes};
ghost use Rattle.jn_table.specs.Own.{AreDeclared, IsOwnOf};
ghost use Rattle.jn_table.specs.Places.{ArePlaces};

use crate::class::Row;
use crate::depths::{Found, depths};
use crate::entry::Entry;
use crate::fault::TableFault;
use crate::finding::{Located, places_of};
use crate::judge::judged;
use crate::nodes::Nodes;
use crate::route::Route;
use crate::row::rows_of;
use crate::universe::{Universe, universe_of};
use jn_base::path::Path;
use jn_base::tree::{Name, Text};
use std::alloc::{AllocError, Global};

/// The paths of a universe, in class order, with their rows and their places, and for each the numbers of the
/// entries that are at it.
#[derive(Drop)]
pub struct Rows {
    pub known: Vec<Path>,
    pub rows: Vec<Row>,
    pub places: Vec<Located>,
    pub declared: Vec<Vec<usize>>,
}

/// The paths with the outermost name first.
fn known_of(alloc: Global, paths: &[Route]) -> Result<Vec<Path>, AllocError>
    ensures { IfOk result (λ known. known.items ≡ map shown paths.now) }
{
    let mut known = Vec::new(alloc);
    for path in paths {
        let one = path.shown(alloc)?;
        known.push(one)?;
    }
    Ok(known)
}

/// The paths of a universe, where they are not too many.
fn nodes_of(alloc: Global, entries: &[Entry], order: &[Name]) -> Result<Nodes, TableFault>
    requires { IsOrdered entries.now order.now }
    ensures fits { IfOk result (λ nodes. FitNodes nodes) }
    ensures ok { IfOk result (λ nodes. NodesAll entries.now order.now nodes) }
    ensures err { IfErr result (λ fault. RefusesAll entries.now order.now fault) }
{
    let found = depths(alloc, entries, order)?;
    match found {
        Found::Whole(nodes) => Ok(nodes),
        Found::Over(over) => {
            let path = over.shown(alloc)?;
            Err(TableFault::TooMany(path))
        }
    }
}

/// The universe of the entries, where its paths are not too many.
fn universe_in(alloc: Global, entries: &[Entry], order: &[Name]) -> Result<Universe, TableFault>
    requires { IsOrdered entries.now order.now }
    ensures fits { IfOk result (λ universe. FitUniverse universe) }
    ensures closed { IfOk result (λ universe. IsClosure universe.nodes.direct.items universe.sups.items) }
    ensures ok { IfOk result (λ universe. UniverseAll entries.now order.now universe) }
    ensures own { IfOk result (λ universe. IsOwnOf entries.now universe.nodes.paths.items universe.own) }
    ensures err { IfErr result (λ fault. RefusesAll entries.now order.now fault) }
{
    let nodes = nodes_of(alloc, entries, order)?;
    let universe = universe_of(alloc, entries, nodes)?;
    Ok(universe)
}

/// The paths of a universe with their rows.
fn rows_in(alloc: Global, texts: &[Text], universe: Universe) -> Result<Rows, AllocError>
    requires { FitUniverse universe }
    ensures known { IfOk result (λ all. all.known.items ≡ map shown universe.nodes.paths.items) }
    ensures rows { IfOk result (λ all. RowsOf texts.now universe (length universe.nodes.paths.items) all.rows.items) }
    ensures places { IfOk result (λ all. ArePlaces all.known.items all.places.items) }
    ensures declared { IfOk result (λ all. all.declared ≡ universe.own.declared) }
{
    let known = known_of(alloc, &universe.nodes.paths)?;
    let places = places_of(alloc, &known)?;
    let rows = rows_of(alloc, texts, &universe)?;
    let own = universe.own;
    Ok(Rows {
        known,
        rows,
        places,
        declared: own.declared,
    })
}

/// All paths of a universe with their rows, or why the universe is refused.
pub fn fill_all(
    alloc: Global,
    texts: &[Text],
    entries: &[Entry],
    order: &[Name],
) -> Result<Rows, TableFault>
    requires { IsOrdered entries.now order.now }
    ensures few { IfOk result (λ all. length all.known.items ≤ 4096) }
    ensures paired { IfOk result (λ all. length all.rows.items ≡ length all.known.items) }
    ensures places { IfOk result (λ all. ArePlaces all.known.items all.places.items) }
    ensures declared { IfOk result (λ all. AreDeclared entries.now all.known.items all.declared.items) }
    ensures ok { IfOk result (λ all. FillsAll texts.now entries.now order.now all.known.items all.rows.items) }
    ensures err { IfErr result (λ fault. RefusesAll entries.now order.now fault) }
{
    let universe = universe_in(alloc, entries, order)?;
    judged(alloc, &universe)?;
    let rows = rows_in(alloc, texts, universe)?;
    Ok(rows)
}

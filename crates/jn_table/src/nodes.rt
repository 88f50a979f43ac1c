ghost use Rattle.std.specs.Prelude.{◌≡◌, ◌≤◌, ◌+◌, ◌++◌, All, length, map, IfOk, OnOk};
ghost use Rattle.jn_table.specs.Level.{IsShaped};
ghost use Rattle.jn_table.specs.Nodes.{AddsShifted, AddsLevel};

use crate::level::Level;
use crate::route::Route;
use std::alloc::{AllocError, Global};

/// The paths of some depths, in class order, and for each the numbers of its direct supers.
#[derive(Drop)]
pub struct Nodes {
    pub paths: Vec<Route>,
    pub direct: Vec<Vec<usize>>,
}

/// Adds the same paths.
fn add_paths(alloc: Global, all: &mut Vec<Route>, paths: &[Route]) -> Result<(), AllocError>
    ensures { OnOk result (all.new.items ≡ all.old.items ++ paths.now) }
{
    for path in paths {
        let same = path.copy(alloc)?;
        all.push(same)?;
    }
    Ok(())
}

/// The numbers, each greater by `off`.
fn shifted(alloc: Global, row: &[usize], off: usize) -> Result<Vec<usize>, AllocError>
    requires off { off ≤ 4096 }
    requires row { All (λ j. j ≤ 4096) row.now }
    ensures { IfOk result (λ moved. moved.items ≡ map (λ j. j + off) row.now) }
{
    let mut moved = Vec::new(alloc);
    for number in row {
        moved.push(*number + off)?;
    }
    Ok(moved)
}

/// Adds the rows, each number greater by `off`.
fn add_rows(
    alloc: Global,
    all: &mut Vec<Vec<usize>>,
    rows: &[Vec<usize>],
    off: usize,
) -> Result<(), AllocError>
    requires off { off ≤ 4096 }
    requires rows { All (λ row. All (λ j. j ≤ 4096) row.items) rows.now }
    ensures { OnOk result (AddsShifted off rows.now all.old.items all.new.items) }
{
    for row in rows {
        let moved = shifted(alloc, row, off)?;
        all.push(moved)?;
    }
    Ok(())
}

/// Adds the paths of the next depth.
pub fn add_level(alloc: Global, nodes: &mut Nodes, level: &Level) -> Result<(), AllocError>
    requires shaped { IsShaped level.now }
    requires few { length nodes.old.paths.items + length level.now.paths.items ≤ 4096 }
    ensures { OnOk result (AddsLevel level.now nodes.old nodes.new) }
{
    let off = nodes.paths.len();
    add_paths(alloc, &mut nodes.paths, &level.paths)?;
    add_rows(alloc, &mut nodes.direct, &level.direct, off)?;
    Ok(())
}

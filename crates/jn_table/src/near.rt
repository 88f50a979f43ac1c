//! The paths near each path of a universe: the one without its last name, and its members. They are found by halves.

ghost use Rattle.std.specs.Prelude.{◌≡◌, IfOk, map};
ghost use Rattle.jn_table.specs.Near.{ArePathsAt, IsNear};
ghost use Rattle.jn_table.specs.Ups.{up_path};

use crate::groups::{grouped, path_keys, rows_at};
use crate::route::Route;
use std::alloc::{AllocError, Global};

/// For each path the numbers of the path without its last name, and of those whose path without the last name it is.
#[derive(Drop)]
pub struct Near {
    pub ups: Vec<Vec<usize>>,
    pub members: Vec<Vec<usize>>,
}

/// The paths without their last names.
fn ups_of(alloc: Global, paths: &[Route]) -> Result<Vec<Route>, AllocError>
    ensures { IfOk result (λ ups. ups.items ≡ map up_path paths.now) }
{
    let mut ups = Vec::new(alloc);
    for path in paths {
        let up = path.up(alloc)?;
        ups.push(up)?;
    }
    Ok(ups)
}

/// For each of the paths its numbers among the others, in order.
fn among(alloc: Global, others: &[Route], paths: &[Route]) -> Result<Vec<Vec<usize>>, AllocError>
    ensures { IfOk result (λ rows. ArePathsAt others.now paths.now rows.items) }
{
    let keys = path_keys(alloc, others)?;
    let groups = grouped(alloc, &keys)?;
    let rows = rows_at(alloc, &groups, paths)?;
    Ok(rows)
}

/// What is near each path.
pub fn near_of(alloc: Global, paths: &[Route]) -> Result<Near, AllocError>
    ensures { IfOk result (λ near. IsNear paths.now near) }
{
    let above = ups_of(alloc, paths)?;
    let ups = among(alloc, paths, &above)?;
    let members = among(alloc, &above, paths)?;
    Ok(Near { ups, members })
}

ghost use Rattle.std.specs.Prelude.{◌≡◌, ◌<◌, ◌≤◌, length, IfOk};
ghost use Rattle.jn_table.specs.Depths.{Answers, Fits, IsBelow, IsOrdered};
ghost use Rattle.jn_table.specs.Level.{IsShaped};

use crate::children::children;
use crate::entry::Entry;
use crate::gather::insides;
use crate::level::{Level, next, root};
use crate::nodes::{Nodes, add_level};
use crate::route::Route;
use jn_base::tree::Name;
use std::alloc::{AllocError, Global};

/// The greatest number of paths, with one more that is too many.
const ROOM: usize = 4_097;

/// The paths of a universe, or the first path, in class order, that is one too many.
#[derive(Drop)]
pub enum Found {
    Whole(Nodes),
    Over(Route),
}

/// What is below a depth: no path, the first path for which there is no room, or the next depth.
#[derive(Drop)]
pub enum Below {
    Nothing,
    Over(Route),
    Next(Level),
}

/// What is below a depth, where there is room for fewer than so many paths.
fn depth_below(
    alloc: Global,
    entries: &[Entry],
    order: &[Name],
    level: &Level,
    room: usize,
) -> Result<Below, AllocError>
    requires ordered { IsOrdered entries.now order.now }
    requires few { length level.now.paths.items ≤ 4096 }
    requires shaped { IsShaped level.now }
    requires some { 0 < room }
    ensures { IfOk result (λ below. IsBelow entries.now order.now level.now room below) }
{
    let inside = insides(alloc, entries, &level.paths)?;
    let members = children(alloc, entries, order, level, &inside, room)?;
    if members.is_empty() {
        return Ok(Below::Nothing);
    }
    if members.len() >= room {
        let last = &members[room - 1];
        let over = level.paths[last.up].down(alloc, last.name)?;
        return Ok(Below::Over(over));
    }
    let below = next(alloc, entries, level, &inside, &members)?;
    Ok(Below::Next(below))
}

/// The paths of a universe, depth by depth: each depth has the members of the one above it, up to the last
/// that has any.
pub fn depths(alloc: Global, entries: &[Entry], order: &[Name]) -> Result<Found, AllocError>
    requires { IsOrdered entries.now order.now }
    ensures exact { IfOk result (λ found. Answers entries.now order.now found) }
    ensures fits { IfOk result (λ found. Fits found) }
{
    let mut nodes = Nodes {
        paths: Vec::new(alloc),
        direct: Vec::new(alloc),
    };
    let mut level = root(alloc)?;
    let mut room = ROOM;
    loop {
        match depth_below(alloc, entries, order, &level, room)? {
            Below::Nothing => return Ok(Found::Whole(nodes)),
            Below::Over(over) => return Ok(Found::Over(over)),
            Below::Next(below) => {
                add_level(alloc, &mut nodes, &below)?;
                room -= below.paths.len();
                level = below;
            }
        }
    }
}

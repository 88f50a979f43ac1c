ghost use Rattle.std.specs.Prelude.{◌<◌, ◌≤◌, All, IfOk, OnOk, length, vec_len};
ghost use Rattle.jn_table.specs.Children.{AddsPicked, ChildrenFront};
ghost use Rattle.jn_table.specs.Depths.{IsOrdered};
ghost use Rattle.jn_table.specs.Gather.{AreInside};
ghost use Rattle.jn_table.specs.Level.{IsShaped};

use crate::entry::Entry;
use crate::level::{Child, Level};
use crate::named::{declared_places, name_places};
use jn_base::tree::Name;
use std::alloc::{AllocError, Global};

/// Adds the members of a path by the places of their names in the order, where there is room.
fn add_picked(
    all: &mut Vec<Child>,
    order: &[Name],
    picked: &[usize],
    up: usize,
    room: usize,
) -> Result<(), AllocError>
    requires room { vec_len all.old ≤ room }
    requires picked { All (λ k. k < length order.now) picked.now }
    ensures { OnOk result (AddsPicked order.now picked.now up room all.old.items all.new.items) }
{
    for place in picked {
        if all.len() < room {
            let name = order[*place];
            all.push(Child { up, name })?;
        }
    }
    Ok(())
}

/// The members of the paths of a depth, path by path and in the order of the names, as far as there is room.
pub fn children(
    alloc: Global,
    entries: &[Entry],
    order: &[Name],
    level: &Level,
    inside: &[Vec<usize>],
    room: usize,
) -> Result<Vec<Child>, AllocError>
    requires ordered { IsOrdered entries.now order.now }
    requires shaped { IsShaped level.now }
    requires inside { AreInside entries.now level.now.paths.items inside.now }
    ensures { IfOk result (λ all.
        ChildrenFront entries.now order.now level.now (length level.now.paths.items) room all.items) }
{
    let places = name_places(alloc, order, entries)?;
    let mut all = Vec::new(alloc);
    for up in 0..level.paths.len() {
        let picked = declared_places(alloc, &places, inside, &level.sups[up])?;
        add_picked(&mut all, order, &picked, up, room)?;
    }
    Ok(all)
}

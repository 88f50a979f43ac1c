ghost use Rattle.std.specs.Prelude.{OnOk, IfErr, length};
ghost use Rattle.jn_reach.specs.Graph.{IsClosure};
ghost use Rattle.jn_table.specs.Universes.{FitUniverse, PassedBy, RefusedBy};

use crate::fault::TableFault;
use crate::universe::{Universe, first_mixed};
use jn_reach::first_on_cycle;
use std::alloc::Global;

/// Whether no path of the universe is its own strict super, and none has supers of both kinds; else the first
/// that does.
pub fn judged(alloc: Global, universe: &Universe) -> Result<(), TableFault>
    requires fits { FitUniverse universe.now }
    requires closure { IsClosure universe.now.nodes.direct.items universe.now.sups.items }
    ensures ok { OnOk result (PassedBy universe.now) }
    ensures err { IfErr result (λ fault. RefusedBy universe.now fault) }
{
    let nodes = &universe.nodes;
    if let Some(number) = first_on_cycle(&nodes.direct, &universe.sups) {
        let path = nodes.paths[number].shown(alloc)?;
        return Err(TableFault::Cycle(path));
    }
    if let Some(number) = first_mixed(universe) {
        let path = nodes.paths[number].shown(alloc)?;
        return Err(TableFault::Kind(path));
    }
    Ok(())
}

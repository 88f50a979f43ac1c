ghost use Rattle.std.specs.Prelude.{◌≡◌, ◌<◌, ◌↔◌, ℕ, All, IsTrue, IfOk, IfSome, IfNone, length};
ghost use Rattle.jn_reach.specs.Graph.{IsClosure};
ghost use Rattle.jn_table.specs.Nodes.{FitNodes};
ghost use Rattle.jn_table.specs.Own.{IsOwnOf, IsMixedBy, MixedAt};
ghost use Rattle.jn_table.specs.Universes.{FitUniverse};

use crate::entry::Entry;
use crate::nodes::Nodes;
use crate::own::{Own, own_of, some_flag};
use jn_closure::closure;
use std::alloc::{AllocError, Global};

/// The paths of a universe, with the supers of each and what the declarations at each are and have.
#[derive(Drop)]
pub struct Universe {
    pub nodes: Nodes,
    pub sups: Vec<Vec<usize>>,
    pub own: Own,
}

/// The universe of those nodes.
pub fn universe_of(alloc: Global, entries: &[Entry], nodes: Nodes) -> Result<Universe, AllocError>
    requires { FitNodes nodes }
    ensures fits { IfOk result (λ universe. FitUniverse universe) }
    ensures nodes { IfOk result (λ universe. universe.nodes ≡ nodes) }
    ensures sups { IfOk result (λ universe. IsClosure nodes.direct.items universe.sups.items) }
    ensures own { IfOk result (λ universe. IsOwnOf entries.now nodes.paths.items universe.own) }
{
    let sups = closure(alloc, &nodes.direct)?;
    let own = own_of(alloc, entries, &nodes.paths)?;
    Ok(Universe { nodes, sups, own })
}

/// Whether the declarations at the paths of those numbers have both kinds.
fn is_mixed(own: &Own, sups: &[usize]) -> bool
    requires classes { All (λ n. n < length own.now.classes.items) sups.now }
    requires packages { All (λ n. n < length own.now.packages.items) sups.now }
    ensures { IsTrue result ↔ IsMixedBy own.now sups.now }
{
    some_flag(&own.classes, sups) && some_flag(&own.packages, sups)
}

/// The first number whose supers have both kinds.
pub fn first_mixed(universe: &Universe) -> Option<usize>
    requires { FitUniverse universe.now }
    ensures within { IfSome result (λ number. number < length universe.now.nodes.paths.items) }
    ensures some { IfSome result (λ number. MixedAt universe.now.own universe.now.sups.items number) }
    ensures first { IfSome result (λ number. (k : ℕ) → k < number →
        MixedAt universe.now.own universe.now.sups.items k → ⊥) }
    ensures none { IfNone result ((k : ℕ) → MixedAt universe.now.own universe.now.sups.items k → ⊥) }
{
    for (number, row) in universe.sups.iter().enumerate() {
        if is_mixed(&universe.own, row) {
            return Some(number);
        }
    }
    None
}

ghost use Rattle.std.specs.Prelude.{◌<◌, All, length, IfOk};
ghost use Rattle.jn_reach.specs.Chain.{Chain};
ghost use Rattle.jn_reach.specs.Graph.{HasEdge, InRange, IsClosure, Lists, Reached};
ghost use Rattle.jn_reach.specs.Origins.{IsFound};

use crate::search::origins;
use std::alloc::{AllocError, Global};

/// The nodes that have an origin.
fn found(alloc: Global, origins: &[Option<usize>]) -> Result<Vec<usize>, AllocError>
    ensures exact { IfOk result (λ nodes. Lists (IsFound origins.now) nodes.items) }
{
    let mut nodes = Vec::new(alloc);
    for (node, origin) in origins.iter().enumerate() {
        if origin.is_some() {
            nodes.push(node)?;
        }
    }
    Ok(nodes)
}

/// The nodes to which chains of edges lead from the starts, in ascending order.
pub fn reached(
    alloc: Global,
    edges: &[Vec<usize>],
    starts: &[usize],
) -> Result<Vec<usize>, AllocError>
    requires edges { InRange edges.now (length edges.now) }
    requires starts { All (λ s. s < length edges.now) starts.now }
    ensures exact { IfOk result (λ nodes. Lists (Reached edges.now starts.now) nodes.items) }
    ensures within { IfOk result (λ nodes. All (λ b. b < length edges.now) nodes.items) }
{
    let origins = origins(alloc, edges, starts)?;
    let nodes = found(alloc, &origins)?;
    Ok(nodes)
}

/// The nodes to which chains of edges lead from one node, in ascending order.
pub fn reached_from(
    alloc: Global,
    edges: &[Vec<usize>],
    start: usize,
) -> Result<Vec<usize>, AllocError>
    requires edges { InRange edges.now (length edges.now) }
    requires start { start < length edges.now }
    ensures exact { IfOk result (λ nodes. Lists (Chain (HasEdge edges.now) start) nodes.items) }
    ensures within { IfOk result (λ nodes. All (λ b. b < length edges.now) nodes.items) }
{
    let nodes = reached(alloc, edges, &[start])?;
    Ok(nodes)
}

/// For each node the nodes to which chains of edges lead from it, in ascending order.
pub fn closure(alloc: Global, edges: &[Vec<usize>]) -> Result<Vec<Vec<usize>>, AllocError>
    requires { InRange edges.now (length edges.now) }
    ensures exact { IfOk result (λ rows. IsClosure edges.now rows.items) }
    ensures within { IfOk result (λ rows. InRange rows.items (length edges.now)) }
{
    let mut rows = Vec::new(alloc);
    for start in 0..edges.len() {
        let row = reached_from(alloc, edges, start)?;
        rows.push(row)?;
    }
    Ok(rows)
}

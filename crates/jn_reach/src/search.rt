ghost use Rattle.std.specs.Prelude.{◌≡◌, ◌<◌, [], ◌∷◌, All, length, IfOk, OnOk, vec_len};
ghost use Rattle.jn_reach.specs.Graph.{InRange};
ghost use Rattle.jn_reach.specs.Origins.{AreOrigins};
ghost use Rattle.jn_reach.specs.Visited.{Visited, VisitedFrom, IsClosedUnder, Spread};

use std::alloc::{AllocError, Global};

/// Gives a node without an origin the start, and lets it wait.
fn visit_node(
    origins: &mut Vec<Option<usize>>,
    waiting: &mut Vec<usize>,
    start: usize,
    node: usize,
) -> Result<(), AllocError>
    requires { node < vec_len origins.old }
    ensures visited { OnOk result
        (Visited start (node ∷ []) origins.old.items waiting.old.items origins.new.items waiting.new.items) }
{
    if origins[node].is_none() {
        waiting.push(node)?;
        origins[node] = Some(start);
    }
    Ok(())
}

/// Visits each of the nodes.
fn visit_all(
    origins: &mut Vec<Option<usize>>,
    waiting: &mut Vec<usize>,
    start: usize,
    nodes: &[usize],
) -> Result<(), AllocError>
    requires { All (λ w. w < vec_len origins.old) nodes.now }
    ensures visited { OnOk result
        (Visited start nodes.now origins.old.items waiting.old.items origins.new.items waiting.new.items) }
{
    for node in nodes {
        visit_node(origins, waiting, start, *node)?;
    }
    Ok(())
}

/// Visits the nodes that an edge leads to from a node.
fn visit_from(
    origins: &mut Vec<Option<usize>>,
    waiting: &mut Vec<usize>,
    edges: &[Vec<usize>],
    start: usize,
    node: usize,
) -> Result<(), AllocError>
    requires edges { InRange edges.now (vec_len origins.old) }
    requires node { node < length edges.now }
    ensures visited { OnOk result
        (VisitedFrom edges.now start node origins.old.items waiting.old.items origins.new.items waiting.new.items) }
{
    visit_all(origins, waiting, start, &edges[node])?;
    Ok(())
}

/// Gives the start to each node that is reached from it and has no origin.
/// Each of these waits once, and then its edges are followed; no other node is visited.
fn spread(
    alloc: Global,
    origins: &mut Vec<Option<usize>>,
    edges: &[Vec<usize>],
    start: usize,
) -> Result<(), AllocError>
    requires len { vec_len origins.old ≡ length edges.now }
    requires edges { InRange edges.now (length edges.now) }
    requires start { start < length edges.now }
    requires closed { IsClosedUnder edges.now origins.old.items }
    ensures spread { OnOk result (Spread edges.now start origins.old.items origins.new.items) }
{
    let mut waiting = Vec::new(alloc);
    visit_node(origins, &mut waiting, start, start)?;
    while let Some(node) = waiting.pop() {
        visit_from(origins, &mut waiting, edges, start, node)?;
    }
    Ok(())
}

/// For each node the first of the starts from which a chain of edges leads to it; `None` where there is none.
/// Each node is visited once, whatever the number of starts.
pub fn origins(
    alloc: Global,
    edges: &[Vec<usize>],
    starts: &[usize],
) -> Result<Vec<Option<usize>>, AllocError>
    requires edges { InRange edges.now (length edges.now) }
    requires starts { All (λ s. s < length edges.now) starts.now }
    ensures exact { IfOk result (λ origins. AreOrigins edges.now starts.now origins.items) }
{
    let mut origins = vec![in alloc; None; edges.len()]?;
    for start in starts {
        spread(alloc, &mut origins, edges, *start)?;
    }
    Ok(origins)
}

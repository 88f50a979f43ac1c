//! A search from each node.

ghost use Rattle.std.specs.Prelude.{◌≡◌, ◌<◌, length, IfOk, OnOk, vec_len};
ghost use Rattle.jn_reach.specs.Chain.{Chain};
ghost use Rattle.jn_reach.specs.Graph.{HasEdge, InRange, IsClosure, Lists};
ghost use Rattle.jn_closure.specs.Marks.{AreMarks, AreClear, Holds};

use crate::marks::{clear, visit, visit_from};
use std::alloc::{AllocError, Global};

/// Marks the nodes to which chains of edges lead from the start, and gives them as they are found.
/// The nodes from `next` on wait for their edges to be followed.
fn search(
    alloc: Global,
    marks: &mut Vec<bool>,
    edges: &[Vec<usize>],
    start: usize,
) -> Result<Vec<usize>, AllocError>
    requires len { vec_len marks.old ≡ length edges.now }
    requires edges { InRange edges.now (length edges.now) }
    requires start { start < length edges.now }
    requires clear { AreClear marks.old.items }
    ensures len { vec_len marks.new ≡ vec_len marks.old }
    ensures marks { IfOk result (λ nodes. AreMarks nodes.items marks.new.items) }
    ensures exact { IfOk result (λ nodes. Holds (Chain (HasEdge edges.now) start) nodes.items) }
{
    let mut nodes = Vec::new(alloc);
    visit(marks, &mut nodes, start)?;
    let mut next = 0;
    while next < nodes.len() {
        let node = nodes[next];
        visit_from(marks, &mut nodes, edges, node)?;
        next += 1;
    }
    Ok(nodes)
}

/// The nodes to which chains of edges lead from the start, in ascending order. No node keeps a mark.
fn row_from(
    alloc: Global,
    marks: &mut Vec<bool>,
    edges: &[Vec<usize>],
    start: usize,
) -> Result<Vec<usize>, AllocError>
    requires len { vec_len marks.old ≡ length edges.now }
    requires edges { InRange edges.now (length edges.now) }
    requires start { start < length edges.now }
    requires clear { AreClear marks.old.items }
    ensures len { vec_len marks.new ≡ vec_len marks.old }
    ensures clear { OnOk result (AreClear marks.new.items) }
    ensures exact { IfOk result (λ nodes. Lists (Chain (HasEdge edges.now) start) nodes.items) }
{
    let mut nodes = search(alloc, marks, edges, start)?;
    clear(marks, &nodes);
    nodes.sort()?;
    Ok(nodes)
}

/// For each node the nodes to which chains of edges lead from it, in ascending order.
pub fn closure(alloc: Global, edges: &[Vec<usize>]) -> Result<Vec<Vec<usize>>, AllocError>
    requires { InRange edges.now (length edges.now) }
    ensures exact { IfOk result (λ rows. IsClosure edges.now rows.items) }
    ensures within { IfOk result (λ rows. InRange rows.items (length edges.now)) }
{
    let mut marks = vec![in alloc; false; edges.len()]?;
    let mut rows = Vec::new(alloc);
    for start in 0..edges.len() {
        let row = row_from(alloc, &mut marks, edges, start)?;
        rows.push(row)?;
    }
    Ok(rows)
}

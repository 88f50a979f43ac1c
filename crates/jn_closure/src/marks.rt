//! Marks of nodes, which are those of a list of nodes.

ghost use Rattle.std.specs.Prelude.{◌≡◌, ◌<◌, [], ◌∷◌, All, length, OnOk, vec_len};
ghost use Rattle.jn_reach.specs.Graph.{InRange};
ghost use Rattle.jn_closure.specs.Marks.{AreMarks, AreClear, Adds, AddsFrom};

use std::alloc::AllocError;

/// Marks a node that has no mark, and adds it to the nodes.
pub fn visit(marks: &mut Vec<bool>, nodes: &mut Vec<usize>, node: usize) -> Result<(), AllocError>
    requires within { node < vec_len marks.old }
    requires marks { AreMarks nodes.old.items marks.old.items }
    ensures len { vec_len marks.new ≡ vec_len marks.old }
    ensures marks { OnOk result (AreMarks nodes.new.items marks.new.items) }
    ensures added { OnOk result (Adds (node ∷ []) nodes.old.items nodes.new.items) }
{
    if !marks[node] {
        nodes.push(node)?;
        marks[node] = true;
    }
    Ok(())
}

/// Marks each of these that has no mark, and adds it to the nodes.
fn visit_all(
    marks: &mut Vec<bool>,
    nodes: &mut Vec<usize>,
    targets: &[usize],
) -> Result<(), AllocError>
    requires within { All (λ w. w < vec_len marks.old) targets.now }
    requires marks { AreMarks nodes.old.items marks.old.items }
    ensures len { vec_len marks.new ≡ vec_len marks.old }
    ensures marks { OnOk result (AreMarks nodes.new.items marks.new.items) }
    ensures added { OnOk result (Adds targets.now nodes.old.items nodes.new.items) }
{
    for target in targets {
        visit(marks, nodes, *target)?;
    }
    Ok(())
}

/// Marks each node that an edge from this one leads to and that has no mark, and adds it to the nodes.
pub fn visit_from(
    marks: &mut Vec<bool>,
    nodes: &mut Vec<usize>,
    edges: &[Vec<usize>],
    node: usize,
) -> Result<(), AllocError>
    requires edges { InRange edges.now (vec_len marks.old) }
    requires node { node < length edges.now }
    requires marks { AreMarks nodes.old.items marks.old.items }
    ensures len { vec_len marks.new ≡ vec_len marks.old }
    ensures marks { OnOk result (AreMarks nodes.new.items marks.new.items) }
    ensures added { OnOk result (AddsFrom edges.now node nodes.old.items nodes.new.items) }
{
    visit_all(marks, nodes, &edges[node])?;
    Ok(())
}

/// Takes the marks off the nodes.
pub fn clear(marks: &mut Vec<bool>, nodes: &[usize])
    requires { AreMarks nodes.now marks.old.items }
    ensures len { vec_len marks.new ≡ vec_len marks.old }
    ensures clear { AreClear marks.new.items }
{
    for node in nodes {
        marks[*node] = false;
    }
}

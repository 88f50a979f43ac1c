ghost use Rattle.std.specs.Prelude.{◌↔◌, ◌<◌, ℕ, All, Any, Contains, IsTrue, IfSome, IfNone, length};
ghost use Rattle.jn_reach.specs.Chain.{Steps};
ghost use Rattle.jn_reach.specs.Graph.{HasEdge, InRange, IsClosure};

/// Whether the number is in the list.
fn has_number(numbers: &[usize], number: usize) -> bool
    ensures { IsTrue result ↔ Contains numbers.now number }
{
    numbers.contains(&number)
}

/// Whether an edge leads from one node to the other.
pub fn has_edge(edges: &[Vec<usize>], from: usize, to: usize) -> bool
    requires { from < length edges.now }
    ensures { IsTrue result ↔ HasEdge edges.now from to }
{
    has_number(&edges[from], to)
}

/// Whether an edge leads from one of these nodes to the other.
fn leads_to(edges: &[Vec<usize>], nodes: &[usize], to: usize) -> bool
    requires { All (λ q. q < length edges.now) nodes.now }
    ensures { IsTrue result ↔ Any (λ q. HasEdge edges.now q to) nodes.now }
{
    for node in nodes {
        if has_edge(edges, *node, to) {
            return true;
        }
    }
    false
}

/// The first node from which a chain of one edge or more leads back to it. `rows` is what `closure` gives of the edges.
pub fn first_on_cycle(edges: &[Vec<usize>], rows: &[Vec<usize>]) -> Option<usize>
    requires edges { InRange edges.now (length edges.now) }
    requires closure { IsClosure edges.now rows.now }
    ensures some { IfSome result (λ node. Steps (HasEdge edges.now) node node) }
    ensures first { IfSome result (λ node. (k : ℕ) → k < node → Steps (HasEdge edges.now) k k → ⊥) }
    ensures none { IfNone result ((k : ℕ) → Steps (HasEdge edges.now) k k → ⊥) }
{
    for node in 0..edges.len() {
        if leads_to(rows, &edges[node], node) {
            return Some(node);
        }
    }
    None
}

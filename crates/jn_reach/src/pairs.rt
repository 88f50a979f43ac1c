ghost use Rattle.std.specs.Prelude.{◌≡◌, ◌<◌, ◌↔◌, ℕ, All, Contains, length, slice_index, slice_get, Some, IfOk, OnOk, IsTrue, vec_len};
ghost use Rattle.jn_reach.specs.Derived.{Derived};
ghost use Rattle.jn_reach.specs.Equivalent.{Either, Equivalent};
ghost use Rattle.jn_reach.specs.Graph.{InRange, Lists};
ghost use Rattle.jn_reach.specs.Pairs.{IsPair, AreBelow, IsGraphOf, AddsEdge, AreFirsts, AreMembers};

use crate::lists::reached;
use crate::search::origins;
use std::alloc::{AllocError, Global};

/// Whether both nodes of each pair are below `count`.
pub fn are_below(count: usize, pairs: &[(usize, usize)]) -> bool
    ensures { IsTrue result ↔ AreBelow count pairs.now }
{
    pairs.iter().all(|pair| pair.0 < count && pair.1 < count)
}

/// The graph with this many nodes that has no edge.
fn no_edges(alloc: Global, count: usize) -> Result<Vec<Vec<usize>>, AllocError>
    ensures exact { IfOk result (λ rows. IsGraphOf count (λ _ _. ⊥) rows.items) }
{
    let mut rows = Vec::new(alloc);
    for _ in 0..count {
        rows.push(Vec::new(alloc))?;
    }
    Ok(rows)
}

/// Adds an edge.
fn add_edge(rows: &mut Vec<Vec<usize>>, from: usize, to: usize) -> Result<(), AllocError>
    requires { from < vec_len rows.old }
    ensures added { OnOk result (AddsEdge rows.old.items rows.new.items from to) }
{
    rows[from].push(to)?;
    Ok(())
}

/// The graph of the pairs: for each node below `count` the nodes that are paired with it as second.
pub fn edges_of(
    alloc: Global,
    count: usize,
    pairs: &[(usize, usize)],
) -> Result<Vec<Vec<usize>>, AllocError>
    requires { AreBelow count pairs.now }
    ensures exact { IfOk result (λ rows. IsGraphOf count (IsPair pairs.now) rows.items) }
    ensures within { IfOk result (λ rows. InRange rows.items (length rows.items)) }
{
    let mut rows = no_edges(alloc, count)?;
    for pair in pairs {
        add_edge(&mut rows, pair.0, pair.1)?;
    }
    Ok(rows)
}

/// The graph of the pairs in both directions.
fn edges_both_ways(
    alloc: Global,
    count: usize,
    pairs: &[(usize, usize)],
) -> Result<Vec<Vec<usize>>, AllocError>
    requires { AreBelow count pairs.now }
    ensures exact { IfOk result (λ rows. IsGraphOf count (Either (IsPair pairs.now)) rows.items) }
{
    let mut rows = no_edges(alloc, count)?;
    for pair in pairs {
        add_edge(&mut rows, pair.0, pair.1)?;
        add_edge(&mut rows, pair.1, pair.0)?;
    }
    Ok(rows)
}

/// The least set of nodes that holds the seeds and, with the first of a pair of the rules, its second.
/// Its nodes come in ascending order.
pub fn least_set(
    alloc: Global,
    count: usize,
    seeds: &[usize],
    rules: &[(usize, usize)],
) -> Result<Vec<usize>, AllocError>
    requires seeds { All (λ s. s < count) seeds.now }
    requires rules { AreBelow count rules.now }
    ensures exact { IfOk result (λ nodes. Lists (Derived (Contains seeds.now) (IsPair rules.now)) nodes.items) }
    ensures within { IfOk result (λ nodes. All (λ a. a < count) nodes.items) }
{
    let edges = edges_of(alloc, count, rules)?;
    let nodes = reached(alloc, &edges, seeds)?;
    Ok(nodes)
}

/// The numbers below `count`, in order.
fn all_nodes(alloc: Global, count: usize) -> Result<Vec<usize>, AllocError>
    ensures len { IfOk result (λ nodes. length nodes.items ≡ count) }
    ensures at { IfOk result (λ nodes. (k : ℕ) → k < count → slice_get nodes.items k ≡ Some k) }
{
    let mut nodes = Vec::new(alloc);
    for node in 0..count {
        nodes.push(node)?;
    }
    Ok(nodes)
}

/// For each node below `count` the least node of its class, where the classes are those of the least equivalence that
/// holds the pairs. Two nodes are in one class exactly where this is the same. The time is that of one visit of each
/// node and pair.
pub fn class_firsts(
    alloc: Global,
    count: usize,
    pairs: &[(usize, usize)],
) -> Result<Vec<usize>, AllocError>
    requires { AreBelow count pairs.now }
    ensures firsts { IfOk result (λ firsts. AreFirsts (IsPair pairs.now) count firsts.items) }
    ensures within { IfOk result (λ firsts. All (λ f. f < count) firsts.items) }
    ensures classes { IfOk result (λ firsts. (a b : ℕ) → a < count → b < count
        → (slice_index firsts.items a ≡ slice_index firsts.items b) ↔ Equivalent (IsPair pairs.now) a b) }
{
    let edges = edges_both_ways(alloc, count, pairs)?;
    let starts = all_nodes(alloc, count)?;
    let origins = origins(alloc, &edges, &starts)?;
    let mut firsts = Vec::new(alloc);
    for origin in &origins {
        firsts.push(origin.unwrap())?;
    }
    Ok(firsts)
}

/// The classes by their least nodes: for each node those whose least it is, in ascending order. `firsts` is what
/// `class_firsts` gives. A node that is not the least of its class has none.
pub fn class_members(alloc: Global, firsts: &[usize]) -> Result<Vec<Vec<usize>>, AllocError>
    requires { All (λ f. f < length firsts.now) firsts.now }
    ensures exact { IfOk result (λ rows. AreMembers firsts.now rows.items) }
{
    let mut rows = no_edges(alloc, firsts.len())?;
    for (node, first) in firsts.iter().enumerate() {
        add_edge(&mut rows, *first, node)?;
    }
    Ok(rows)
}

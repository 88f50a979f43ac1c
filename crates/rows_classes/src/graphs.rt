//! Questions on graphs of numbered nodes.

ghost use Rattle.std.specs.Prelude.{◌≡◌, ◌<◌, ◌↔◌, All, IsTrue, length};
ghost use Rattle.jn_reach.specs.Graph.{InRange};
ghost use Rattle.jn_reach.specs.Pairs.{AreBelow};

use crate::reading::{Question, read_number, read_numbers};
use crate::shown::Answer;
use jn_closure::closure;
use jn_reach::{
    are_below, class_firsts, class_members, edges_of, first_on_cycle, has_edge, least_set, origins,
    reached, reached_from,
};
use std::alloc::{AllocError, Global};

/// The answer to a question on the graph of a text as `5: 0-1 1-2`, which has five nodes and an edge for each pair:
///
/// - `closure`: for each node the nodes that chains of edges reach from it.
/// - `first_on_cycle`: a node, or `none`.
/// - `has_edge a b`: `yes` or `no`.
/// - `reached a b ..`: the nodes that are reached from one of these; `reached_from a` from one alone.
/// - `origins a b ..`: for each node the first of these from which it is reached.
/// - `least_set a b ..`: the least set that has these, and with the first of a pair the second.
/// - `class_firsts`, `class_members`: the classes of the least equivalence of the pairs.
pub fn answer(
    alloc: Global,
    graph: &str,
    asked: Question<'_>,
    out: &mut Answer,
) -> Result<bool, AllocError> {
    let (count, pairs) = graph_of(graph);
    let pairs = read_pairs(alloc, pairs)?;
    let nodes = read_numbers(alloc, asked.rest)?;
    Ok(within(alloc, count, &pairs, &nodes, asked.call, out))
}

/// The number of nodes that a text says, and its pairs.
fn graph_of(text: &str) -> (usize, &str) {
    match text.split_once(':') {
        None => (0, text),
        Some((count, pairs)) => (read_number(count), pairs),
    }
}

fn read_pairs(alloc: Global, text: &str) -> Result<Vec<(usize, usize)>, AllocError> {
    let mut all = Vec::new(alloc);
    for word in text.split_whitespace() {
        match word.split_once('-') {
            None => {}
            Some((from, to)) => all.push((read_number(from), read_number(to)))?,
        }
    }
    Ok(all)
}

/// Whether all are nodes of a graph of so many.
fn are_nodes(count: usize, nodes: &[usize]) -> bool
    ensures { IsTrue result ↔ All (λ a. a < count) nodes.now }
{
    nodes.iter().all(|node| *node < count)
}

/// The answer, where no pair and no node leads out of the graph.
fn within(
    alloc: Global,
    count: usize,
    pairs: &[(usize, usize)],
    nodes: &[usize],
    call: &str,
    out: &mut Answer,
) -> bool {
    if !are_below(count, pairs) || !are_nodes(count, nodes) {
        out.put("it leads out of the graph");
        return true;
    }
    of_pairs(alloc, count, pairs, nodes, call, out)
}

fn of_pairs(
    alloc: Global,
    count: usize,
    pairs: &[(usize, usize)],
    nodes: &[usize],
    call: &str,
    out: &mut Answer,
) -> bool
    requires pairs { AreBelow count pairs.now }
    requires nodes { All (λ a. a < count) nodes.now }
{
    match call {
        "least_set" => put_nodes(alloc, least_set(alloc, count, nodes, pairs), out),
        "class_firsts" => put_nodes(alloc, class_firsts(alloc, count, pairs), out),
        "class_members" => put_rows(alloc, members_of(alloc, count, pairs), out),
        _ => return of_edges(alloc, count, pairs, nodes, call, out),
    }
    true
}

fn members_of(
    alloc: Global,
    count: usize,
    pairs: &[(usize, usize)],
) -> Result<Vec<Vec<usize>>, AllocError>
    requires { AreBelow count pairs.now }
{
    let firsts = class_firsts(alloc, count, pairs)?;
    class_members(alloc, &firsts)
}

fn put_nodes(alloc: Global, nodes: Result<Vec<usize>, AllocError>, out: &mut Answer) {
    match nodes {
        Err(_) => out.fail(),
        Ok(nodes) => out.put_made(format!(in alloc; "{nodes:?}")),
    }
}

fn put_rows(alloc: Global, rows: Result<Vec<Vec<usize>>, AllocError>, out: &mut Answer) {
    match rows {
        Err(_) => out.fail(),
        Ok(rows) => out.put_made(format!(in alloc; "{rows:?}")),
    }
}

fn of_edges(
    alloc: Global,
    count: usize,
    pairs: &[(usize, usize)],
    nodes: &[usize],
    call: &str,
    out: &mut Answer,
) -> bool
    requires pairs { AreBelow count pairs.now }
    requires nodes { All (λ a. a < count) nodes.now }
{
    match edges_of(alloc, count, pairs) {
        Err(_) => {
            out.fail();
            true
        }
        Ok(edges) => of_graph(alloc, &edges, nodes, call, out),
    }
}

fn of_graph(
    alloc: Global,
    edges: &[Vec<usize>],
    nodes: &[usize],
    call: &str,
    out: &mut Answer,
) -> bool
    requires edges { InRange edges.now (length edges.now) }
    requires nodes { All (λ a. a < length edges.now) nodes.now }
{
    match call {
        "closure" => put_rows(alloc, closure(alloc, edges), out),
        "first_on_cycle" => put_cycle(alloc, edges, out),
        "reached" => put_nodes(alloc, reached(alloc, edges, nodes), out),
        "origins" => put_origins(alloc, edges, nodes, out),
        "reached_from" => put_reached_from(alloc, edges, nodes, out),
        "has_edge" => put_edge(edges, nodes, out),
        _ => return false,
    }
    true
}

fn put_cycle(alloc: Global, edges: &[Vec<usize>], out: &mut Answer)
    requires { InRange edges.now (length edges.now) }
{
    match closure(alloc, edges) {
        Err(_) => out.fail(),
        Ok(rows) => match first_on_cycle(edges, &rows) {
            None => out.put("none"),
            Some(node) => out.put_number(node),
        },
    }
}

fn put_origins(alloc: Global, edges: &[Vec<usize>], nodes: &[usize], out: &mut Answer)
    requires edges { InRange edges.now (length edges.now) }
    requires nodes { All (λ a. a < length edges.now) nodes.now }
{
    match origins(alloc, edges, nodes) {
        Err(_) => out.fail(),
        Ok(origins) => out.put_made(format!(in alloc; "{origins:?}")),
    }
}

fn put_reached_from(alloc: Global, edges: &[Vec<usize>], nodes: &[usize], out: &mut Answer)
    requires { InRange edges.now (length edges.now) }
{
    match nodes.first() {
        Some(start) if *start < edges.len() => put_nodes(
            alloc,
            reached_from(alloc, edges, *start),
            out,
        ),
        _ => out.put("there is no such node"),
    }
}

fn put_edge(edges: &[Vec<usize>], nodes: &[usize], out: &mut Answer) {
    match nodes {
        [from, to] if *from < edges.len() => out.say(has_edge(edges, *from, *to)),
        _ => out.put("there is no such node"),
    }
}

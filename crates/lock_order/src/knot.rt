// The cycle of each knot of mutexes.
ghost use Rattle.std.specs.Prelude.{◌≡◌, ◌<◌, ◌≤◌, ℕ, length, IfOk};
ghost use Rattle.std.specs.Bool.{MatchBool};
ghost use Rattle.std.specs.List.{All, Contains};
ghost use Rattle.graph_search.specs.Graphs.{IsWithin};
ghost use Rattle.graph_search.specs.Searches.{at};
ghost use Rattle.lock_order.specs.Edges.{AreOrdered};
ghost use Rattle.lock_order.specs.Cycles.{IsCycleAt, AreCycles};
ghost use Rattle.lock_order.specs.Knots.{AreRising, AreNodes, IsNode, AreLinks, AreRinged};
ghost use Rattle.lock_order.specs.Knots.{AreLeft, IsNear, IsNext, HasNext};

use crate::{Cycle, Edge, Edges};
use graph_search::{Graph, Link, distances, knots};
use run_record::{Items, NoMemory};
use std::alloc::{AllocError, Global};

/// Cycles, by rising first address.
pub type Cycles = Items<Cycle>;

/// The addresses of the edges, by rising value, each once.
fn nodes(alloc: Global, edges: &[Edge]) -> Result<Vec<u64>, AllocError>
    ensures { IfOk result (λ v. AreNodes edges.now v.items) }
{
    let mut nodes = Vec::new(alloc);
    for edge in edges {
        nodes.push(edge.from)?;
        nodes.push(edge.to)?;
    }
    nodes.sort_unstable();
    nodes.dedup();
    Ok(nodes)
}

/// The number of an address that is among them.
fn number(nodes: &[u64], addr: u64) -> usize
    requires rising { AreRising nodes.now }
    requires there { Contains nodes.now addr }
    ensures { IsNode nodes.now addr result }
{
    match nodes.binary_search(&addr) {
        Ok(number) => number,
        Err(number) => number,
    }
}

/// The edges as links between the numbers of their addresses.
fn links(alloc: Global, nodes: &[u64], edges: &[Edge]) -> Result<Vec<Link>, AllocError>
    requires { AreNodes edges.now nodes.now }
    ensures { IfOk result (λ v. AreLinks edges.now nodes.now v.items) }
{
    let mut links = Vec::new(alloc);
    for edge in edges {
        let from = number(nodes, edge.from);
        let to = number(nodes, edge.to);
        links.push(Link { from, to })?;
    }
    Ok(links)
}

/// Whether exactly so many edges lead on behind this one, to the target.
fn is_near(nodes: &[u64], left: &[usize], edge: Edge, more: usize, target: u64) -> bool
    requires rising { AreRising nodes.now }
    requires there { Contains nodes.now edge.to }
    requires size { length left.now ≡ length nodes.now }
    ensures { MatchBool result (IsNear nodes.now left.now target more edge)
        (IsNear nodes.now left.now target more edge → ⊥) }
{
    if more == 0 {
        edge.to == target
    } else {
        left[number(nodes, edge.to)] == more
    }
}

/// The first edge from an address behind which so many lead on to the target.
fn next_edge(
    edges: &[Edge],
    nodes: &[u64],
    left: &[usize],
    from: u64,
    more: usize,
    target: u64,
) -> Edge
    requires ordered { AreOrdered edges.now }
    requires nodes { AreNodes edges.now nodes.now }
    requires size { length left.now ≡ length nodes.now }
    requires has { HasNext edges.now nodes.now left.now target from more }
    ensures { IsNext edges.now nodes.now left.now target from more result }
{
    for edge in edges {
        if edge.from == from && is_near(nodes, left, *edge, more, target) {
            return *edge;
        }
    }
    unreachable!()
}

/// The first shortest way round, by how many edges lead from each address to that of the node.
fn cycle_at(
    alloc: Global,
    edges: &[Edge],
    nodes: &[u64],
    left: &[usize],
    node: usize,
) -> Result<Cycle, NoMemory>
    requires ordered { AreOrdered edges.now }
    requires nodes { AreNodes edges.now nodes.now }
    requires size { length left.now ≡ length nodes.now }
    requires node { node < length nodes.now }
    requires left { AreLeft edges.now nodes.now (at nodes.now node) left.now }
    requires around { 0 < at left.now node }
    ensures { IfOk result (λ c. IsCycleAt edges.now (at nodes.now node) c.edges) }
{
    let target = nodes[node];
    let mut cycle = Edges::new(alloc);
    let mut from = target;
    for more in (0..left[node]).rev() {
        let edge = next_edge(edges, nodes, left, from, more, target);
        cycle.push(edge)?;
        from = edge.to;
    }
    Ok(Cycle { edges: cycle })
}

/// For each number of a knot whether a link stays within it.
fn ringed(alloc: Global, links: &[Link], knots: &[usize]) -> Result<Vec<bool>, AllocError>
    requires within { All (IsWithin (length knots.now)) links.now }
    requires numbers { All (λ n. n < length knots.now) knots.now }
    ensures { IfOk result (λ v. AreRinged links.now knots.now v.items) }
{
    let mut ringed = vec![in alloc; false; knots.len()]?;
    for link in links {
        let knot = knots[link.to];
        if knots[link.from] == knot {
            ringed[knot] = true;
        }
    }
    Ok(ringed)
}

/// For each knot, a set of addresses of which each reaches each, its cycle: a shortest one from the least address, and
/// of these the first by its addresses.
pub fn cycles(alloc: Global, edges: &Edges) -> Result<Cycles, NoMemory>
    requires { AreOrdered edges.now }
    ensures { IfOk result (AreCycles edges.now) }
{
    let edges = edges.as_slice();
    let nodes = nodes(alloc, edges)?;
    let links = links(alloc, &nodes, edges)?;
    let forth = Graph::new(alloc, nodes.len(), links)?;
    let back = forth.turned(alloc)?;
    let knots = knots(alloc, &forth)?;
    let mut waits = ringed(alloc, &forth.links, &knots)?;
    let mut cycles = Cycles::new(alloc);
    for node in 0..nodes.len() {
        let knot = knots[node];
        if waits[knot] {
            waits[knot] = false;
            let left = distances(alloc, &back, node)?;
            cycles.push(cycle_at(alloc, edges, &nodes, &left, node)?)?;
        }
    }
    Ok(cycles)
}

// Knots: strongly connected sets of nodes, by two depth-first walks.
ghost use Rattle.std.specs.Prelude.{◌≡◌, ◌<◌, ◌+◌, ◌-◌, [], map, false, IfOk, OnOk, vec_len};
ghost use Rattle.std.specs.List.{All};
ghost use Rattle.graph_search.specs.Graphs.{IsGraph, turn};
ghost use Rattle.graph_search.specs.Knots.{AreKnots};
ghost use Rattle.graph_search.specs.Descents.{flag};
ghost use Rattle.graph_search.specs.Gatherings.{Places, Gathers};

use crate::descent::finished;
use crate::graph::links_from;
use crate::{Graph, Link};
use std::alloc::{AllocError, Global};

/// Goes on along links of one node: nodes that aren't placed get the number of the root, and their links are ahead.
fn place(
    links: &[Link],
    root: usize,
    placed: &mut Vec<bool>,
    knots: &mut Vec<usize>,
    ahead: &mut Vec<usize>,
) -> Result<(), AllocError>
    requires within { All (λ l. l.to < vec_len placed.old) links.now }
    requires size { vec_len knots.old ≡ vec_len placed.old }
    ensures { OnOk result (Places links.now root placed.old.items knots.old.items ahead.old.items
        placed.new.items knots.new.items ahead.new.items) }
{
    for link in links {
        if !placed[link.to] {
            placed[link.to] = true;
            knots[link.to] = root;
            ahead.push(link.to)?;
        }
    }
    Ok(())
}

/// Places each node that isn't placed and from which the root is reached along such nodes. The graph's links are turned
/// round.
fn gather(
    alloc: Global,
    back: &Graph,
    root: usize,
    placed: &mut Vec<bool>,
    knots: &mut Vec<usize>,
) -> Result<(), AllocError>
    requires graph { IsGraph (vec_len back.now.starts - 1) back.now }
    requires size { vec_len placed.old + 1 ≡ vec_len back.now.starts }
    requires long { vec_len knots.old ≡ vec_len placed.old }
    requires root { root < vec_len placed.old }
    requires free { flag placed.old.items root ≡ false }
    ensures { OnOk result (Gathers (map turn back.now.links.items) root placed.old.items knots.old.items
        placed.new.items knots.new.items []) }
{
    let mut ahead = Vec::new(alloc);
    placed[root] = true;
    knots[root] = root;
    ahead.push(root)?;
    while let Some(node) = ahead.pop() {
        place(links_from(back, node), root, placed, knots, &mut ahead)?;
    }
    Ok(())
}

/// For each node the number of its knot: two nodes have the same one exactly where each is reached from the other.
pub fn knots(alloc: Global, graph: &Graph) -> Result<Vec<usize>, AllocError>
    requires graph { IsGraph (vec_len graph.now.starts - 1) graph.now }
    ensures knots { IfOk result (λ v. AreKnots graph.now.links.items v.items) }
    ensures len { IfOk result (λ v. vec_len v + 1 ≡ vec_len graph.now.starts) }
{
    let nodes = graph.starts.len() - 1;
    let done = finished(alloc, graph)?;
    let back = graph.turned(alloc)?;
    let mut placed = vec![in alloc; false; nodes]?;
    let mut knots = vec![in alloc; 0usize; nodes]?;
    for index in (0..done.len()).rev() {
        let node = done[index];
        if !placed[node] {
            gather(alloc, &back, node, &mut placed, &mut knots)?;
        }
    }
    Ok(knots)
}

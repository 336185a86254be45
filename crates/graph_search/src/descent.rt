// A depth-first walk over all nodes.
ghost use Rattle.std.specs.Prelude.{◌≡◌, ℕ, ◌<◌, ◌≤◌, ◌+◌, ◌-◌, ◌++◌, ◌∷◌, [], length, true, false, IfOk, OnOk, vec_len};
ghost use Rattle.std.specs.List.{All};
ghost use Rattle.graph_search.specs.Graphs.{IsGraph, IsWithin};
ghost use Rattle.graph_search.specs.Searches.{at};
ghost use Rattle.graph_search.specs.Descents.{flag, end_at, unmarked, IsDescent, IsFinishing};

use crate::{Graph, Link};
use std::alloc::{AllocError, Global};

/// The place of the first link to a node that isn't seen, from one place on, or the end where there is none.
fn first_unseen(seen: &[bool], links: &[Link], next: usize, end: usize) -> usize
    requires order { next ≤ end }
    requires end { end ≤ length links.now }
    requires within { All (IsWithin (length seen.now)) links.now }
    ensures from { next ≤ result }
    ensures bound { result ≤ end }
    ensures passed { (k : ℕ) → next ≤ k → k < result → flag seen.now (end_at links.now k) ≡ true }
    ensures unseen { result < end → flag seen.now (end_at links.now result) ≡ false }
{
    for place in next..end {
        if !seen[links[place].to] {
            return place;
        }
    }
    end
}

/// From the last node of the way on to one that isn't seen, or back from it.
fn step(
    graph: &Graph,
    node: usize,
    seen: &mut Vec<bool>,
    next: &mut Vec<usize>,
    way: &mut Vec<usize>,
    done: &mut Vec<usize>,
) -> Result<(), AllocError>
    requires graph { IsGraph (vec_len graph.now.starts - 1) graph.now }
    requires descent { IsDescent graph.now.links.items graph.now.starts.items seen.old.items next.old.items
        (way.old.items ++ node ∷ []) done.old.items }
    ensures descent { OnOk result (IsDescent graph.now.links.items graph.now.starts.items seen.new.items next.new.items
        way.new.items done.new.items) }
    ensures kept { OnOk result ((v : ℕ) → flag seen.old.items v ≡ true → flag seen.new.items v ≡ true) }
    ensures less { OnOk result (unmarked seen.new.items + unmarked seen.new.items + length way.new.items
        ≤ unmarked seen.old.items + unmarked seen.old.items + length way.old.items) }
{
    let end = graph.starts[node + 1];
    let place = first_unseen(seen, &graph.links, next[node], end);
    next[node] = place;
    if place == end {
        done.push(node)?;
        return Ok(());
    }
    let to = graph.links[place].to;
    seen[to] = true;
    way.push(node)?;
    way.push(to)?;
    Ok(())
}

/// Walks on from a node that isn't seen to all that are reached from it and aren't, depth first.
fn descend(
    alloc: Global,
    graph: &Graph,
    root: usize,
    seen: &mut Vec<bool>,
    next: &mut Vec<usize>,
    done: &mut Vec<usize>,
) -> Result<(), AllocError>
    requires graph { IsGraph (vec_len graph.now.starts - 1) graph.now }
    requires descent { IsDescent graph.now.links.items graph.now.starts.items seen.old.items next.old.items []
        done.old.items }
    requires root { root < vec_len seen.old }
    requires unseen { flag seen.old.items root ≡ false }
    ensures descent { OnOk result (IsDescent graph.now.links.items graph.now.starts.items seen.new.items next.new.items []
        done.new.items) }
    ensures kept { OnOk result ((v : ℕ) → flag seen.old.items v ≡ true → flag seen.new.items v ≡ true) }
    ensures root { OnOk result (flag seen.new.items root ≡ true) }
{
    let mut way = Vec::new(alloc);
    seen[root] = true;
    way.push(root)?;
    while let Some(node) = way.pop() {
        step(graph, node, seen, next, &mut way, done)?;
    }
    Ok(())
}

/// All nodes in the order in which a depth-first walk leaves them.
pub(crate) fn finished(alloc: Global, graph: &Graph) -> Result<Vec<usize>, AllocError>
    requires graph { IsGraph (vec_len graph.now.starts - 1) graph.now }
    ensures { IfOk result (λ v. IsFinishing graph.now.links.items (vec_len graph.now.starts - 1) v.items) }
{
    let nodes = graph.starts.len() - 1;
    let mut seen = vec![in alloc; false; nodes]?;
    let mut next = graph.starts.to_vec(alloc)?;
    let mut done = Vec::new(alloc);
    for root in 0..nodes {
        if !seen[root] {
            descend(alloc, graph, root, &mut seen, &mut next, &mut done)?;
        }
    }
    Ok(done)
}

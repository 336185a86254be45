// Breadth-first search.
ghost use Rattle.std.specs.Prelude.{◌≡◌, ℕ, ◌<◌, ◌≤◌, ◌+◌, ◌-◌, length, IfOk, OnOk, vec_len};
ghost use Rattle.std.specs.List.{All};
ghost use Rattle.graph_search.specs.Graphs.{IsGraph};
ghost use Rattle.graph_search.specs.Walks.{AreDistances};
ghost use Rattle.graph_search.specs.Searches.{Spreads};

use crate::graph::links_from;
use crate::{Graph, Link};
use std::alloc::{AllocError, Global};

/// Goes on along links of one node: nodes with no distance get the next one, and come behind the queue.
fn spread(
    distances: &mut Vec<usize>,
    queue: &mut Vec<usize>,
    links: &[Link],
    next: usize,
) -> Result<(), AllocError>
    requires within { All (λ l. l.to < vec_len distances.old) links.now }
    requires positive { 0 < next }
    ensures { OnOk result
        (Spreads links.now next distances.old.items queue.old.items distances.new.items
        queue.new.items) }
{
    for link in links {
        if distances[link.to] == 0 {
            distances[link.to] = next;
            queue.push(link.to)?;
        }
    }
    Ok(())
}

/// For each node the length of a shortest walk to it, of one link at least, and 0 where there is none.
pub fn distances(alloc: Global, graph: &Graph, from: usize) -> Result<Vec<usize>, AllocError>
    requires node { from + 1 < vec_len graph.now.starts }
    requires graph { IsGraph (vec_len graph.now.starts - 1) graph.now }
    ensures distances { IfOk result (λ v. AreDistances graph.now.links.items from v.items) }
    ensures len { IfOk result (λ v. vec_len v + 1 ≡ vec_len graph.now.starts) }
{
    let mut distances = vec![in alloc; 0usize; graph.starts.len() - 1]?;
    let mut queue = Vec::new(alloc);
    spread(&mut distances, &mut queue, links_from(graph, from), 1)?;
    for head in 0..distances.len() {
        if head == queue.len() {
            return Ok(distances);
        }
        let node = queue[head];
        let next = distances[node] + 1;
        spread(&mut distances, &mut queue, links_from(graph, node), next)?;
    }
    Ok(distances)
}

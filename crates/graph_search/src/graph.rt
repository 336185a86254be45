// Graphs, with the links of a node side by side.
ghost use Rattle.std.specs.Prelude.{◌<◌, ◌+◌, ◌-◌, ◌≡◌, [], map, IfOk, vec_len};
ghost use Rattle.std.specs.List.{All};
ghost use Rattle.std.specs.List.Sorted.{IsPermutation};
ghost use Rattle.graph_search.specs.Graphs.{IsWithin, IsGraph, AreFrom, AreRows, turn};

use std::alloc::{AllocError, Global};

/// A link from one node to another.
#[derive(Clone, Copy)]
pub struct Link {
    pub from: usize,
    pub to: usize,
}

/// A graph over the nodes below some number.
#[derive(Drop)]
pub struct Graph {
    /// By rising `from`.
    pub links: Vec<Link>,
    /// For each node how many links stand before its own, and how many there are.
    pub starts: Vec<usize>,
}

/// A row for each node, with nothing in it.
fn no_rows(alloc: Global, nodes: usize) -> Result<Vec<Vec<Link>>, AllocError>
    ensures { IfOk result (λ v. AreRows nodes [] v.items) }
{
    let mut rows = Vec::new(alloc);
    for _node in 0..nodes {
        rows.push(Vec::new(alloc))?;
    }
    Ok(rows)
}

/// For each node a row of the links that begin at it.
fn rows(alloc: Global, nodes: usize, links: &[Link]) -> Result<Vec<Vec<Link>>, AllocError>
    requires within { All (IsWithin nodes) links.now }
    ensures { IfOk result (λ v. AreRows nodes links.now v.items) }
{
    let mut rows = no_rows(alloc, nodes)?;
    for link in links {
        rows[link.from].push(*link)?;
    }
    Ok(rows)
}

impl Graph {
    /// The graph over so many nodes with these links, whose ends are below that number.
    pub fn new(alloc: Global, nodes: usize, links: Vec<Link>) -> Result<Graph, AllocError>
        requires within { All (IsWithin nodes) links.items }
        ensures same { IfOk result (λ g. IsPermutation links.items g.links.items) }
        ensures graph { IfOk result (IsGraph nodes) }
    {
        let rows = rows(alloc, nodes, &links)?;
        let mut links = Vec::new(alloc);
        let mut starts = Vec::new(alloc);
        for row in &rows {
            starts.push(links.len())?;
            links.extend_from_slice(row)?;
        }
        starts.push(links.len())?;
        Ok(Graph { links, starts })
    }

    /// The graph with each link turned round.
    pub fn turned(&self, alloc: Global) -> Result<Graph, AllocError>
        requires graph { IsGraph (vec_len self.now.starts - 1) self.now }
        ensures same { IfOk result (λ g. IsPermutation (map turn self.now.links.items) g.links.items) }
        ensures graph { IfOk result (IsGraph (vec_len self.now.starts - 1)) }
    {
        let links = turned(alloc, &self.links)?;
        Graph::new(alloc, self.starts.len() - 1, links)
    }
}

/// The links, each turned round.
fn turned(alloc: Global, links: &[Link]) -> Result<Vec<Link>, AllocError>
    ensures { IfOk result (λ v. v.items ≡ map turn links.now) }
{
    links
        .iter()
        .map(|link| Link {
            from: link.to,
            to: link.from,
        })
        .collect(alloc)
}

/// The links that begin at the node.
pub(crate) fn links_from(graph: &Graph, node: usize) -> &[Link]
    requires node { node + 1 < vec_len graph.now.starts }
    requires graph { IsGraph (vec_len graph.now.starts - 1) graph.now }
    ensures { AreFrom graph.now.links.items node result.now }
{
    &graph.links[graph.starts[node]..graph.starts[node + 1]]
}

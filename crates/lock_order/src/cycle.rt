// A cycle of edges, and its text.
ghost use Rattle.std.specs.Prelude.{◌≡◌, ◌++◌, OnOk, IfOk, string_bytes, codes};
ghost use Rattle.std.specs.List.{flat_map};
ghost use Rattle.report_text.specs.Texts.{address, who};
ghost use Rattle.lock_order.specs.Texts.{edge_line, cycle_lines};

use crate::{Edge, Edges};
use run_record::NoMemory;
use std::alloc::{AllocError, Global};

/// Edges in order. In a cycle each ends where the next one begins, and the last one where the first begins.
#[derive(Drop)]
pub struct Cycle {
    pub edges: Edges,
}

fn write_who(text: &mut String, tid: u32) -> Result<(), AllocError>
    ensures { OnOk result (string_bytes text.new ≡ string_bytes text.old ++ who tid) }
{
    if tid == 0 {
        text.push_str("main thread")
    } else {
        write!(text, "thread T{tid}")
    }
}

fn write_edge(text: &mut String, edge: Edge) -> Result<(), AllocError>
    ensures { OnOk result (string_bytes text.new ≡ string_bytes text.old ++ edge_line edge) }
{
    let Edge { from, to, tid } = edge;
    write!(text, "  0x{from:016x} then 0x{to:016x} by ")?;
    write_who(text, tid)?;
    text.push_str("\n")
}

fn write_addresses(text: &mut String, edges: &[Edge]) -> Result<(), AllocError>
    ensures { OnOk result (string_bytes text.new
        ≡ string_bytes text.old ++ flat_map (λ e. codes " " ++ address e.from) edges.now) }
{
    for edge in edges {
        let from = edge.from;
        write!(text, " 0x{from:016x}")?;
    }
    Ok(())
}

fn write_edges(text: &mut String, edges: &[Edge]) -> Result<(), AllocError>
    ensures { OnOk result (string_bytes text.new ≡ string_bytes text.old ++ flat_map edge_line edges.now) }
{
    for edge in edges {
        write_edge(text, *edge)?;
    }
    Ok(())
}

/// The text of a cycle: a line with the addresses in order, then for each edge a line that tells which thread took the
/// second mutex while it kept the first. Each line ends with a newline.
pub fn cycle_text(alloc: Global, cycle: &Cycle) -> Result<Vec<u8>, NoMemory>
    ensures { IfOk result (λ text. text.items ≡ cycle_lines cycle.now.edges) }
{
    let edges = cycle.edges.as_slice();
    let mut text = String::from_str(alloc, "lock cycle:")?;
    write_addresses(&mut text, edges)?;
    text.push_str("\n")?;
    write_edges(&mut text, edges)?;
    Ok(text.into_bytes())
}

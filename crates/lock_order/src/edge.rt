// The edges of a history.
ghost use Rattle.std.specs.Prelude.{◌≡◌, IfOk, map};
ghost use Rattle.std.specs.BTreeMap.{IsOrdered};
ghost use Rattle.run_laws.specs.Moments.{moments};
ghost use Rattle.lock_order.specs.Edges.{AreEdges, pair_order};
ghost use Rattle.lock_order.specs.Found.{edge_of};

use crate::found::{Found, note_entry};
use run_record::{Items, NoMemory, Record};
use std::alloc::{AllocError, Global};

/// A thread took the mutex at `to` while it kept another one at `from`.
#[derive(Clone, Copy, Debug, PartialEq, Eq)]
pub struct Edge {
    pub from: u64,
    pub to: u64,
    /// The thread that did so first.
    pub tid: u32,
}

/// Edges, by rising `from` and then `to`.
pub type Edges = Items<Edge>;

fn listed(alloc: Global, found: &Found) -> Result<Vec<Edge>, AllocError>
    ensures items { IfOk result (λ v. v.items ≡ map edge_of found.now.entries) }
    ensures ordered { IsOrdered pair_order found.now }
{
    found
        .iter()
        .map(|(pair, tid)| Edge {
            from: pair.0,
            to: pair.1,
            tid: *tid,
        })
        .collect(alloc)
}

/// Each pair of mutexes of which a thread took the second, to read or to write, while it kept the first, with the
/// thread that did so first; by rising addresses. A mutex that is taken again is no edge.
pub fn edges(alloc: Global, history: &Record) -> Result<Edges, NoMemory>
    ensures { IfOk result (AreEdges (moments history.now.entries)) }
{
    let mut held = Vec::new(alloc);
    let mut found = Found::new(alloc);
    let entries = history.entries.to_vec(alloc)?;
    for entry in &entries {
        note_entry(&mut held, &mut found, entry)?;
    }
    Ok(Edges::from_vec(listed(alloc, &found)?))
}

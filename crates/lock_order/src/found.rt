// The edges that the order of taking mutexes gave so far.
ghost use Rattle.std.specs.Prelude.{◌≡◌, ℕ, Bool, ◌==◌, ◌++◌, List, ◌&&◌, if◌then◌else◌, Some, None, OnOk};
ghost use Rattle.run_record.specs.declared.event.Event.TheVariants.{Lock};
ghost use Rattle.run_laws.specs.Moments.{Does, Moment, entry_moments};
ghost use Rattle.lock_order.specs.Edges.{taker_by};
ghost use Rattle.kept_locks.specs.Held.{locks_by, GoOnBy};
ghost use Rattle.lock_order.specs.Found.{first_by, or_else, Follows};

use kept_locks::{Held, note};
use run_record::{Entry, Event, NoMemory};
use std::collections::BTreeMap;

/// For each pair of mutexes the thread that first took the second one while it kept the first.
pub(crate) type Found = BTreeMap<(u64, u64), u32>;

/// The thread took `to` while it kept `from`: an edge, unless there is one.
fn add_edge(found: &mut Found, from: u64, to: u64, tid: u32) -> Result<(), NoMemory>
    ensures { OnOk result ((x y : ℕ) → first_by found.new x y
        ≡ or_else (first_by found.old x y) (if (from == x) && (to == y) then Some tid else None)) }
{
    let pair = (from, to);
    if !found.contains_key(&pair) {
        found.insert(pair, tid)?;
    }
    Ok(())
}

/// The thread takes the mutex `to`: an edge from each other mutex that it keeps.
fn add_edges(found: &mut Found, held: &[Held], tid: u32, to: u64) -> Result<(), NoMemory>
    ensures { OnOk result ((x y : ℕ) (read : Bool) → first_by found.new x y
        ≡ or_else (first_by found.old x y) (taker_by (locks_by held.now) (Does tid (Lock to read)) x y)) }
{
    for Held { tid: keeper, lock } in held {
        if *keeper == tid && lock.addr != to {
            add_edge(found, lock.addr, to, tid)?;
        }
    }
    Ok(())
}

/// One more event of a thread.
fn note_event(
    held: &mut Vec<Held>,
    found: &mut Found,
    tid: u32,
    event: &Event,
) -> Result<(), NoMemory>
    ensures locks { OnOk result (GoOnBy tid event.now held.old.items held.new.items) }
    ensures edges { OnOk result ((x y : ℕ) → first_by found.new x y
        ≡ or_else (first_by found.old x y) (taker_by (locks_by held.old.items) (Does tid event.now) x y)) }
{
    if let Event::Lock { addr, .. } = event {
        add_edges(found, held, tid, *addr)?;
    }
    note(held, tid, event)?;
    Ok(())
}

/// One more entry of a history.
pub(crate) fn note_entry(
    held: &mut Vec<Held>,
    found: &mut Found,
    entry: &Entry,
) -> Result<(), NoMemory>
    ensures { OnOk result ((h : List Moment) (i : ℕ) → Follows h held.old.items found.old
        → Follows (h ++ entry_moments i entry.now) held.new.items found.new) }
{
    for event in entry.events.as_slice() {
        note_event(held, found, entry.tid, event)?;
    }
    Ok(())
}

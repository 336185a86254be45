// The threads and the events of entries, one entry after another.
ghost use Rattle.std.specs.Prelude.{◌≡◌, length, IfOk};
ghost use Rattle.run_record.specs.Flat.{event_count};
ghost use Rattle.run_record.specs.Walk.{AreEventsOf, AreRowEvents};

use crate::flat::Row;
use crate::{Entries, Event, NoMemory};
use std::alloc::Global;

/// The thread of an entry, and its events, which stand in the history.
#[derive(Clone, Copy)]
pub struct EntryEvents<'a> {
    pub tid: u32,
    pub events: &'a [Event],
}

/// The thread and the events of each row.
fn row_events<'a>(
    alloc: Global,
    rows: &[Row],
    events: &'a [Event],
) -> Result<Vec<EntryEvents<'a>>, NoMemory>
    requires { event_count rows.now ≡ length events.now }
    ensures { IfOk result (λ walk. AreRowEvents rows.now events.now walk.items) }
{
    let mut walk = Vec::new(alloc);
    let mut events = events;
    for row in rows {
        let (own, later) = events.split_at(row.events as usize);
        walk.push(EntryEvents {
            tid: row.head.tid,
            events: own,
        })?;
        events = later;
    }
    Ok(walk)
}

impl Entries {
    /// The thread and the events of each entry. No event is copied.
    pub fn walk(&self, alloc: Global) -> Result<Vec<EntryEvents<'_>>, NoMemory>
        ensures { IfOk result (λ walk. AreEventsOf self.now walk.items) }
    {
        row_events(alloc, &self.flat.rows, &self.flat.events)
    }
}

// The entries of a history, numbered.
ghost use Rattle.std.specs.Prelude.{◌<◌, ◌^◌, length, All, IfOk};
ghost use Rattle.run_record.specs.Walk.{AreEventsOf};
ghost use Rattle.offline_audit.specs.Orders.{AreFew};

use run_record::{EntryEvents, NoMemory, Record};
use std::alloc::Global;

/// The thread and the events of each entry. There is no memory for 2^32 entries.
pub(crate) fn walked(alloc: Global, history: &Record) -> Result<Vec<EntryEvents<'_>>, NoMemory>
    ensures same { IfOk result (λ walk. AreEventsOf history.now.entries walk.items) }
    ensures few { IfOk result (λ walk. AreFew history.now.entries) }
    ensures short { IfOk result (λ walk. All (λ w. length w.events.now < 2 ^ 32) walk.items) }
{
    if history.entries.len() > u32::MAX as usize {
        return Err(NoMemory);
    }
    history.entries.walk(alloc)
}

// Which events belong to a mutex that a thread takes or gives back.
ghost use Rattle.std.specs.Prelude.{◌≡◌, ◌==◌, ◌-◌, ℕ, max, nat_lt, if◌then◌else◌, IfOk, OnOk};
ghost use Rattle.offline_audit.specs.Heard.{known_of};
ghost use Rattle.offline_audit.specs.Mutexes.{mutex_events};

use crate::clock::{Clock, known};
use run_record::{Event, NoMemory};

/// How many of its next events belong to a mutex that a thread takes or gives back by the event.
fn events_to_come(event: &Event) -> u64
    ensures { result ≡ mutex_events event.now }
{
    match *event {
        Event::Lock { read, .. } => { if read { 1 } else { 2 } }
        Event::Unlock { .. } => 1,
        _ => 0,
    }
}

/// Whether the thread's event belongs to a mutex, where so many of each thread's next events do; one more event of it is made.
pub(crate) fn pass(left: &mut Clock, tid: u32, event: &Event) -> Result<bool, NoMemory>
    ensures is { IfOk result (λ passed. passed ≡ nat_lt 0 (known_of left.old tid)) }
    ensures left { OnOk result ((t : ℕ) → known_of left.new t ≡ (if tid == t
        then max (mutex_events event.now) (known_of left.old t - 1) else known_of left.old t)) }
{
    let before = known(left, tid);
    let rest = if before == 0 { 0 } else { before - 1 };
    left.insert(tid, events_to_come(event).max(rest))?;
    Ok(0 < before)
}

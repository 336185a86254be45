// Clocks: what is known of each thread's events.
ghost use Rattle.std.specs.Prelude.{◌≡◌, ◌==◌, ℕ, max, if◌then◌else◌, OnOk};
ghost use Rattle.offline_audit.specs.Heard.{known_of};

use run_record::NoMemory;
use std::collections::BTreeMap;

/// For each thread of whose events some are known, the number that follows the last such one's.
pub(crate) type Clock = BTreeMap<u32, u64>;

/// What is known of the thread.
pub(crate) fn known(clock: &Clock, tid: u32) -> u64
    ensures { result ≡ known_of clock.now tid }
{
    clock.get(&tid).copied().unwrap_or(0)
}

/// So much is known of the thread, at least.
pub(crate) fn raise(clock: &mut Clock, tid: u32, number: u64) -> Result<(), NoMemory>
    ensures { OnOk result ((u : ℕ) → known_of clock.new u
        ≡ (if u == tid then max (known_of clock.old u) number else known_of clock.old u)) }
{
    if known(clock, tid) < number {
        clock.insert(tid, number)?;
    }
    Ok(())
}

// The part of a round that workers make.
ghost use Rattle.std.specs.Prelude.{◌≡◌, ◌<◌, ◌≤◌, None, ℕ, List, Bool, Option, IfOk, OnOk};
ghost use Rattle.run_laws.specs.Reports.{Kept};
ghost use Rattle.thread_turns.specs.Ranges.{AreLimits};
ghost use Rattle.shared_table.specs.Layouts.{IsTableOf};
ghost use Rattle.shared_table.specs.Seats.{IsOpener};
ghost use Rattle.hart_workers.specs.Standing.{IsBetween, IsAtEnd};

use crate::crew::{Due, NewWorkers};
use crate::pending::PendingList;
use crate::rounds::Rounds;
use run_record::{Entries, NoMemory};
use shared_table::{Shared, SharedSeat, round};
use std::sync::Wait;
use std::thread::Threads;
use tool_ports::Gate;

/// What a round made, before it is recorded: what each worker told, the accesses that wait for its end, in order, and whether a thread
/// was starved.
#[derive(Drop)]
pub(crate) struct RoundMade {
    pub logs: Vec<Entries>,
    pub pending: PendingList,
    pub starved: bool,
}

/// Starting a thread of the host takes about as long as so many instructions.
const WORTH_A_THREAD: usize = 2_000;

/// How many threads of the host, of at most so many, so many workers with that share each are worth: two at least.
fn worth_starting(workers: usize, share: u32, most: usize) -> usize
    requires { 0 < most }
    ensures some { 0 < result }
    ensures most { result ≤ most }
{
    let due = workers.saturating_mul(share as usize);
    (due / WORTH_A_THREAD).max(2).min(most)
}

impl Rounds {
    /// A worker for each thread that lives makes its part, all at once on so many threads of the host at most.
    pub(crate) fn make<R: Threads + Wait + Sync, G: Gate + Sync>(
        &mut self,
        rt: &R,
        shared: &Shared,
        seat: &mut SharedSeat,
        new: &NewWorkers<'_, '_, G>,
        threads: usize,
    ) -> Result<RoundMade, NoMemory>
        requires threads { 0 < threads }
        requires code { new.now.code.now ≡ new.now.image.now }
        requires limits { AreLimits new.now.limits.now }
        requires opener { IsOpener shared.now seat.old }
        requires table { IsTableOf new.now.image.now new.now.limits.now shared.now }
        requires between { (meets : Option (List ℕ) → Option (List ℕ) → Bool) × (kept : Kept)
            × IsBetween meets new.now.image.now new.now.limits.now shared.now.layout seat.old.me.0 self.old kept }
        requires due { self.old.reading.end ≡ None }
        ensures opener { OnOk result (IsOpener shared.now seat.new) }
        ensures at_end { IfOk result (λ made. (meets : Option (List ℕ) → Option (List ℕ) → Bool) (kept : Kept)
            → IsBetween meets new.now.image.now new.now.limits.now shared.now.layout seat.old.me.0 self.old kept
            → IsAtEnd meets new.now.image.now new.now.limits.now shared.now.layout seat.new.me.0 self.new made kept) }
    {
        let due = Due {
            round: self.round,
            era: self.era,
            share: self.reading.share,
            base: self.base,
        };
        let workers = self.crew.hire(new, due, self.reading.live.as_slice())?;
        let threads = worth_starting(workers.len(), self.reading.share, threads);
        let after = round(rt, new.alloc, shared, seat, workers, threads)?;
        let mut logs = Vec::new(new.alloc);
        let mut pending = PendingList::new(new.alloc);
        let starved = self.crew.take_back(after, &mut logs, &mut pending)?;
        pending.sort()?;
        Ok(RoundMade {
            logs,
            pending,
            starved,
        })
    }
}

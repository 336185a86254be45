// What is told of the accesses that wait.
ghost use Rattle.std.specs.Prelude.{◌≡◌, ◌+◌, ◌-◌, ◌^◌, ◌<◌, ◌≤◌, ◌∷◌, [], true, false, IfOk, OnOk};
ghost use Rattle.detector.specs.Stands.{awaited};
ghost use Rattle.part_races.specs.Sorting.{awaited_in};
ghost use Rattle.report_text.specs.Offers.{is_met, offers};
ghost use Rattle.hart_workers.specs.Tells.{CanTell, TellsReports};
ghost use Rattle.hart_workers.specs.Sides.{TellsSide};

use crate::pending::PendingList;
use detector::{find_owner, tell_previous};
use elf_image::Image;
use hart_turns::ThreadState;
use race_core::Candidate;
use report_text::{Reporter, Suppressions};
use run_record::{NoMemory, Side};
use slot_desk::Desk;
use std::alloc::Global;

/// Tells each access that waits, in order, by the desk and the states of the threads, and offers it. There is no memory where a state isn't
/// there.
pub fn tell_reports<S: Suppressions>(
    alloc: Global,
    image: &Image<'_>,
    desk: &Desk,
    states: &[Option<ThreadState>],
    pending: PendingList,
    reporter: &mut Reporter<'_, S>,
) -> Result<(), NoMemory>
    requires { CanTell image.now states.now desk.now (awaited_in pending) }
    ensures told { OnOk result (TellsReports (is_met (S.rule_met reporter.old.rules)) image.now states.now desk.now
        (awaited_in pending) reporter.old.kept reporter.new.kept) }
    ensures rules { reporter.new.rules ≡ reporter.old.rules }
{
    for one in pending.items {
        let candidate = one.waiting.candidate;
        let previous = told_previous(alloc, image, desk, states, &candidate)?;
        if !has_room(reporter) {
            return Err(NoMemory);
        }
        reporter.offer(candidate.mine, previous)?;
    }
    Ok(())
}

// The access that left the candidate's word: the desk names its thread, and the trace in that thread's state tells it.
fn told_previous(
    alloc: Global,
    image: &Image<'_>,
    desk: &Desk,
    states: &[Option<ThreadState>],
    candidate: &Candidate,
) -> Result<Side, NoMemory>
    requires { CanTell image.now states.now desk.now (awaited candidate.now ∷ []) }
    ensures { IfOk result (λ side. TellsSide image.now states.now desk.now (awaited candidate.now) side) }
{
    let owner = find_owner(desk, candidate);
    let Some(Some(state)) = states.get(owner as usize) else {
        return Err(NoMemory);
    };
    tell_previous(alloc, image, owner, state.watcher.trace(), candidate)
}

// Whether one more race can be offered, and still be counted.
fn has_room<S: Suppressions>(reporter: &Reporter<'_, S>) -> bool
    ensures room { result ≡ true → offers reporter.now.kept < 2 ^ 32 - 1 }
    ensures full { result ≡ false → 2 ^ 32 - 1 ≤ offers reporter.now.kept }
{
    let kept = reporter.reports().len();
    let others = u64::from(reporter.suppressed()) + u64::from(reporter.equal());
    kept < u32::MAX as usize && kept as u64 + others < u64::from(u32::MAX)
}

// The rounds of a run.
ghost use Rattle.std.specs.Prelude.{◌≡◌, ◌<◌, Some, List, IfOk, OnOk};
ghost use Rattle.run_record.specs.declared.plan.Turn.{Turn};
ghost use Rattle.run_laws.specs.Faithful.{AtOnce};
ghost use Rattle.thread_turns.specs.Ranges.{AreLimits};
ghost use Rattle.shared_table.specs.Layouts.{IsTableOf};
ghost use Rattle.shared_table.specs.Seats.{IsOpener};
ghost use Rattle.report_text.specs.Offers.{is_met};
ghost use Rattle.whole_runs.specs.Run.{IsRun, kept_in};
ghost use Rattle.hart_workers.specs.Standing.{IsBetween};

use crate::crew::NewWorkers;
use crate::reading::Reading;
use crate::rounds::Rounds;
use elf_image::Image;
use guest_code::Code;
use report_text::{Reporter, Suppressions};
use run_record::{Finished, GuestEnd, LastState, Limits, NoMemory, Record};
use shared_table::{Shared, SharedSeat, useful_threads};
use std::alloc::Global;
use std::sync::Wait;
use std::thread::Threads;
use tool_ports::Gate;

// The most rounds that are made: after them there is no memory. A budget of 8,000,000 instructions is spent before, as long as of two
// rounds, one after the other, one makes an instruction.
const ROUNDS: u32 = 16_000_002;

impl Rounds {
    // Rounds up to the end of the run.
    fn run<R: Threads + Wait + Sync, G: Gate + Sync, S: Suppressions>(
        &mut self,
        rt: &R,
        shared: &Shared,
        seat: &mut SharedSeat,
        new: &NewWorkers<'_, '_, G>,
        threads: usize,
        reporter: &mut Reporter<'_, S>,
    ) -> Result<GuestEnd, NoMemory>
        requires threads { 0 < threads }
        requires code { new.now.code.now ≡ new.now.image.now }
        requires limits { AreLimits new.now.limits.now }
        requires opener { IsOpener shared.now seat.old }
        requires table { IsTableOf new.now.image.now new.now.limits.now shared.now }
        requires between { IsBetween (is_met (S.rule_met reporter.old.rules)) new.now.image.now new.now.limits.now shared.now.layout
            seat.old.me.0 self.old reporter.old.kept }
        ensures opener { OnOk result (IsOpener shared.now seat.new) }
        ensures between { OnOk result (IsBetween (is_met (S.rule_met reporter.old.rules)) new.now.image.now new.now.limits.now
            shared.now.layout seat.new.me.0 self.new reporter.new.kept) }
        ensures end { IfOk result (λ end. self.new.reading.end ≡ Some end) }
    {
        for _ in 0..ROUNDS {
            if let Some(end) = self.reading.end {
                return Ok(end);
            }
            let made = self.make(rt, shared, seat, new, threads)?;
            self.close(
                rt, new.alloc, shared, seat, new.image, new.limits, made, reporter,
            )?;
        }
        Err(NoMemory)
    }
}

// What a run leaves that is over, with that end.
fn finished<S: Suppressions>(rounds: Rounds, end: GuestEnd, reporter: Reporter<'_, S>) -> Finished
    ensures entries { result.history.entries ≡ rounds.entries }
    ensures kept { kept_in result ≡ reporter.entry.kept }
    ensures output { result.output ≡ rounds.reading.output }
    ensures last { result.last ≡ record { threads = rounds.reading.made; rounds = rounds.round; era = rounds.last_era; end = end } }
{
    let Rounds {
        crew: _,
        entries,
        round,
        era: _,
        last_era,
        base: _,
        remaining: _,
        reading,
    } = rounds;
    let Reading {
        live: _,
        made,
        share: _,
        end: _,
        output,
    } = reading;
    let last = LastState {
        threads: made,
        rounds: round,
        era: last_era,
        end,
    };
    let suppressed = reporter.suppressed();
    let equal = reporter.equal();
    Finished {
        history: Record { entries },
        reports: reporter.into_reports(),
        suppressed,
        equal,
        output,
        last,
    }
}

/// The run of an image whose threads go at once, with the reports of its races that no rule suppresses.
pub fn run_rounds<'a, R: Threads + Wait + Sync, G: Gate + Sync, S: Suppressions>(
    rt: &R,
    alloc: Global,
    image: &'a Image<'_>,
    limits: &'a Limits,
    gate: &'a G,
    suppressions: &S,
) -> Result<Finished, NoMemory>
    requires { AreLimits limits.now }
    ensures { let meets = is_met (S.rule_met suppressions.now) in
        IfOk result (λ f. (plan : List Turn) → IsRun AtOnce image.now limits.now plan meets f) }
{
    image.accepted();
    let code = Code::new(alloc, &*image)?;
    let (shared, mut seat) = Shared::new(alloc, image, limits)?;
    let mut rounds = Rounds::new(alloc, limits)?;
    let mut reporter = Reporter::new(alloc, suppressions);
    let new = NewWorkers {
        alloc,
        image: &*image,
        code: &code,
        limits: &*limits,
        gate: &*gate,
    };
    let threads = useful_threads(rt);
    let end = rounds.run(rt, &shared, &mut seat, &new, threads, &mut reporter)?;
    shared.learn(&mut seat);
    Ok(finished(rounds, end, reporter))
}

// The rounds of a run.
ghost use Rattle.std.specs.Prelude.{true, ◌≡◌, ◌<◌, ◌≤◌, ◌+◌, ℕ, Bool, Option, IfOk, OnOk, IfSome, List, [], length, drop, option_map};
ghost use Rattle.run_record.specs.declared.plan.Turn.{Turn};
ghost use Rattle.bare_machine.specs.World.{lives};
ghost use Rattle.run_laws.specs.Faithful.{OneByOne};
ghost use Rattle.run_laws.specs.Rounds as rounds;
ghost use Rattle.machine_laws.specs.Machine.{bare_of};
ghost use Rattle.thread_turns.specs.Ranges.{AreLimits};
ghost use Rattle.step_engine.specs.Live.{live_of};
ghost use Rattle.step_engine.specs.Progress.{progress, due_of, limits_of, CanRound, MakesTurns, MakesRound, IsReady};
ghost use Rattle.report_text.specs.Offers.{is_met};
ghost use Rattle.whole_runs.specs.Told.{Told};
ghost use Rattle.whole_runs.specs.Run.{IsRun};

use crate::turns::{add_live, due_turn, keep_live, next_live};
use elf_image::Image;
use guest_code::Code;
use report_text::{Reporter, Suppressions};
use run_record::{
    Bytes, Entries, Finished, GuestEnd, LastState, Limits, NoMemory, Plan, Record, Turn,
};
use std::alloc::Global;
use thread_turns::{Part, TurnEnd, WatchedMachine};

/// How far a run is.
#[derive(Drop)]
struct Engine {
    watched: WatchedMachine,
    entries: Entries,
    // For the turns, one after another.
    part: Part,
    turn: usize,
    last: Option<u32>,
    round: u32,
    // The era of the last round.
    last_era: u32,
    remaining: u32,
}

/// The next round: whose it is, how many instructions it gives, and where the plan goes on.
#[derive(Clone, Copy)]
struct Due {
    tid: u32,
    given: u32,
    turn: usize,
}

impl Engine {
    fn new(alloc: Global, image: &Image<'_>, limits: &Limits) -> Result<Engine, NoMemory>
        requires { AreLimits limits.now }
        ensures start { IfOk result (λ e. (plan : List Turn) → progress e plan ≡ rounds.at_start limits.now plan) }
        ensures turn { IfOk result (λ e. e.turn ≡ 0) }
        ensures ready { IfOk result (IsReady image.now limits.now) }
        ensures told { IfOk result (λ e. (meets : Option (List ℕ) → Option (List ℕ) → Bool) → Told meets image.now limits.now e.entries (record { reports = []; suppressed = 0; equal = 0 })) }
    {
        Ok(Engine {
            watched: WatchedMachine::new(alloc, image, limits)?,
            entries: Entries::new(alloc),
            part: Part::new(alloc),
            turn: 0,
            last: None,
            round: 0,
            last_era: 0,
            remaining: limits.steps,
        })
    }

    // The next round, where these threads live.
    fn due(&self, limits: &Limits, plan: &[Turn], live: &[u32]) -> Option<Due>
        requires turn { self.now.turn ≤ length plan.now }
        requires live { live.now ≡ live_of self.now.watched.machine }
        ensures due { rounds.due_turn limits.now (live_of self.now.watched.machine) self.now.last self.now.remaining (rounds.from_live (lives self.now.watched.machine) (drop self.now.turn plan.now)) ≡ option_map due_of result }
        ensures can { IfSome result (CanRound self.now) }
        ensures turn { IfSome result (λ d. d.turn ≤ length plan.now) }
        ensures rest { IfSome result (λ d. drop d.turn plan.now ≡ drop 1 (rounds.from_live (lives self.now.watched.machine) (drop self.now.turn plan.now))) }
    {
        let at = due_turn(&self.watched.machine, plan, self.turn);
        if at < plan.len() {
            let turn = plan[at];
            return Some(Due {
                tid: turn.tid,
                given: turn.steps.min(self.remaining),
                turn: at + 1,
            });
        }
        let tid = next_live(live, self.last)?;
        Some(Due {
            tid,
            given: limits.quantum.min(self.remaining),
            turn: at,
        })
    }

    // The instructions of a round: turns of its thread, until it made as many as given, ended or was starved.
    // It counts as starved only where it made fewer than given.
    fn turns(
        &mut self,
        alloc: Global,
        image: &Image<'_>,
        code: &Code<'_>,
        due: Due,
    ) -> Result<TurnEnd, NoMemory>
        requires code { code.now ≡ image.now }
        requires can { CanRound self.old due }
        requires some { 0 < due.given }
        requires ready { IsReady image.now (limits_of self.old) self.old }
        ensures { IfOk result (MakesTurns image.now (limits_of self.old) self.old self.new due) }
    {
        let mut made = 0;
        let mut starved = false;
        'turns: while made < due.given && !starved && self.watched.machine.lives(due.tid) {
            let end = self.watched.take_turn(
                alloc,
                image,
                code,
                &mut self.entries,
                &mut self.part,
                self.round,
                due.tid,
                due.given - made,
            )?;
            made += end.steps;
            starved = end.starved;
        }
        Ok(TurnEnd {
            steps: made,
            starved: starved && made < due.given,
        })
    }

    // A round, whose reports are offered at its end.
    fn round<S: Suppressions>(
        &mut self,
        alloc: Global,
        image: &Image<'_>,
        code: &Code<'_>,
        reporter: &mut Reporter<'_, S>,
        due: Due,
    ) -> Result<(), NoMemory>
        requires code { code.now ≡ image.now }
        requires can { CanRound self.old due }
        requires some { 0 < due.given }
        requires ready { IsReady image.now (limits_of self.old) self.old }
        requires told { Told (is_met (S.rule_met reporter.old.rules)) image.now (limits_of self.old) self.old.entries reporter.old.kept }
        ensures made { OnOk result (MakesRound image.now (limits_of self.old) self.old self.new due) }
        ensures told { OnOk result (Told (is_met (S.rule_met reporter.old.rules)) image.now (limits_of self.old) self.new.entries reporter.new.kept) }
        ensures rules { reporter.new.rules ≡ reporter.old.rules }
    {
        image.accepted();
        let end = self.turns(alloc, image, code, due)?;
        self.watched.detector.tell(alloc, image, reporter)?;
        self.last_era = self.watched.detector.era();
        self.turn = due.turn;
        self.last = Some(due.tid);
        self.round += 1;
        self.remaining -= end.steps;
        if end.starved {
            self.watched.detector.next_era();
        }
        Ok(())
    }

    // Rounds up to the end of the run.
    fn run<S: Suppressions>(
        &mut self,
        alloc: Global,
        image: &Image<'_>,
        code: &Code<'_>,
        limits: &Limits,
        plan: &[Turn],
        reporter: &mut Reporter<'_, S>,
    ) -> Result<GuestEnd, NoMemory>
        requires code { code.now ≡ image.now }
        requires reached { rounds.Reaches OneByOne limits.now (bare_of image.now limits.now.harts) plan.now (progress self.old plan.now) }
        requires turn { self.old.turn ≤ length plan.now }
        requires ready { IsReady image.now limits.now self.old }
        requires told { Told (is_met (S.rule_met reporter.old.rules)) image.now limits.now self.old.entries reporter.old.kept }
        ensures reached { OnOk result (rounds.Reaches OneByOne limits.now (bare_of image.now limits.now.harts) plan.now (progress self.new plan.now)) }
        ensures ready { OnOk result (IsReady image.now limits.now self.new) }
        ensures told { OnOk result (Told (is_met (S.rule_met reporter.old.rules)) image.now limits.now self.new.entries reporter.new.kept) }
        ensures ends { IfOk result (rounds.Ends OneByOne limits.now (bare_of image.now limits.now.harts) (progress self.new plan.now)) }
    {
        let mut live = Vec::new(alloc);
        add_live(&self.watched.machine, &mut live, 0)?;
        'rounds: loop {
            if let Some(end) = self.watched.machine.ended() {
                return Ok(end);
            }
            let Some(due) = self.due(limits, plan, live.as_slice()) else {
                return Ok(GuestEnd::Budget);
            };
            if due.given == 0 {
                return Ok(GuestEnd::Budget);
            }
            let made = self.watched.machine.threads();
            self.round(alloc, image, code, reporter, due)?;
            keep_live(&self.watched.machine, &mut live);
            add_live(&self.watched.machine, &mut live, made)?;
        }
    }
}

/// The run of an image by a plan, with the reports of its races that no rule suppresses.
pub fn run_plan<S: Suppressions>(
    alloc: Global,
    image: &Image<'_>,
    limits: &Limits,
    plan: &Plan,
    suppressions: &S,
) -> Result<Finished, NoMemory>
    requires { AreLimits limits.now }
    ensures { let meets = is_met (S.rule_met suppressions.now) in
        IfOk result (IsRun OneByOne image.now limits.now plan.now meets) }
{
    image.accepted();
    let mut engine = Engine::new(alloc, image, limits)?;
    let mut reporter = Reporter::new(alloc, suppressions);
    let code = Code::new(alloc, image)?;
    let end = engine.run(alloc, image, &code, limits, plan.as_slice(), &mut reporter)?;
    let last = LastState {
        threads: engine.watched.machine.threads(),
        rounds: engine.round,
        era: engine.last_era,
        end,
    };
    let suppressed = reporter.suppressed();
    let equal = reporter.equal();
    Ok(Finished {
        history: Record {
            entries: engine.entries,
        },
        reports: reporter.into_reports(),
        suppressed,
        equal,
        output: Bytes::from_vec(engine.watched.machine.into_output()),
        last,
    })
}

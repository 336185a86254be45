// The end of a round.
ghost use Rattle.std.specs.Prelude.{◌≡◌, max, drop, All, OnOk, IfOk};
ghost use Rattle.run_record.specs.Order.{AreOrdered, AreDistinct, entries_in};
ghost use Rattle.run_laws.specs.Rounds.{steps_in};
ghost use Rattle.report_text.specs.Offers.{is_met};
ghost use Rattle.thread_turns.specs.Ranges.{AreLimits};
ghost use Rattle.bare_machine.specs.Step.{desk as desk_number};
ghost use Rattle.table_deeds.specs.Rounds.{greatest_in};
ghost use Rattle.part_races.specs.Sorting.{awaited_in};
ghost use Rattle.shared_table.specs.declared.object.Object.{Object as AnObject};
ghost use Rattle.shared_table.specs.Layouts.{IsTableOf};
ghost use Rattle.shared_table.specs.Past.{IsDeskOf, HasThreads};
ghost use Rattle.shared_table.specs.Steps.{Mine};
ghost use Rattle.shared_table.specs.Seats.{IsOpener, Took};
ghost use Rattle.hart_workers.specs.Tells.{CanTell};
ghost use Rattle.hart_workers.specs.Standing.{IsBetween, IsAtEnd};
ghost use Rattle.hart_workers.specs.Closing.{IsDeskIn, CanTellBy, EndsBy, EndsIn, EndsInTurn, GoesOnBy};

use crate::making::RoundMade;
use crate::pending::PendingList;
use crate::reading::{Reading, read_desk};
use crate::rounds::Rounds;
use crate::telling::tell_reports;
use elf_image::Image;
use hart_turns::ThreadState;
use report_text::{Reporter, Suppressions};
use run_record::{Entries, Limits, NoMemory};
use shared_table::{DeskState, Object, Shared, SharedSeat};
use std::alloc::Global;
use std::sync::Wait;

// The number of the desk.
const DESK: u32 = 64;

impl Rounds {
    /// The end of a round that was made: in a turn of the desk its reports are told, the next era begins where a thread was starved, and it
    /// is read what comes next. The entries join the history.
    pub(crate) fn close<R: Wait, S: Suppressions>(
        &mut self,
        rt: &R,
        alloc: Global,
        shared: &Shared,
        seat: &mut SharedSeat,
        image: &Image<'_>,
        limits: &Limits,
        made: RoundMade,
        reporter: &mut Reporter<'_, S>,
    ) -> Result<(), NoMemory>
        requires limits { AreLimits limits.now }
        requires opener { IsOpener shared.now seat.old }
        requires table { IsTableOf image.now limits.now shared.now }
        requires at_end { IsAtEnd (is_met (S.rule_met reporter.old.rules)) image.now limits.now shared.now.layout seat.old.me.0
            self.old made reporter.old.kept }
        ensures opener { OnOk result (IsOpener shared.now seat.new) }
        ensures between { OnOk result (IsBetween (is_met (S.rule_met reporter.old.rules)) image.now limits.now shared.now.layout
            seat.new.me.0 self.new reporter.new.kept) }
        ensures rules { reporter.new.rules ≡ reporter.old.rules }
    {
        let RoundMade {
            logs,
            pending,
            starved,
        } = made;
        self.go_on(alloc, logs.as_slice(), starved)?;
        let reading = end_in_turn(
            rt,
            alloc,
            shared,
            seat,
            image,
            limits,
            self.crew.states.as_slice(),
            pending,
            starved,
            self.remaining,
            reporter,
        )?;
        self.crew.grow(alloc, limits, reading.made)?;
        self.reading = reading;
        Ok(())
    }

    // The entries of the round join the history in order, its instructions are paid from the budget, and the next round is counted, in the
    // next era where the round ends one.
    fn go_on(&mut self, alloc: Global, logs: &[Entries], ends: bool) -> Result<(), NoMemory>
        requires ordered { All AreOrdered logs.now }
        requires distinct { AreDistinct (entries_in logs.now) }
        ensures onward { OnOk result (GoesOnBy logs.now ends self.old self.new) }
        ensures crew { OnOk result (self.new.crew ≡ self.old.crew) }
    {
        let from = self.entries.len();
        self.entries.append_merged(alloc, logs)?;
        let steps = count_from(&self.entries, from, &mut self.base)?;
        if self.remaining < steps || self.round == u32::MAX || self.era == u32::MAX {
            return Err(NoMemory);
        }
        self.remaining -= steps;
        self.round += 1;
        self.last_era = self.era;
        if ends {
            self.era += 1;
        }
        Ok(())
    }
}

// How many instructions the entries from that number on have. The base becomes the greatest stamp up to the last one.
fn count_from(entries: &Entries, from: usize, base: &mut u64) -> Result<u32, NoMemory>
    ensures base { OnOk result (base.new ≡ max base.old (greatest_in (drop from entries.now))) }
    ensures steps { IfOk result (λ steps. steps ≡ steps_in (drop from entries.now)) }
{
    let mut steps = 0u32;
    for n in from..entries.len() {
        let Some(head) = entries.head(n) else {
            return Err(NoMemory);
        };
        let Some(sum) = steps.checked_add(head.steps) else {
            return Err(NoMemory);
        };
        steps = sum;
        *base = head.stamp.max(*base);
    }
    Ok(steps)
}

// In a turn of the desk the reports are told, the next era begins where the round ends one, and the desk is read.
fn end_in_turn<R: Wait, S: Suppressions>(
    rt: &R,
    alloc: Global,
    shared: &Shared,
    seat: &mut SharedSeat,
    image: &Image<'_>,
    limits: &Limits,
    states: &[Option<ThreadState>],
    pending: PendingList,
    ends: bool,
    remaining: u32,
    reporter: &mut Reporter<'_, S>,
) -> Result<Reading, NoMemory>
    requires opener { IsOpener shared.now seat.old }
    requires limits { shared.now.layout.limits ≡ limits.now }
    requires tellable { (found : AnObject) (within : Mine) → Took desk_number seat.old.me found within
        → CanTellBy image.now states.now found (awaited_in pending) }
    ensures opener { IsOpener shared.now seat.new }
    ensures ended { IfOk result (EndsInTurn (is_met (S.rule_met reporter.old.rules)) image.now limits.now states.now (awaited_in pending) ends
        remaining reporter.old.kept reporter.new.kept seat.old.me seat.new.me) }
    ensures rules { reporter.new.rules ≡ reporter.old.rules }
{
    let mut object = shared.take(rt, seat, DESK);
    let reading = end_at(
        alloc,
        image,
        limits,
        states,
        pending,
        ends,
        remaining,
        &mut object,
        reporter,
    );
    shared.give(seat, DESK, object);
    reading
}

// The same, where the object is the desk.
fn end_at<S: Suppressions>(
    alloc: Global,
    image: &Image<'_>,
    limits: &Limits,
    states: &[Option<ThreadState>],
    pending: PendingList,
    ends: bool,
    remaining: u32,
    object: &mut Object,
    reporter: &mut Reporter<'_, S>,
) -> Result<Reading, NoMemory>
    requires desk { IsDeskIn limits.now object.old }
    requires tellable { CanTellBy image.now states.now object.old (awaited_in pending) }
    ensures desk { IsDeskIn limits.now object.new }
    ensures ended { IfOk result (EndsIn (is_met (S.rule_met reporter.old.rules)) image.now limits.now states.now (awaited_in pending) ends
        remaining reporter.old.kept reporter.new.kept object.old object.new) }
    ensures rules { reporter.new.rules ≡ reporter.old.rules }
{
    match object {
        Object::Desk(desk) => {
            end_by(
                alloc, image, limits, states, pending, ends, remaining, desk, reporter,
            )
        }
        _ => Err(NoMemory),
    }
}

// The same, of the desk.
fn end_by<S: Suppressions>(
    alloc: Global,
    image: &Image<'_>,
    limits: &Limits,
    states: &[Option<ThreadState>],
    pending: PendingList,
    ends: bool,
    remaining: u32,
    desk: &mut DeskState,
    reporter: &mut Reporter<'_, S>,
) -> Result<Reading, NoMemory>
    requires desk { IsDeskOf limits.now desk.old.desk }
    requires threads { HasThreads desk.old }
    requires tellable { CanTell image.now states.now desk.old.desk (awaited_in pending) }
    ensures desk { IsDeskOf limits.now desk.new.desk }
    ensures threads { HasThreads desk.new }
    ensures ended { IfOk result (EndsBy (is_met (S.rule_met reporter.old.rules)) image.now limits.now states.now (awaited_in pending) ends
        remaining reporter.old.kept reporter.new.kept desk.old desk.new) }
    ensures rules { reporter.new.rules ≡ reporter.old.rules }
{
    tell_reports(alloc, image, &desk.desk, states, pending, reporter)?;
    if ends {
        desk.desk.reset();
    }
    read_desk(alloc, desk, limits, remaining)
}

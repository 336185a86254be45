// One turn of a thread.
ghost use Rattle.std.specs.Prelude.{◌≡◌, ◌≤◌, ◌<◌, ◌+◌, true, false, None, [], length, IfOk, OnOk};
ghost use Rattle.bare_machine.specs.World.{lives};
ghost use Rattle.thread_turns.specs.Turned.{CanHearAll, HearsAll, IsTurnOf, IsNext, TriesNext, AdvancesAll, BeginsPlain, RunsPlain, BeginsPart, RunsPart};

use crate::{Part, WatchedMachine};
use bare_machine::{Plain, Stepped};
use detector::Detector;
use elf_image::Image;
use entry_calls::CallEvents;
use guest_code::Code;
use run_record::{Event, NoMemory};
use std::alloc::Global;

/// The detector hears the events of one instruction.
fn hear_all(
    detector: &mut Detector,
    alloc: Global,
    image: &Image<'_>,
    tid: u32,
    events: &[Event],
    part: &mut Part,
) -> Result<(), NoMemory>
    requires can { CanHearAll image.now tid events.now part.old detector.old }
    ensures { OnOk result (HearsAll image.now tid events.now part.old part.new detector.old detector.new) }
{
    for event in events {
        detector.room(tid)?;
        let place = part.events.len() as u32;
        part.spent = detector.hear(alloc, image, tid, place, event, &mut part.checks)?;
        part.events.push(*event)?;
    }
    Ok(())
}

impl WatchedMachine {
    // The thread makes its next instruction, where it has a label or needs none. Says whether it did.
    fn instruction(
        &mut self,
        alloc: Global,
        image: &Image<'_>,
        code: &Code<'_>,
        tid: u32,
        part: &mut Part,
    ) -> Result<bool, NoMemory>
        requires code { code.now ≡ image.now }
        requires unused { part.old.used ≡ false }
        requires next { IsNext image.now tid part.old self.old }
        ensures { IfOk result (λ made. TriesNext image.now tid made part.old part.new self.old self.new) }
    {
        let labelled = self.detector.label(tid).is_some();
        let mut made = CallEvents::new();
        let object = match self.machine.step(code, tid, labelled, &mut made)? {
            Stepped::Made(object) => object,
            Stepped::NeedsSlot => return Ok(false),
        };
        let events = made.as_slice();
        if labelled {
            hear_all(&mut self.detector, alloc, image, tid, events, part)?;
        } else {
            part.events.extend_from_slice(events)?;
        }
        part.steps += 1;
        part.used = object.is_some();
        Ok(true)
    }

    // The thread makes its next instruction, for which it takes a label where it needs one and has none. Says whether it could.
    fn advance(
        &mut self,
        alloc: Global,
        image: &Image<'_>,
        code: &Code<'_>,
        tid: u32,
        part: &mut Part,
    ) -> Result<bool, NoMemory>
        requires code { code.now ≡ image.now }
        requires unused { part.old.used ≡ false }
        requires turn { IsTurnOf image.now tid part.old self.old }
        ensures { IfOk result (λ made. AdvancesAll image.now tid made part.old part.new self.old self.new) }
    {
        if self.instruction(alloc, image, code, tid, part)? {
            return Ok(true);
        }
        self.detector.room(tid)?;
        part.attached = self.detector.attach(tid);
        if part.attached.is_none() {
            return Ok(false);
        }
        self.instruction(alloc, image, code, tid, part)
    }

    // The thread's next instruction, where it is one without events that needs no label.
    fn make_plain(&mut self, code: &Code<'_>, tid: u32, part: &mut Part)
        requires unused { part.old.used ≡ false }
        requires turn { IsTurnOf code.now tid part.old self.old }
        ensures { RunsPlain code.now tid (part.old.steps + 1) part.old part.new self.old self.new }
    {
        match self.machine.make_plain(code, tid) {
            Plain::Nothing => {}
            Plain::Registers => part.steps += 1,
            Plain::Word => {
                part.steps += 1;
                part.used = true;
            }
        }
    }

    // The thread's next instructions, as long as they touch its registers alone and the turn gives more.
    fn run_locals(&mut self, code: &Code<'_>, tid: u32, most: u32, part: &mut Part)
        requires unused { part.old.used ≡ false }
        requires few { part.old.steps ≤ most }
        requires turn { IsTurnOf code.now tid part.old self.old }
        ensures goes { RunsPlain code.now tid most part.old part.new self.old self.new }
        ensures unused { part.new.used ≡ false }
        ensures few { part.new.steps ≤ most }
    {
        part.steps += self.machine.run_locals(code, tid, most - part.steps);
    }

    // The same, and one behind them that loads or stores a word, if it is the next.
    fn run_plain(&mut self, code: &Code<'_>, tid: u32, most: u32, part: &mut Part)
        requires unused { part.old.used ≡ false }
        requires few { part.old.steps < most }
        requires turn { BeginsPlain code.now tid most part.old self.old }
        ensures { RunsPlain code.now tid most part.old part.new self.old self.new }
    {
        self.run_locals(code, tid, most, part);
        if part.steps < most {
            self.make_plain(code, tid, part);
        }
    }

    // The instructions of a turn, at most so many. Says whether they ended since no slot was free.
    pub(crate) fn run_part(
        &mut self,
        alloc: Global,
        image: &Image<'_>,
        code: &Code<'_>,
        tid: u32,
        most: u32,
        part: &mut Part,
    ) -> Result<bool, NoMemory>
        requires code { code.now ≡ image.now }
        requires some { 1 ≤ most }
        requires turn { BeginsPart image.now tid most part.old self.old }
        ensures { IfOk result (λ stopped. RunsPart image.now tid most stopped part.old part.new self.old self.new) }
    {
        let mut stopped = false;
        'steps: while !stopped && !part.used && part.steps < most {
            self.run_plain(code, tid, most, part);
            if part.used || part.steps == most {
                continue 'steps;
            }
            if !self.advance(alloc, image, code, tid, part)? {
                stopped = true;
            }
        }
        Ok(stopped)
    }
}

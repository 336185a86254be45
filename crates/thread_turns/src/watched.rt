// A machine and the detector that watches it.
ghost use Rattle.std.specs.Prelude.{◌≡◌, ◌<◌, ◌≤◌, ◌+◌, ◌*◌, ◌^◌, true, [], length, IfOk, OnErr};
ghost use Rattle.bare_machine.specs.World.{lives};
ghost use Rattle.turn_laws.specs.Turns.{GoesOn};
ghost use Rattle.machine_laws.specs.Machine.{bare_of};
ghost use Rattle.thread_turns.specs.Ranges.{AreLimits};
ghost use Rattle.thread_turns.specs.Follows.{Follows, IsFollowing, moments_by, TakesTurn};

use crate::Part;
use crate::entries::push_turn;
use bare_machine::Machine;
use detector::Detector;
use elf_image::Image;
use guest_code::Code;
use run_record::{Entries, Limits, NoMemory};
use std::alloc::Global;

/// A machine, and the detector that hears its events.
#[derive(Drop)]
pub struct WatchedMachine {
    pub machine: Machine,
    pub detector: Detector,
}

/// How a turn of a thread ended: how many instructions it had, and whether it ended since its next
/// instruction needs a slot and none is free.
#[derive(Clone, Copy)]
pub struct TurnEnd {
    pub steps: u32,
    pub starved: bool,
}

impl WatchedMachine {
    /// The machine at its start, watched from there.
    pub fn new(
        alloc: Global,
        image: &Image<'_>,
        limits: &Limits,
    ) -> Result<WatchedMachine, NoMemory>
        requires { AreLimits limits.now }
        ensures follows { IfOk result (λ w. Follows image.now limits.now 0 0 [] w) }
        ensures era { IfOk result (λ w. w.detector.era ≡ 0) }
    {
        Ok(WatchedMachine {
            machine: Machine::new(alloc, image, limits.harts)?,
            detector: Detector::new(alloc, image, limits)?,
        })
    }

    /// The thread makes at most so many instructions in that round, of the image and its decoded
    /// instructions, up to one that uses an object. They are gathered in the part, whatever it held,
    /// and the entries of the turn are appended. After an error none of them is, and machine and
    /// detector are of no more use.
    pub fn take_turn(
        &mut self,
        alloc: Global,
        image: &Image<'_>,
        code: &Code<'_>,
        entries: &mut Entries,
        part: &mut Part,
        round: u32,
        tid: u32,
        most: u32,
    ) -> Result<TurnEnd, NoMemory>
        requires code { code.now ≡ image.now }
        requires lives { lives self.old.machine tid ≡ true }
        requires some { 1 ≤ most }
        requires following { IsFollowing image.now round entries.old self.old }
        requires goes_on { GoesOn (bare_of image.now self.old.detector.limits.harts) entries.old tid round }
        requires room { length (moments_by round entries.old self.old) + 8 * most < 2 ^ 32 }
        ensures turn { IfOk result (TakesTurn image.now round tid most entries.old entries.new self.old self.new) }
        ensures err { OnErr result (entries.new ≡ entries.old) }
    {
        self.detector.resume(tid);
        let era = self.detector.era();
        part.clear();
        let starved = self.run_part(alloc, image, code, tid, most, part)?;
        let steps = part.steps;
        if steps > 0 {
            if part.spent.is_some() {
                self.detector.leave(tid);
            }
            push_turn(entries, round, era, tid, part)?;
        }
        Ok(TurnEnd { steps, starved })
    }
}

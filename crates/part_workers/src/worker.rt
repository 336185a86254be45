// A worker of a round.
ghost use Rattle.std.specs.Prelude.{◌≡◌, [], OnOk};
ghost use Rattle.shared_table.specs.Seats.{IsSeatOf, IsFree};
ghost use Rattle.part_workers.specs.Works.{CanWork, Makes};

use crate::part::{PartSoFar, Post};
use crate::rest::tell_rest;
use crate::share::make_share;
use elf_image::Image;
use guest_code::Code;
use hart_turns::ThreadState;
use run_record::{Limits, NoMemory};
use shared_table::{Shared, SharedSeat, Worker};
use std::alloc::Global;
use std::sync::Wait;
use tool_ports::{Gate, Point};
use vector_clock::Clock;

/// The worker of one thread in one round. It borrows what all of them share.
#[derive(Drop)]
pub struct HartWorker<'a, 'b, G> {
    pub alloc: Global,
    pub image: &'a Image<'b>,
    pub code: &'a Code<'b>,
    pub limits: &'a Limits,
    pub gate: &'a G,
    pub post: Post,
    /// How many instructions it may make.
    pub share: u32,
    /// The thread, before the part and after it.
    pub state: ThreadState,
    /// What it has told. Before the part that is nothing, with the greatest stamp so far.
    pub part: PartSoFar,
    /// Whether the thread needed a slot and found none.
    pub starved: bool,
    /// Whether memory ran out, or a test failed. Nothing is said of the part then.
    pub failed: bool,
}

// A clock of the run's slots, for what is given to a thread that arrives. Of limits that are none of a run there is none.
fn new_clock(alloc: Global, limits: &Limits) -> Result<Clock, NoMemory> {
    if limits.slots == 0 || limits.slots > 255 {
        return Err(NoMemory);
    }
    Clock::new(alloc, limits.slots)
}

impl<'a, 'b, G: Gate> HartWorker<'a, 'b, G> {
    // It makes its part, and tells all of it.
    fn make_part<R: Wait>(
        &mut self,
        rt: &R,
        shared: &Shared,
        seat: &mut SharedSeat,
    ) -> Result<(), NoMemory>
        requires own { IsSeatOf shared.now seat.old }
        requires free { IsFree seat.old.me }
        requires new { seat.old.me.0.log ≡ [] }
        requires can { CanWork shared.now self.old }
        ensures own { IsSeatOf shared.now seat.new }
        ensures free { IsFree seat.new.me }
        ensures number { seat.new.me.0.number ≡ seat.old.me.0.number }
        ensures post { self.new.post ≡ self.old.post }
        ensures makes { OnOk result (Makes self.old seat.new.me.0.log self.new) }
    {
        self.state.watcher.enter_era(self.post.era);
        let mut given = new_clock(self.alloc, self.limits)?;
        self.starved = make_share(
            rt,
            self.alloc,
            shared,
            seat,
            self.gate,
            self.image,
            self.code,
            self.limits,
            &self.post,
            self.share,
            &mut self.state,
            &mut given,
            &mut self.part,
        )?;
        tell_rest(self.alloc, &self.post, &mut self.part)?;
        if self.state.watcher.clock_ref().slots() != self.limits.slots as usize {
            return Err(NoMemory);
        }
        Ok(())
    }
}

impl<'a, 'b, G: Gate + Sync> Worker for HartWorker<'a, 'b, G> {
    ghost use Rattle.part_workers.specs.Works as works;

    ghost can_work = { λ t w. works.CanWork t w };

    ghost works = { λ t w log after. works.Works t w log after };

    fn work<R: Wait>(&mut self, rt: &R, shared: &Shared, seat: &mut SharedSeat) {
        self.gate.at(Point::Quantum(self.post.tid));
        self.failed = self.make_part(rt, shared, seat).is_err();
    }
}

// The detector.
ghost use Rattle.std.specs.Prelude.{◌≡◌, ◌<◌, ◌≤◌, ◌-◌, ◌^◌, [], None, true, ◌*◌, replicate, length, slice_index, IsSomeAnd, IfSome, IfNone, IfOk, OnOk};
ghost use Rattle.elf_image.specs.File.{granules_of};
ghost use Rattle.slot_desk.specs.Desks.{thread_of, held_of};
ghost use Rattle.slot_desk.specs.Steps.{AreDeskLimits, new_desk};
ghost use Rattle.race_core.specs.Watched.{AreWatcherLimits};
ghost use Rattle.detector.specs.Detected.{watcher_of, after_resume, after_room, room_of, after_leave, after_era, Takes};
ghost use Rattle.hart_events.specs.Events.{FrontIsFree};
ghost use Rattle.detector.specs.Stands.{Stands};

use elf_image::Image;
use hart_events::{Attaching, attach};
use race_core::{Candidate, Watcher};
use run_record::{Label, Limits, NoMemory};
use slot_desk::Desk;
use std::alloc::Global;
use std::marker::Model;
use sync_slab::SyncSet;

/// What is kept of a run: who holds which slot, what is known to each thread, what was released where, and
/// the words of the last accesses of each granule.
#[derive(Drop)]
pub struct Detector {
    pub(crate) limits: Limits,
    pub(crate) era: u32,
    pub(crate) desk: Desk,
    pub(crate) objects: SyncSet,
    pub(crate) watchers: Vec<Watcher>,
    // Four words a granule.
    pub(crate) shadow: Vec<u64>,
    // The accesses of this round that have a candidate.
    pub(crate) waiting: Vec<Candidate>,
}

impl Model for Detector {
    ghost use Rattle.detector.specs.Detected.{Detected};

    ghost Value = { Detected };

    ghost view = { λ d. record {
      limits = d.limits;
      era = d.era;
      desk = d.desk;
      objects = d.objects;
      watchers = d.watchers.items;
      shadow = d.shadow.items;
      waiting = d.waiting.items;
    } };
}

/// Four empty words for each granule.
fn empty_words(alloc: Global, granules: u32) -> Result<Vec<u64>, NoMemory>
    ensures { IfOk result (λ words. words.items ≡ replicate (4 * granules) 0) }
{
    Ok(vec![in alloc; 0; 4 * granules as usize]?)
}

impl Detector {
    /// The detector of a run of the image that begins.
    pub fn new(alloc: Global, image: &Image<'_>, limits: &Limits) -> Result<Detector, NoMemory>
        requires desk { AreDeskLimits limits.now }
        requires watcher { AreWatcherLimits limits.now }
        ensures stands { IfOk result (λ d. Stands (granules_of image.now) limits.now 0 None [] d) }
        ensures first { IfOk result (λ d. d.desk ≡ new_desk limits.now) }
    {
        let main = Watcher::new(alloc, 0, limits)?;
        let mut watchers = Vec::new(alloc);
        watchers.push(main)?;
        Ok(Detector {
            limits: *limits,
            era: 0,
            desk: Desk::new(alloc, limits)?,
            objects: SyncSet::new(alloc, limits.slots)?,
            watchers,
            shadow: empty_words(alloc, image.granules())?,
            waiting: Vec::new(alloc),
        })
    }

    /// The present era.
    pub fn era(&self) -> u32
        ensures { result ≡ self.now.era }
    {
        self.era
    }

    /// The thread goes on in the present era.
    pub fn resume(&mut self, tid: u32)
        requires { tid < length self.old.watchers }
        ensures { self.new ≡ after_resume self.old tid }
    {
        self.watchers[tid as usize].enter_era(self.era);
    }

    /// The thread's label, if it has a slot.
    pub fn label(&self, tid: u32) -> Option<Label>
        requires { tid < length self.now.watchers }
        ensures { result ≡ (watcher_of self.now tid).label }
    {
        self.watchers[tid as usize].label()
    }

    /// Makes room for the thread's next event, and for as many as one instruction has where there was none. So it makes room
    /// once in a turn for several events. Where there is room it changes nothing.
    #[inline(always)]
    pub fn room(&mut self, tid: u32) -> Result<(), NoMemory>
        requires { tid < length self.old.watchers }
        ensures events { OnOk result (0 < (watcher_of self.new tid).trace.spare) }
        ensures room { OnOk result (1 ≤ self.new.objects.spare) }
        ensures rest { OnOk result (self.new ≡ after_room self.old tid (room_of self.new tid)) }
    {
        self.watchers[tid as usize].keep_room()?;
        self.objects.reserve_one()
    }

    /// The thread takes the slot at the queue's front; none where the queue is empty.
    pub fn attach(&mut self, tid: u32) -> Option<Label>
        requires watched { tid < length self.old.watchers }
        requires live { (thread_of self.old.desk tid).lives ≡ true }
        requires unheld { held_of self.old.desk tid ≡ None }
        requires slots { length (watcher_of self.old tid).clock ≡ length self.old.desk.slots }
        requires front { FrontIsFree (watcher_of self.old tid).greatest self.old.desk }
        requires era { (watcher_of self.old tid).era ≡ self.old.era }
        requires greatest { (watcher_of self.old tid).greatest ≡ self.old.limits.epochs }
        requires spare { 0 < (watcher_of self.old tid).trace.spare }
        requires count { (watcher_of self.old tid).trace.count < 2 ^ 64 - 1 }
        ensures none { IfNone result ((self.old.desk.queue ≡ []) × (self.new ≡ self.old)) }
        ensures some { IfSome result (Takes self.old self.new tid) }
    {
        let watcher = &mut self.watchers[tid as usize];
        match attach(watcher, &mut self.desk, tid, self.limits.epochs) {
            Attaching::Took(label) => Some(label),
            Attaching::NoneFree => None,
            Attaching::Refused => unreachable!(),
        }
    }

    /// The thread leaves the slot that it spent.
    pub fn leave(&mut self, tid: u32)
        requires watched { tid < length self.old.watchers }
        requires live { (thread_of self.old.desk tid).lives ≡ true }
        requires slots { length (watcher_of self.old tid).clock ≡ length self.old.desk.slots }
        requires greatest { IsSomeAnd (held_of self.old.desk tid) (λ h. slice_index (watcher_of self.old tid).clock h.0 ≡ self.old.desk.greatest) }
        ensures { self.new ≡ after_leave self.old tid }
    {
        let watcher = &self.watchers[tid as usize];
        self.desk.detach(tid, watcher.clock_ref());
    }

    /// An era begins: slots, clocks and objects are as at first.
    pub fn next_era(&mut self)
        requires { self.old.era < 2 ^ 32 - 1 }
        ensures { self.new ≡ after_era self.old }
    {
        self.era += 1;
        self.desk.reset();
    }
}

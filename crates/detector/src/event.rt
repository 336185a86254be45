// One event of a thread.
ghost use Rattle.std.specs.Prelude.{◌≡◌, ◌<◌, ◌≤◌, ◌-◌, ◌^◌, length, IfOk};
ghost use Rattle.elf_image.specs.File.{granules_of};
ghost use Rattle.detector.specs.Detected.{watcher_of, IsGoing};
ghost use Rattle.detector.specs.Checking.{IsStanding};
ghost use Rattle.detector.specs.Hears.{CanHear, Hears};

use crate::Detector;
use elf_image::Image;
use hart_events::{acquire, end, hear_alone, join, release};
use run_record::{CheckList, Event, Label, NoMemory};
use std::alloc::Global;

impl Detector {
    /// The thread makes an event, the one at that place of its entry. Its checks are appended. Where
    /// it spends the label of the thread, that is told: the thread is to leave its slot.
    pub fn hear(
        &mut self,
        alloc: Global,
        image: &Image<'_>,
        tid: u32,
        place: u32,
        event: &Event,
        checks: &mut CheckList,
    ) -> Result<Option<Label>, NoMemory>
        requires going { IsGoing self.old tid }
        requires stands { IsStanding (granules_of image.now) self.old }
        requires can { CanHear self.old tid event.now }
        requires spare { 0 < (watcher_of self.old tid).trace.spare }
        requires count { (watcher_of self.old tid).trace.count < 2 ^ 64 - 1 }
        requires objects { 1 ≤ self.old.objects.spare }
        ensures heard { IfOk result (Hears image.now self.old.limits self.old self.new tid place event.now checks.old checks.new) }
    {
        match *event {
            Event::Begin => self.begin(tid),
            Event::Create(child) => {
                let spent = self.create(alloc, tid, child)?;
                return Ok(spent);
            }
            Event::End => end(&mut self.watchers[tid as usize], &mut self.desk, tid),
            Event::Join(of) => {
                join(&mut self.watchers[tid as usize], &mut self.desk, of);
            }
            Event::Acquire { addr, part } => {
                acquire(&mut self.watchers[tid as usize], &self.objects, addr, part);
            }
            Event::Release {
                addr,
                part,
                replaces,
            } => {
                let watcher = &mut self.watchers[tid as usize];
                let spent = release(watcher, &mut self.objects, addr, part, replaces);
                return Ok(spent);
            }
            Event::Destroy { addr } => self.objects.destroy(addr),
            Event::Clear { addr } => self.objects.clear(addr),
            Event::Access { .. } => self.access(image, tid, place, event, checks)?,
            Event::Enter(_) | Event::Leave | Event::Lock { .. } | Event::Unlock { .. } => {
                hear_alone(&mut self.watchers[tid as usize], event);
            }
            Event::Put { .. } => {}
        }
        Ok(None)
    }
}

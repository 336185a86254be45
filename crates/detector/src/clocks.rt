// Events by which a thread begins or makes another.
ghost use Rattle.std.specs.Prelude.{◌≡◌, ◌<◌, true, length, IfOk, OnOk};
ghost use Rattle.run_record.specs.declared.event.Event.TheVariants.{Begin, Create};
ghost use Rattle.run_record.specs.declared.limits.Limits.{Limits};
ghost use Rattle.slot_desk.specs.Desks.{thread_of};
ghost use Rattle.race_core.specs.Watched.{AreWatcherLimits};
ghost use Rattle.hart_events.specs.Events.{MayRaise, lost_after};
ghost use Rattle.detector.specs.Detected.{watcher_of, after_event};

use crate::Detector;
use race_core::Watcher;
use run_record::{Label, NoMemory};
use std::alloc::Global;

impl Detector {
    /// The thread begins with what its creator knew.
    pub(crate) fn begin(&mut self, tid: u32)
        requires watched { tid < length self.old.watchers }
        requires live { (thread_of self.old.desk tid).lives ≡ true }
        requires slots { length (watcher_of self.old tid).clock ≡ length self.old.desk.slots }
        ensures { self.new ≡ after_event self.old tid Begin self.old.objects }
    {
        let watcher = &mut self.watchers[tid as usize];
        self.desk.begin(tid, watcher.clock());
    }

    /// The thread makes another, which will begin with what it knows.
    pub(crate) fn create(
        &mut self,
        alloc: Global,
        tid: u32,
        child: u32,
    ) -> Result<Option<Label>, NoMemory>
        requires watched { tid < length self.old.watchers }
        requires live { (thread_of self.old.desk tid).lives ≡ true }
        requires slots { length (watcher_of self.old tid).clock ≡ length self.old.desk.slots }
        requires limits { AreWatcherLimits self.old.limits }
        requires may { MayRaise (watcher_of self.old tid) }
        ensures value { IfOk result (λ spent. spent ≡ lost_after (Create child) (watcher_of self.old tid)) }
        ensures new { OnOk result (self.new ≡ after_event self.old tid (Create child) self.old.objects) }
    {
        let made = Watcher::new(alloc, child, &self.limits)?;
        let watcher = &mut self.watchers[tid as usize];
        let heard = hart_events::create(watcher, &mut self.desk, tid, child);
        self.watchers.push(made)?;
        Ok(heard.spent)
    }
}

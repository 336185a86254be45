// A slot that is taken.
ghost use Rattle.std.specs.Prelude.{◌≡◌, ◌<◌, ◌-◌, ◌^◌, true, [], None, length};
ghost use Rattle.slot_desk.specs.Desks.{thread_of, held_of};
ghost use Rattle.hart_events.specs.Events.{FrontIsFree, TookSlot, IfTook, IfNoneFree, IfRefused};

use race_core::Watcher;
use run_record::Label;
use slot_desk::{Attached, Desk};

/// What came of asking the desk for a slot.
#[derive(Clone, Copy)]
pub enum Attaching {
    /// The slot at the queue's front, by its label.
    Took(Label),
    /// The queue is empty, and nothing has changed.
    NoneFree,
    /// The slot at the front has no epoch left, which is so of no slot in the queue of a run. Desk and watcher are of no use afterwards.
    Refused,
}

/// The thread takes the slot at the queue's front, and gets its label. `greatest` is the greatest epoch of a slot.
pub fn attach(watcher: &mut Watcher, desk: &mut Desk, tid: u32, greatest: u16) -> Attaching
    requires live { (thread_of desk.old tid).lives ≡ true }
    requires unheld { held_of desk.old tid ≡ None }
    requires slots { length watcher.old.clock ≡ length desk.old.slots }
    requires greatest { greatest ≡ watcher.old.greatest }
    requires spare { 0 < watcher.old.trace.spare }
    requires count { watcher.old.trace.count < 2 ^ 64 - 1 }
    ensures none { IfNoneFree result ((desk.old.queue ≡ []) × (desk.new ≡ desk.old) × (watcher.new ≡ watcher.old)) }
    ensures took { IfTook result (TookSlot desk.old watcher.old tid desk.new watcher.new) }
    ensures refused { IfRefused result (FrontIsFree greatest desk.old → ⊥) }
{
    match desk.attach(tid, watcher.clock()) {
        Attached::None => Attaching::NoneFree,
        Attached::Slot(sid, epoch) => {
            if sid == 255 || epoch > greatest {
                return Attaching::Refused;
            }
            let label = Label {
                sid,
                epoch,
                era: watcher.era(),
            };
            watcher.take_label(label);
            Attaching::Took(label)
        }
    }
}

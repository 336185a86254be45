// A thread that takes a slot at the desk, or leaves it.
ghost use Rattle.std.specs.Prelude.{◌≡◌, ◌<◌, ◌-◌, ◌^◌, ℕ, true, [], None, List, replicate, length, IfOk};
ghost use Rattle.race_core.specs.Watched.{Watched};
ghost use Rattle.shared_table.specs.Past.{IsDeskOf, HasThreads};
ghost use Rattle.hart_events.specs.Events.{IfTook, IfNoneFree, TookSlot};
ghost use Rattle.slot_desk.specs.Desks.{thread_of, held_of};
ghost use Rattle.slot_desk.specs.Steps.{after_attach};
ghost use Rattle.hart_turns.specs.Slots.{MayTake, Arrives, IsGivenTo, KeepsDesk, TookAt, IsUntaken, MayLeave, LeftAt};

use hart_events::Attaching;
use hart_steps::Hart;
use race_core::Watcher;
use run_record::{Label, Limits, NoMemory};
use shared_table::DeskState;
use slot_desk::{Attached, Desk};
use vector_clock::Clock;

/// What a worker keeps of its thread: its registers, once it has arrived, and its watcher.
#[derive(Drop)]
pub struct ThreadState {
    pub hart: Option<Hart>,
    pub watcher: Watcher,
}

// Whether the thread, which was made and lives, may take a slot: it has none.
fn may_take(watcher: &Watcher, desk: &DeskState, slots: u32, tid: u32) -> bool
    ensures { result ≡ true → MayTake slots watcher.now desk.now tid }
{
    if watcher.label().is_some() || watcher.clock_ref().slots() != slots as usize {
        return false;
    }
    if watcher.trace().count() == u64::MAX || tid as usize >= desk.machine.made.len() {
        return false;
    }
    desk.desk.lives(tid) && desk.desk.held(tid).is_none()
}

// A thread that hasn't arrived takes what its creator left for it, and itself as it was made.
fn arrive(hart: &mut Option<Hart>, desk: &mut DeskState, tid: u32, given: &mut Clock)
    requires made { tid < length desk.old.machine.made }
    requires lives { (thread_of desk.old.desk tid).lives ≡ true }
    requires slots { length given.old ≡ length desk.old.desk.slots }
    ensures desk { desk.new ≡ desk.old }
    ensures hart { Arrives desk.old tid hart.old hart.new }
    ensures given { IsGivenTo desk.old tid hart.old given.old given.new }
{
    if let None = hart {
        desk.desk.begin(tid, given);
        *hart = Some(Hart::arrive(&desk.machine, tid));
    }
}

// The thread takes the slot at the queue's front, and gets its label. Where the slot has no epoch left, which is so of no slot in the
// queue of a run, the desk gives it all the same, but the thread gets no label.
fn take_front(watcher: &mut Watcher, desk: &mut Desk, tid: u32, greatest: u16) -> Attaching
    requires live { (thread_of desk.old tid).lives ≡ true }
    requires unheld { held_of desk.old tid ≡ None }
    requires slots { length watcher.old.clock ≡ length desk.old.slots }
    requires greatest { greatest ≡ watcher.old.greatest }
    requires spare { 0 < watcher.old.trace.spare }
    requires count { watcher.old.trace.count < 2 ^ 64 - 1 }
    ensures none { IfNoneFree result ((desk.old.queue ≡ []) × (desk.new ≡ desk.old) × (watcher.new ≡ watcher.old)) }
    ensures took { IfTook result (TookSlot desk.old watcher.old tid desk.new watcher.new) }
    ensures desk { desk.new ≡ after_attach desk.old tid }
{
    match desk.attach(tid, watcher.clock()) {
        Attached::None => Attaching::NoneFree,
        Attached::Slot(sid, epoch) => {
            if sid == 255 || epoch > greatest {
                return Attaching::Refused;
            }
            let label = Label {
                sid,
                epoch,
                era: watcher.era(),
            };
            watcher.take_label(label);
            Attaching::Took(label)
        }
    }
}

/// The thread takes the slot at the queue's front, and gets its label. Where it hasn't arrived, it arrives, and `given`, an empty
/// clock, becomes what its creator left for it. `Refused` tells that the desk has the thread not as it should, or the slot; the
/// thread is of no use then. Whatever comes of it, the desk is one that can be given back.
pub fn take_slot(
    state: &mut ThreadState,
    desk: &mut DeskState,
    limits: &Limits,
    tid: u32,
    given: &mut Clock,
) -> Result<Attaching, NoMemory>
    requires desk { IsDeskOf limits.now desk.old.desk }
    requires greatest { limits.now.epochs ≡ state.old.watcher.greatest }
    requires given { length given.old ≡ limits.now.slots }
    ensures took { IfOk result (λ r. IfTook r (TookAt limits.now tid state.old state.new desk.old desk.new given.old given.new)) }
    ensures none { IfOk result (λ r. IfNoneFree r (IsUntaken state.old state.new desk.old desk.new)) }
    ensures kept { KeepsDesk limits.now desk.old desk.new }
{
    if !may_take(&state.watcher, desk, limits.slots, tid) {
        return Ok(Attaching::Refused);
    }
    state.watcher.room()?;
    let taking = take_front(&mut state.watcher, &mut desk.desk, tid, limits.epochs);
    let Attaching::Took(label) = taking else {
        return Ok(taking);
    };
    if u32::from(label.sid) >= limits.slots {
        return Ok(Attaching::Refused);
    }
    arrive(&mut state.hart, desk, tid, given);
    Ok(taking)
}

// Whether the desk has it that the thread lives and holds the slot of the label, whose greatest epoch is over.
fn may_leave(watcher: &Watcher, desk: &Desk, tid: u32, label: Label, greatest: u16) -> bool
    requires slots { length watcher.now.clock ≡ length desk.now.slots }
    requires greatest { greatest ≡ desk.now.greatest }
    ensures { result ≡ true → MayLeave watcher.now desk.now tid label }
{
    if !desk.lives(tid) || watcher.label().is_some() {
        return false;
    }
    match desk.held(tid) {
        Some((sid, _)) => sid == label.sid && watcher.clock_ref().get(sid) == greatest,
        None => false,
    }
}

/// The thread leaves the slot of the label that it lost. It tells whether the desk let it; if not, that has it not as it should.
pub fn leave_slot(
    watcher: &Watcher,
    desk: &mut DeskState,
    limits: &Limits,
    tid: u32,
    label: Label,
) -> bool
    requires desk { IsDeskOf limits.now desk.old.desk }
    requires slots { length watcher.now.clock ≡ limits.now.slots }
    ensures left { result ≡ true → LeftAt limits.now tid label watcher.now desk.old desk.new }
    ensures kept { KeepsDesk limits.now desk.old desk.new }
{
    if !may_leave(watcher, &desk.desk, tid, label, limits.epochs) {
        return false;
    }
    desk.desk.detach(tid, watcher.clock_ref());
    true
}

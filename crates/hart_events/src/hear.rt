// One event of a thread with a label.
ghost use Rattle.std.specs.Prelude.{◌≡◌, ◌<◌, ◌≤◌, ◌-◌, ◌^◌, ℕ, true, List, Option, Some, length};
ghost use Rattle.run_record.specs.declared.event.Event.TheVariants.{Begin, Acquire, Release, Create, End, Join};
ghost use Rattle.slot_desk.specs.Desks.{DeskContents, thread_of};
ghost use Rattle.sync_slab.specs.Objects.{SyncObjects};
ghost use Rattle.race_core.specs.Watched.{CanBeNoted};
ghost use Rattle.thread_events.specs.Heard.{raised_or_lost, lost_label, watcher_after, desk_after, ObjectsAfter, IsGranted};
ghost use Rattle.hart_events.specs.Events.{MayRaise, MayEnd, IsAlone, IsOfChannel, IsOfDesk, lost_after};

use race_core::Watcher;
use run_record::{Event, Label, Part};
use slot_desk::{Created, Desk, Joined};
use sync_slab::SyncSet;
use vector_clock::Clock;

/// What came of an event at the desk: the label that it spent, and whether the desk granted it. It grants the creation of a thread
/// with the next number, where one more may live, and the join of one that has ended.
#[derive(Clone, Copy)]
pub struct Heard {
    pub spent: Option<Label>,
    pub granted: bool,
}

// The epoch of the thread's label rises. Where it was the greatest the label is lost, and told.
fn raise(watcher: &mut Watcher) -> Option<Label>
    requires may { MayRaise watcher.old }
    ensures value { result ≡ lost_label watcher.old }
    ensures new { watcher.new ≡ raised_or_lost watcher.old }
{
    let label = watcher.label();
    if watcher.raise().is_some() {
        return None;
    }
    watcher.lose_label();
    label
}

/// The thread begins with the clock that its creator left for it.
pub fn begin(watcher: &mut Watcher, given: &Clock)
    requires slots { length watcher.old.clock ≡ length given.now }
    ensures { (set : SyncObjects) (desk : DeskContents) → watcher.new ≡ watcher_after (Some given.now) set desk Begin watcher.old }
{
    watcher.clock().join(given);
}

/// The thread's stack, locks and trace go on by an event that reaches nothing else.
pub fn hear_alone(watcher: &mut Watcher, event: &Event)
    requires alone { IsAlone event.now }
    requires can { CanBeNoted (length watcher.old.frames) event.now }
    requires spare { 0 < watcher.old.trace.spare }
    requires count { watcher.old.trace.count < 2 ^ 64 - 1 }
    ensures { (given : Option (List ℕ)) (set : SyncObjects) (desk : DeskContents) → watcher.new ≡ watcher_after given set desk event.now watcher.old }
{
    watcher.note(event);
}

/// The thread takes in what was released at an address.
pub fn acquire(watcher: &mut Watcher, set: &SyncSet, addr: u64, part: Part)
    requires slots { length watcher.old.clock ≡ set.now.slots }
    ensures { (given : Option (List ℕ)) (desk : DeskContents) → watcher.new ≡ watcher_after given set.now desk (Acquire addr part) watcher.old }
{
    let era = watcher.era();
    set.acquire(era, addr, part, watcher.clock());
}

/// The thread releases what it knows at an address, and its epoch rises. Where that spends the thread's label, it is told.
pub fn release(
    watcher: &mut Watcher,
    set: &mut SyncSet,
    addr: u64,
    part: Part,
    replaces: bool,
) -> Option<Label>
    requires slots { length watcher.old.clock ≡ set.old.slots }
    requires room { 1 ≤ set.old.spare }
    requires may { MayRaise watcher.old }
    ensures watcher { (given : Option (List ℕ)) (desk : DeskContents) → watcher.new ≡ watcher_after given set.old desk (Release addr part replaces) watcher.old }
    ensures objects { ObjectsAfter watcher.old.era watcher.old.clock (Release addr part replaces) set.old set.new }
    ensures spent { result ≡ lost_after (Release addr part replaces) watcher.old }
{
    let era = watcher.era();
    if replaces {
        set.release_store(era, addr, part, watcher.clock_ref());
    } else {
        set.release_join(era, addr, part, watcher.clock_ref());
    }
    raise(watcher)
}

/// The thread takes in what was released at an address, releases what it knows, or ends the objects of the address. Where that
/// spends the thread's label, it is told.
pub fn hear_at_object(watcher: &mut Watcher, set: &mut SyncSet, event: &Event) -> Option<Label>
    requires channel { IsOfChannel event.now }
    requires slots { length watcher.old.clock ≡ set.old.slots }
    requires room { 1 ≤ set.old.spare }
    requires may { MayRaise watcher.old }
    ensures watcher { (given : Option (List ℕ)) (desk : DeskContents) → watcher.new ≡ watcher_after given set.old desk event.now watcher.old }
    ensures objects { ObjectsAfter watcher.old.era watcher.old.clock event.now set.old set.new }
    ensures spent { result ≡ lost_after event.now watcher.old }
{
    match *event {
        Event::Acquire { addr, part } => acquire(watcher, set, addr, part),
        Event::Release {
            addr,
            part,
            replaces,
        } => return release(watcher, set, addr, part, replaces),
        Event::Destroy { addr } => set.destroy(addr),
        Event::Clear { addr } => set.clear(addr),
        _ => unreachable!(),
    }
    None
}

/// The thread creates another. What the desk doesn't grant is of no use afterwards.
pub fn create(watcher: &mut Watcher, desk: &mut Desk, tid: u32, child: u32) -> Heard
    requires live { (thread_of desk.old tid).lives ≡ true }
    requires slots { length watcher.old.clock ≡ length desk.old.slots }
    requires may { MayRaise watcher.old }
    ensures granted { result.granted ≡ true → IsGranted desk.old tid (Create child) }
    ensures sure { IsGranted desk.old tid (Create child) → result.granted ≡ true }
    ensures watcher { (given : Option (List ℕ)) (set : SyncObjects) → watcher.new ≡ watcher_after given set desk.old (Create child) watcher.old }
    ensures desk { desk.new ≡ desk_after desk.old tid watcher.old.clock (Create child) }
    ensures spent { result.spent ≡ lost_after (Create child) watcher.old }
{
    let created = desk.create(tid, watcher.clock_ref());
    Heard {
        spent: raise(watcher),
        granted: created == Created::Thread(child),
    }
}

/// The thread ends, and leaves what it knows.
pub fn end(watcher: &mut Watcher, desk: &mut Desk, tid: u32)
    requires live { (thread_of desk.old tid).lives ≡ true }
    requires slots { length watcher.old.clock ≡ length desk.old.slots }
    requires may { MayEnd desk.old tid watcher.old.clock End }
    ensures watcher { (given : Option (List ℕ)) (set : SyncObjects) → watcher.new ≡ watcher_after given set desk.old End watcher.old }
    ensures desk { desk.new ≡ desk_after desk.old tid watcher.old.clock End }
{
    desk.end(tid, watcher.clock_ref());
    watcher.lose_label();
}

/// The thread joins another. The desk grants it where that has ended.
pub fn join(watcher: &mut Watcher, desk: &mut Desk, of: u32) -> bool
    requires slots { length watcher.old.clock ≡ length desk.old.slots }
    ensures granted { (tid : ℕ) → result ≡ true → IsGranted desk.old tid (Join of) }
    ensures sure { (tid : ℕ) → IsGranted desk.old tid (Join of) → result ≡ true }
    ensures watcher { (given : Option (List ℕ)) (set : SyncObjects) → watcher.new ≡ watcher_after given set desk.old (Join of) watcher.old }
    ensures desk { desk.new ≡ desk.old }
{
    desk.join_thread(of as u64, watcher.clock()) == Joined::Done
}

/// The thread creates another, ends, or joins one that has ended. What the desk doesn't grant is of no use afterwards.
pub fn hear_at_desk(watcher: &mut Watcher, desk: &mut Desk, tid: u32, event: &Event) -> Heard
    requires of_desk { IsOfDesk event.now }
    requires live { (thread_of desk.old tid).lives ≡ true }
    requires slots { length watcher.old.clock ≡ length desk.old.slots }
    requires may { MayRaise watcher.old }
    requires may_end { MayEnd desk.old tid watcher.old.clock event.now }
    ensures granted { result.granted ≡ true → IsGranted desk.old tid event.now }
    ensures sure { IsGranted desk.old tid event.now → result.granted ≡ true }
    ensures watcher { (given : Option (List ℕ)) (set : SyncObjects) → watcher.new ≡ watcher_after given set desk.old event.now watcher.old }
    ensures desk { desk.new ≡ desk_after desk.old tid watcher.old.clock event.now }
    ensures spent { result.spent ≡ lost_after event.now watcher.old }
{
    match *event {
        Event::Create(child) => create(watcher, desk, tid, child),
        Event::End => {
            end(watcher, desk, tid);
            Heard {
                spent: None,
                granted: true,
            }
        }
        Event::Join(of) => Heard {
            spent: None,
            granted: join(watcher, desk, of),
        },
        _ => unreachable!(),
    }
}

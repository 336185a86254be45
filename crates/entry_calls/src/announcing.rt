// The events of a call.
ghost use Rattle.std.specs.Prelude.{◌≡◌, ◌<◌, ◌≤◌, ◌∷◌, ◌++◌, [], true, length, ◌⊎◌, ◌==◌, if◌then◌else◌};
ghost use Rattle.entry_calls.specs.Effects.{IsAnswered, only_if, acquires, releases, loading, channel_event, storing, changing, atomic_events, events_by, full, needs};

use crate::{AtomicOp, Call, CallEvents, Outcome};
use run_record::{Event, Part};

/// What a create answers where no thread can be made: -11.
const FULL: u64 = 0xffff_ffff_ffff_fff5;

fn is_acquiring(order: u8) -> bool
    ensures { result ≡ acquires order }
{
    matches!(order, 1 | 2 | 4 | 5)
}

fn is_releasing(order: u8) -> bool
    ensures { result ≡ releases order }
{
    matches!(order, 3..=5)
}

fn push_if(events: &mut CallEvents, test: bool, event: Event)
    requires { length events.old < 4 }
    ensures { events.new ≡ events.old ++ only_if test event }
{
    if test {
        events.push(event);
    }
}

fn one(event: Event) -> CallEvents
    ensures { result ≡ event ∷ [] }
{
    let mut events = CallEvents::new();
    events.push(event);
    events
}

fn two(first: Event, second: Event) -> CallEvents
    ensures { result ≡ first ∷ second ∷ [] }
{
    let mut events = CallEvents::new();
    events.push(first);
    events.push(second);
    events
}

fn load(place: u64, addr: u64, size: u8, order: u8) -> CallEvents
    ensures { result ≡ loading place addr size order }
{
    let mut events = CallEvents::new();
    let part = Part::Main;
    push_if(
        &mut events,
        is_acquiring(order),
        Event::Acquire { addr, part },
    );
    events.push(atomic_access(place, addr, size, true));
    events
}

fn atomic_access(place: u64, addr: u64, size: u8, read: bool) -> Event
    ensures { result ≡ Event.Access place addr size read true }
{
    Event::Access {
        place,
        addr,
        size: u32::from(size),
        read,
        atomic: true,
    }
}

fn release(addr: u64, replaces: bool) -> Event
    ensures { result ≡ Event.Release addr Part.Main replaces }
{
    Event::Release {
        addr,
        part: Part::Main,
        replaces,
    }
}

fn replace_or_clear(addr: u64, order: u8) -> Event
    ensures { result ≡ channel_event addr order }
{
    if is_releasing(order) {
        release(addr, true)
    } else {
        Event::Clear { addr }
    }
}

fn store(place: u64, addr: u64, size: u8, order: u8) -> CallEvents
    ensures { result ≡ storing place addr size order }
{
    let access = atomic_access(place, addr, size, false);
    two(access, replace_or_clear(addr, order))
}

fn change(place: u64, addr: u64, size: u8, order: u8) -> CallEvents
    ensures { result ≡ changing place addr size order }
{
    let mut events = one(atomic_access(place, addr, size, false));
    let part = Part::Main;
    push_if(
        &mut events,
        is_acquiring(order),
        Event::Acquire { addr, part },
    );
    push_if(&mut events, is_releasing(order), release(addr, false));
    events
}

fn created(answer: u64) -> CallEvents
    requires { (answer < 1024) ⊎ (answer ≡ full) }
    ensures { result ≡ (if answer == full then [] else Event.Create answer ∷ []) }
{
    if answer == FULL {
        return CallEvents::new();
    }
    one(Event::Create(answer as u32))
}

fn locked(addr: u64, read: bool) -> CallEvents
    ensures { (o : Outcome) → result ≡ events_by (Call.PostLock addr read) o }
{
    let acquire = Event::Acquire {
        addr,
        part: Part::Main,
    };
    let mut events = two(Event::Lock { addr, read }, acquire);
    if !read {
        events.push(Event::Acquire {
            addr,
            part: Part::Readers,
        });
    }
    events
}

fn unlocked(addr: u64, read: bool) -> CallEvents
    ensures { (o : Outcome) → result ≡ events_by (Call.PreUnlock addr read) o }
{
    let unlock = Event::Unlock { addr, read };
    if !read {
        return two(unlock, release(addr, true));
    }
    two(
        unlock,
        Event::Release {
            addr,
            part: Part::Readers,
            replaces: false,
        },
    )
}

fn atomic(op: AtomicOp, outcome: &Outcome, addr: u64, size: u8, orders: (u8, u8)) -> CallEvents
    ensures { result ≡ atomic_events op outcome.now.wrote outcome.now.place addr size orders.0 orders.1 }
{
    let place = outcome.place;
    match op {
        AtomicOp::Load => load(place, addr, size, orders.0),
        AtomicOp::Store => store(place, addr, size, orders.0),
        AtomicOp::Compare if !outcome.wrote => load(place, addr, size, orders.1),
        _ => change(place, addr, size, orders.0),
    }
}

/// Whether the call is made only by a thread with a slot: all but a put, a yield, the making of a
/// mutex, and a fence.
pub fn needs_slot(call: &Call) -> bool
    ensures { result ≡ needs call.now }
{
    !matches!(
        call,
        Call::Put { .. } | Call::Yield | Call::MutexCreate | Call::Fence
    )
}

fn announced(call: &Call, outcome: &Outcome) -> CallEvents
    requires { IsAnswered call.now outcome.now }
    ensures { result ≡ events_by call.now outcome.now }
{
    let place = outcome.place;
    match *call {
        Call::Put { value, count } => one(Event::Put { value, count }),
        Call::Exit { .. } | Call::ThreadExit => one(Event::End),
        Call::Create { .. } => created(outcome.answer),
        Call::Join { tid } if outcome.answer == 0 => one(Event::Join(tid as u32)),
        Call::Access { addr, size, read } if size != 0 => one(Event::Access {
            place,
            addr,
            size,
            read,
            atomic: false,
        }),
        Call::Enter { pc } => one(Event::Enter(pc)),
        Call::Leave => one(Event::Leave),
        Call::Atomic {
            op,
            size,
            addr,
            order,
            fail_order,
            ..
        } => atomic(op, outcome, addr, size, (order, fail_order)),
        Call::Acquire { addr } => one(Event::Acquire {
            addr,
            part: Part::Main,
        }),
        Call::Release { addr } => one(release(addr, false)),
        Call::MutexDestroy { addr } => one(Event::Destroy { addr }),
        Call::PostLock { addr, read } => locked(addr, read),
        Call::PreUnlock { addr, read } => unlocked(addr, read),
        _ => CallEvents::new(),
    }
}

/// The events of a call, in order.
pub fn events_of(call: &Call, outcome: &Outcome) -> CallEvents
    requires { IsAnswered call.now outcome.now }
    ensures value { result ≡ events_by call.now outcome.now }
    ensures few { length result ≤ 3 }
{
    announced(call, outcome)
}

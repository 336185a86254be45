// The order of a history's events.
ghost use Rattle.std.specs.Prelude.{◌≡◌, ◌<◌, ◌+◌, ◌-◌, ◌^◌, ◌==◌, ◌↔◌, ℕ, max, nat_lt, true, false, if◌then◌else◌, List, length, Some, IsTrue, OnOk, IfOk};
ghost use Rattle.run_record.specs.declared.entry.Entry.{Entry};
ghost use Rattle.run_record.specs.declared.event.Event.{Event};
ghost use Rattle.run_laws.specs.Moments.{Item, Does, moments, items};
ghost use Rattle.run_laws.specs.HappensBefore.{HappensBefore};
ghost use Rattle.offline_audit.specs.Heard.{known_of, TellBy, AreRising};
ghost use Rattle.offline_audit.specs.Known.{AreNumbers, Stands, GoesOn, Passes, steps_between};
ghost use Rattle.offline_audit.specs.Orders.{IsAt, Makes, AreRows, TellsOrder, IsOrderOf, IsOrderWithoutMutexes};
ghost use Rattle.offline_audit.specs.Mutexes.{mutex_events, is_mutex_event, without_mutexes, AreAwaited};

use crate::clock::Clock;
use crate::heard::Step;
use crate::known::{Known, Threads, note_event};
use crate::mutex::pass;
use crate::walked::walked;
use run_record::{Event, NoMemory, Record};
use std::alloc::Global;

/// An event, by its entry and its place among the entry's events, both counted from 0.
#[derive(Clone, Copy, Debug, PartialEq, Eq)]
pub struct EventName {
    pub entry: u32,
    pub event: u32,
}

/// The thread of an entry, and the number of its first event among all events.
#[derive(Clone, Copy)]
pub(crate) struct Row {
    pub(crate) tid: u32,
    pub(crate) first: u64,
}

/// Which events of a history come before which. It tells of each thread when it first knew how much of each other one.
#[derive(Drop)]
pub struct Order {
    pub(crate) rows: Vec<Row>,
    pub(crate) threads: Threads,
}

/// How many of the other thread's events the steps told of by the event with that number.
fn known_by(steps: &[Step], at: u64) -> u64
    ensures { AreRising steps.now → (x : ℕ) → (x < result) ↔ TellBy steps.now at x }
{
    let after = steps.partition_point(|step| step.at <= at);
    if after == 0 {
        0
    } else {
        steps[after - 1].known
    }
}

/// One more entry.
fn note_entry(alloc: Global, known: &mut Known, tid: u32, events: &[Event]) -> Result<(), NoMemory>
    requires { known.old.count + length events.now < 2 ^ 64 }
    ensures count { OnOk result (known.new.count ≡ known.old.count + length events.now) }
    ensures stands { OnOk result ((h : ℕ → Item) (number : ℕ → ℕ) (n : ℕ) → AreNumbers h number
        → Makes h n tid events.now → Stands h number n known.old
        → Stands h number (n + length events.now) known.new) }
{
    for event in events {
        note_event(alloc, known, tid, event)?;
    }
    Ok(())
}

/// One more event, which is left out where it belongs to a mutex.
fn note_or_pass(
    alloc: Global,
    known: &mut Known,
    left: &mut Clock,
    tid: u32,
    event: &Event,
) -> Result<(), NoMemory>
    requires { known.old.count + 1 < 2 ^ 64 }
    ensures count { OnOk result (known.new.count ≡ known.old.count + 1) }
    ensures passed { OnOk result (nat_lt 0 (known_of left.old tid) ≡ true → Passes known.old known.new) }
    ensures noted { OnOk result (nat_lt 0 (known_of left.old tid) ≡ false
        → GoesOn tid event.now known.old known.new) }
    ensures left { OnOk result ((t : ℕ) → known_of left.new t ≡ (if tid == t
        then max (mutex_events event.now) (known_of left.old t - 1) else known_of left.old t)) }
{
    if pass(left, tid, event)? {
        known.count += 1;
        Ok(())
    } else {
        note_event(alloc, known, tid, event)
    }
}

/// One more entry, of which the events that belong to mutexes are left out.
fn note_without(
    alloc: Global,
    known: &mut Known,
    left: &mut Clock,
    tid: u32,
    events: &[Event],
) -> Result<(), NoMemory>
    requires { known.old.count + length events.now < 2 ^ 64 }
    ensures count { OnOk result (known.new.count ≡ known.old.count + length events.now) }
    ensures stands { OnOk result ((h : ℕ → Item) (number : ℕ → ℕ) (n : ℕ) → AreNumbers h number
        → Makes h n tid events.now → AreAwaited h n left.old
        → Stands (without_mutexes h) number n known.old
        → Stands (without_mutexes h) number (n + length events.now) known.new
        × AreAwaited h (n + length events.now) left.new) }
{
    for event in events {
        note_or_pass(alloc, known, left, tid, event)?;
    }
    Ok(())
}

/// The thread of an event, and the event's number.
fn find(rows: &[Row], name: EventName) -> Option<(u32, u64)>
    ensures { (number : ℕ → ℕ) (entries : List Entry) (i : ℕ) → AreRows number entries (length entries) rows.now
        → (at : IsAt entries name i) → result ≡ Some (at.entry.tid, number i) }
{
    match rows.get(name.entry as usize) {
        Some(row) => Some((row.tid, row.first.saturating_add(name.event as u64))),
        None => None,
    }
}

/// How many of the other thread's events the thread knew by its event with that number.
fn heard_of(threads: &Threads, tid: u32, other: u32, at: u64) -> u64
    ensures { AreRising (steps_between threads.now tid other)
        → (x : ℕ) → (x < result) ↔ TellBy (steps_between threads.now tid other) at x }
{
    match threads.get(&tid) {
        Some(heard) => match heard.get(&other) {
            Some(steps) => known_by(steps.as_slice(), at),
            None => 0,
        },
        None => 0,
    }
}

impl Order {
    /// The order of a history. It needn't be that of a run. There is no memory for 2^32 entries.
    pub fn new(alloc: Global, history: &Record) -> Result<Order, NoMemory>
        ensures { IfOk result (IsOrderOf history.now.entries) }
    {
        let mut rows = Vec::new(alloc);
        let mut known = Known::new(alloc);
        let walk = walked(alloc, history)?;
        for entry in &walk {
            rows.push(Row {
                tid: entry.tid,
                first: known.count,
            })?;
            note_entry(alloc, &mut known, entry.tid, entry.events)?;
        }
        let Known { threads, .. } = known;
        Ok(Order { rows, threads })
    }

    /// The order of a history of which the events are left out that belong to mutexes.
    pub fn without_mutexes(alloc: Global, history: &Record) -> Result<Order, NoMemory>
        ensures { IfOk result (IsOrderWithoutMutexes history.now.entries) }
    {
        let mut rows = Vec::new(alloc);
        let mut known = Known::new(alloc);
        let mut left = Clock::new(alloc);
        let walk = walked(alloc, history)?;
        for entry in &walk {
            rows.push(Row {
                tid: entry.tid,
                first: known.count,
            })?;
            note_without(alloc, &mut known, &mut left, entry.tid, entry.events)?;
        }
        let Known { threads, .. } = known;
        Ok(Order { rows, threads })
    }

    /// Whether the first event happens before the second, where this is the order of the history. It takes no memory.
    pub fn before(&self, first: EventName, second: EventName) -> bool
        ensures all { (entries : List Entry) (i j : ℕ) → IsOrderOf entries self.now → IsAt entries first i
            → IsAt entries second j → IsTrue result ↔ HappensBefore (items (moments entries)) i j }
        ensures without_mutexes { (entries : List Entry) (i j : ℕ) → IsOrderWithoutMutexes entries self.now
            → IsAt entries first i → is_mutex_event (items (moments entries)) i ≡ false
            → IsAt entries second j → is_mutex_event (items (moments entries)) j ≡ false
            → IsTrue result ↔ HappensBefore (without_mutexes (items (moments entries))) i j }
    {
        self.tells(first, second)
    }

    /// Whether the first event comes before the second.
    pub(crate) fn tells(&self, first: EventName, second: EventName) -> bool
        ensures { (h : ℕ → Item) (entries : List Entry) (i j : ℕ) (v w : Event) → TellsOrder h entries self.now
            → (a : IsAt entries first i) → h i ≡ Does a.entry.tid v
            → (b : IsAt entries second j) → h j ≡ Does b.entry.tid w
            → IsTrue result ↔ HappensBefore h i j }
    {
        match (find(&self.rows, first), find(&self.rows, second)) {
            (Some((tid, number)), Some((other, at))) => {
                if tid == other {
                    number < at
                } else {
                    number < heard_of(&self.threads, other, tid, at)
                }
            }
            _ => false,
        }
    }
}

// What all threads know, and what is left for others, after the events so far.
ghost use Rattle.std.specs.Prelude.{◌≡◌, ◌<◌, ◌+◌, ◌^◌, ◌==◌, ℕ, [], if◌then◌else◌, max, OnOk};
ghost use Rattle.run_laws.specs.HappensBefore.{ends_channel};
ghost use Rattle.run_laws.specs.Clocks.{Place, taken_from, left_at, is_place};
ghost use Rattle.offline_audit.specs.Heard.{latest, steps_after};
ghost use Rattle.offline_audit.specs.Knowledge.{empties};
ghost use Rattle.offline_audit.specs.Known.{known_at, told, told_from, steps_between, Hears, Leaves, GoesOn};

use crate::clock::{Clock, raise};
use crate::heard::{Heard, hear_all, tell_all};
use run_record::{Event, NoMemory, Part};
use std::alloc::Global;
use std::collections::BTreeMap;

/// Clocks that are left for others, by an address or a thread.
pub(crate) type Clocks = BTreeMap<u64, Clock>;

/// What each thread heard of the others.
pub(crate) type Threads = BTreeMap<u32, Heard>;

/// What is known after so many events.
#[derive(Drop)]
pub(crate) struct Known {
    pub(crate) count: u64,
    pub(crate) threads: Threads,
    /// For the first event of a thread that was made.
    pub(crate) created: Clocks,
    /// For the joins of a thread that ended.
    pub(crate) ended: Clocks,
    /// For the acquires of an address's main channel.
    pub(crate) main: Clocks,
    /// For the acquires of an address's channel of readers.
    pub(crate) readers: Clocks,
}

impl Known {
    /// Before the first event nothing is known.
    pub(crate) fn new(alloc: Global) -> Known
        ensures count { result.count ≡ 0 }
        ensures steps { (v u : ℕ) → steps_between result.threads v u ≡ [] }
        ensures places { (y : Place) (u : ℕ) → told result y u ≡ 0 }
    {
        Known {
            count: 0,
            threads: Threads::new(alloc),
            created: Clocks::new(alloc),
            ended: Clocks::new(alloc),
            main: Clocks::new(alloc),
            readers: Clocks::new(alloc),
        }
    }
}

/// By its event of the number `at` the thread hears all that the clock at the key tells of others.
fn hear_from(
    alloc: Global,
    threads: &mut Threads,
    at: u64,
    tid: u32,
    clocks: &Clocks,
    key: u64,
) -> Result<(), NoMemory>
    ensures { OnOk result ((v u : ℕ) → steps_between threads.new v u
        ≡ (if v == tid then (if u == tid then steps_between threads.old v u
        else steps_after at (known_at clocks.now key u) (steps_between threads.old v u))
        else steps_between threads.old v u)) }
{
    let Some(clock) = clocks.get(&key) else {
        return Ok(());
    };
    let mut heard = match threads.remove(&tid) {
        Some(heard) => heard,
        None => Heard::new(alloc),
    };
    hear_all(alloc, &mut heard, at, tid, clock)?;
    threads.insert(tid, heard)?;
    Ok(())
}

/// What the thread knows with its event is added to the clock at the key; `number` follows that of the event.
fn leave_at(
    alloc: Global,
    clocks: &mut Clocks,
    key: u64,
    threads: &Threads,
    tid: u32,
    number: u64,
) -> Result<(), NoMemory>
    ensures { OnOk result ((k u : ℕ) → known_at clocks.new k u
        ≡ (if k == key then max (known_at clocks.old k u)
        (if u == tid then number else latest (steps_between threads.now tid u))
        else known_at clocks.old k u)) }
{
    let mut clock = match clocks.remove(&key) {
        Some(clock) => clock,
        None => Clock::new(alloc),
    };
    if let Some(heard) = threads.get(&tid) {
        tell_all(&mut clock, tid, heard)?;
    }
    raise(&mut clock, tid, number)?;
    clocks.insert(key, clock)?;
    Ok(())
}

/// What was left at the key ends.
fn forget(clocks: &mut Clocks, key: u64)
    ensures { (k u : ℕ) → known_at clocks.new k u
        ≡ (if k == key then 0 else known_at clocks.old k u) }
{
    clocks.remove(&key);
}

/// The thread hears, by its event, what is left at the place that the event takes from.
fn take_in(alloc: Global, known: &mut Known, tid: u32, event: &Event) -> Result<(), NoMemory>
    ensures { OnOk result (Hears tid event.now known.old known.new) }
{
    let Known {
        count,
        threads,
        created,
        ended,
        main,
        readers,
    } = known;
    match *event {
        Event::Begin => hear_from(alloc, threads, *count, tid, created, tid as u64),
        Event::Join(child) => hear_from(alloc, threads, *count, tid, ended, child as u64),
        Event::Acquire { addr, part } => match part {
            Part::Main => hear_from(alloc, threads, *count, tid, main, addr),
            Part::Readers => hear_from(alloc, threads, *count, tid, readers, addr),
        },
        _ => Ok(()),
    }
}

/// What the thread knows with its event is left at a channel, of which a replacing one ends what was left before.
fn release(
    alloc: Global,
    clocks: &mut Clocks,
    addr: u64,
    replaces: bool,
    threads: &Threads,
    tid: u32,
    number: u64,
) -> Result<(), NoMemory>
    ensures { OnOk result ((k u : ℕ) → known_at clocks.new k u
        ≡ (if k == addr then max (if replaces then 0 else known_at clocks.old k u)
        (if u == tid then number else latest (steps_between threads.now tid u))
        else known_at clocks.old k u)) }
{
    if replaces {
        forget(clocks, addr);
    }
    leave_at(alloc, clocks, addr, threads, tid, number)
}

/// The thread leaves, by its event, what it knows with it, and ends what the event ends.
fn leave(alloc: Global, known: &mut Known, tid: u32, event: &Event) -> Result<(), NoMemory>
    requires { known.old.count + 1 < 2 ^ 64 }
    ensures { OnOk result (Leaves tid event.now known.old known.new) }
{
    let Known {
        count,
        threads,
        created,
        ended,
        main,
        readers,
    } = known;
    let number = *count + 1;
    match *event {
        Event::Create(child) => leave_at(alloc, created, child as u64, threads, tid, number)?,
        Event::End => leave_at(alloc, ended, tid as u64, threads, tid, number)?,
        Event::Release {
            addr,
            part,
            replaces,
        } => match part {
            Part::Main => release(alloc, main, addr, replaces, threads, tid, number)?,
            Part::Readers => release(alloc, readers, addr, replaces, threads, tid, number)?,
        },
        Event::Destroy { addr } => {
            forget(main, addr);
            forget(readers, addr);
        }
        Event::Clear { addr } => forget(main, addr),
        _ => {}
    }
    *count = number;
    Ok(())
}

/// One more event of the thread.
pub(crate) fn note_event(
    alloc: Global,
    known: &mut Known,
    tid: u32,
    event: &Event,
) -> Result<(), NoMemory>
    requires { known.old.count + 1 < 2 ^ 64 }
    ensures { OnOk result (GoesOn tid event.now known.old known.new) }
{
    take_in(alloc, known, tid, event)?;
    leave(alloc, known, tid, event)
}

// What a thread heard of the others.
ghost use Rattle.std.specs.Prelude.{◌≡◌, ◌==◌, ℕ, nat_lt, if◌then◌else◌, max, OnOk};
ghost use Rattle.offline_audit.specs.Heard.{known_of, latest, steps_after, steps_of};

use crate::clock::{Clock, raise};
use run_record::{Items, NoMemory};
use std::alloc::Global;
use std::collections::BTreeMap;

/// With the event of the number `at` a thread knows the events of another one with lesser numbers than `known`.
#[derive(Clone, Copy)]
pub(crate) struct Step {
    pub(crate) at: u64,
    pub(crate) known: u64,
}

/// For each other thread the steps by which a thread heard of it.
pub(crate) type Heard = BTreeMap<u32, Items<Step>>;

/// What the last step tells.
fn last_known(steps: &[Step]) -> u64
    ensures { result ≡ latest steps.now }
{
    match steps.last() {
        Some(step) => step.known,
        None => 0,
    }
}

/// One more step, where it tells of more than the last one.
fn extend(steps: &mut Items<Step>, at: u64, known: u64) -> Result<(), NoMemory>
    ensures { OnOk result (steps.new ≡ steps_after at known steps.old) }
{
    if last_known(steps.as_slice()) < known {
        steps.push(Step { at, known })?;
    }
    Ok(())
}

/// Whether so much is more than the thread heard of the other one.
fn is_news(heard: &Heard, tid: u32, known: u64) -> bool
    ensures { result ≡ nat_lt (latest (steps_of heard.now tid)) known }
{
    match heard.get(&tid) {
        Some(steps) => last_known(steps.as_slice()) < known,
        None => 0 < known,
    }
}

/// By the event of the number `at` a thread hears of another one's events.
fn hear(alloc: Global, heard: &mut Heard, at: u64, tid: u32, known: u64) -> Result<(), NoMemory>
    ensures { OnOk result ((u : ℕ) → steps_of heard.new u
        ≡ (if u == tid then steps_after at known (steps_of heard.old tid) else steps_of heard.old u)) }
{
    if !is_news(heard, tid, known) {
        return Ok(());
    }
    let mut steps = match heard.remove(&tid) {
        Some(steps) => steps,
        None => Items::new(alloc),
    };
    extend(&mut steps, at, known)?;
    heard.insert(tid, steps)?;
    Ok(())
}

/// By the event of the number `at` the thread hears all that the clock tells of other threads.
pub(crate) fn hear_all(
    alloc: Global,
    heard: &mut Heard,
    at: u64,
    tid: u32,
    clock: &Clock,
) -> Result<(), NoMemory>
    ensures { OnOk result ((u : ℕ) → steps_of heard.new u ≡ (if u == tid then steps_of heard.old u
        else steps_after at (known_of clock.now u) (steps_of heard.old u))) }
{
    for (other, known) in clock {
        if *other != tid {
            hear(alloc, heard, at, *other, *known)?;
        }
    }
    Ok(())
}

/// The clock gets all that the thread heard of others.
pub(crate) fn tell_all(clock: &mut Clock, tid: u32, heard: &Heard) -> Result<(), NoMemory>
    ensures { OnOk result ((u : ℕ) → known_of clock.new u ≡ (if u == tid then known_of clock.old u
        else max (known_of clock.old u) (latest (steps_of heard.now u)))) }
{
    for (other, steps) in heard {
        if *other != tid {
            raise(clock, *other, last_known(steps.as_slice()))?;
        }
    }
    Ok(())
}

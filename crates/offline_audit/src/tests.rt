// Orders of random histories, beside a plain closure of the pairs that order two events.
ghost use Rattle.std.specs.Prelude.{◌<◌};

use crate::{EventName, Order};
use run_record::{DeskNote, Entries, Event, Head, NoMemory, Part, Record};
use std::alloc::Global;
use std::test::Fail;

// An event of a history.
#[derive(Clone, Copy)]
struct Made {
    tid: u32,
    event: Event,
    name: EventName,
}

fn is_same(first: Part, second: Part) -> bool {
    match (first, second) {
        (Part::Main, Part::Main) => true,
        (Part::Readers, Part::Readers) => true,
        _ => false,
    }
}

fn is_end(event: &Event, addr: u64, part: Part) -> bool {
    match *event {
        Event::Release {
            addr: other,
            part: channel,
            replaces,
        } => replaces && other == addr && is_same(channel, part),
        Event::Clear { addr: other } => other == addr && is_same(part, Part::Main),
        Event::Destroy { addr: other } => other == addr,
        _ => false,
    }
}

fn is_ended(made: &[Made], from: usize, to: usize, addr: u64, part: Part) -> bool {
    for (k, between) in made.iter().enumerate() {
        if from < k && k < to && is_end(&between.event, addr, part) {
            return true;
        }
    }
    false
}

// Whether the two events are a pair of happens-before.
fn is_pair(made: &[Made], i: usize, first: &Made, j: usize, second: &Made) -> bool {
    if i >= j {
        return false;
    }
    if first.tid == second.tid {
        return true;
    }
    match (first.event, second.event) {
        (Event::Create(child), Event::Begin) => child == second.tid,
        (Event::End, Event::Join(child)) => child == first.tid,
        (
            Event::Release { addr, part, .. },
            Event::Acquire {
                addr: other,
                part: channel,
            },
        ) => addr == other && is_same(part, channel) && !is_ended(made, i, j, addr, part),
        _ => false,
    }
}

fn comes_after(made: &[Made], reached: &[usize], j: usize, second: &Made) -> bool {
    for k in reached {
        if let Some(first) = made.get(*k) {
            if is_pair(made, *k, first, j, second) {
                return true;
            }
        }
    }
    false
}

// The event, and all those that come after it.
fn reached_from(alloc: Global, made: &[Made], i: usize) -> Result<Vec<usize>, NoMemory> {
    let mut reached = Vec::new(alloc);
    reached.push(i)?;
    for (j, second) in made.iter().enumerate() {
        if comes_after(made, reached.as_slice(), j, second) {
            reached.push(j)?;
        }
    }
    Ok(reached)
}

// How many of a thread's next events belong to a mutex that it takes or gives back by the event.
fn events_to_come(event: &Event) -> u8 {
    match *event {
        Event::Lock { read: false, .. } => 2,
        Event::Lock { read: true, .. } => 1,
        Event::Unlock { .. } => 1,
        _ => 0,
    }
}

// Whether the event belongs to a mutex: whether one of its thread's last two events was a lock or an unlock, near enough.
fn is_of_mutex(made: &[Made], i: usize, tid: u32) -> bool {
    let mut last = 0;
    let mut last_but_one = 0;
    for (k, before) in made.iter().enumerate() {
        if k < i && before.tid == tid {
            last_but_one = last;
            last = events_to_come(&before.event);
        }
    }
    last >= 1 || last_but_one >= 2
}

fn without_mutexes(alloc: Global, made: &[Made]) -> Result<Vec<Made>, NoMemory> {
    let mut kept = Vec::new(alloc);
    for (i, one) in made.iter().enumerate() {
        if !is_of_mutex(made, i, one.tid) {
            kept.push(*one)?;
        }
    }
    Ok(kept)
}

fn next(seed: u64) -> u64 {
    seed.wrapping_mul(6364136223846793005)
        .wrapping_add(1442695040888963407)
}

fn pick(seed: u64, many: u64) -> u64
    requires { 0 < many }
{
    seed / 4294967296 % many
}

fn tid_of(seed: u64) -> u32 {
    match pick(seed, 4) {
        0 => 0,
        1 => 1,
        2 => 2,
        _ => 7,
    }
}

fn part_of(seed: u64) -> Part {
    if pick(seed, 3) == 0 {
        Part::Readers
    } else {
        Part::Main
    }
}

fn event_of(seed: u64) -> Event {
    let more = next(seed);
    let addr = if pick(more, 2) == 0 { 8 } else { 16 };
    let part = part_of(next(more));
    match pick(seed, 13) {
        0 => Event::Begin,
        1 => Event::Create(tid_of(more)),
        2 => Event::End,
        3 => Event::Join(tid_of(more)),
        4 => Event::Acquire { addr, part },
        5 => Event::Acquire { addr, part },
        6 => Event::Release {
            addr,
            part,
            replaces: false,
        },
        7 => Event::Release {
            addr,
            part,
            replaces: pick(next(next(more)), 2) == 0,
        },
        8 => Event::Clear { addr },
        9 => Event::Destroy { addr },
        10 => Event::Lock {
            addr,
            read: pick(next(more), 2) == 0,
        },
        11 => Event::Unlock { addr, read: true },
        _ => Event::Leave,
    }
}

// An entry of a few events of the thread.
fn put(entries: &mut Entries, tid: u32, events: &[Event]) -> Result<(), NoMemory> {
    let head = Head {
        round: tid,
        era: tid,
        stamp: 0,
        tid,
        steps: 1,
    };
    entries.push(head, DeskNote::Nothing, events, &[])
}

// A history of nine entries, with three events or none.
fn random_history(alloc: Global, start: u64, made: &mut Vec<Made>) -> Result<Record, NoMemory> {
    let mut entries = Entries::new(alloc);
    let mut seed = start;
    for entry in 0..9u32 {
        seed = next(seed);
        let tid = tid_of(seed);
        let first = event_of(next(seed));
        let second = event_of(next(next(seed)));
        let third = event_of(next(next(next(seed))));
        if pick(seed, 5) == 0 {
            put(&mut entries, tid, &[])?;
        } else {
            put(&mut entries, tid, &[first, second, third])?;
            let name = EventName { entry, event: 0 };
            made.push(Made {
                tid,
                event: first,
                name,
            })?;
            let name = EventName { entry, event: 1 };
            made.push(Made {
                tid,
                event: second,
                name,
            })?;
            let name = EventName { entry, event: 2 };
            made.push(Made {
                tid,
                event: third,
                name,
            })?;
        }
    }
    Ok(Record { entries })
}

// How many pairs of events come one before the other, by the order and by the closure, and how often these differ.
fn compared(alloc: Global, order: &Order, made: &[Made]) -> Result<(u64, u64), NoMemory> {
    let mut ordered = 0u64;
    let mut wrong = 0u64;
    for (i, first) in made.iter().enumerate() {
        let reached = reached_from(alloc, made, i)?;
        for (j, second) in made.iter().enumerate() {
            let expected = i != j && reached.contains(&j);
            if expected {
                ordered = ordered.wrapping_add(1);
            }
            if order.before(first.name, second.name) != expected {
                wrong = wrong.wrapping_add(1);
            }
        }
    }
    Ok((ordered, wrong))
}

fn compared_all(alloc: Global, start: u64) -> Result<(u64, u64), NoMemory> {
    let mut made = Vec::new(alloc);
    let history = random_history(alloc, start, &mut made)?;
    let order = Order::new(alloc, &history)?;
    compared(alloc, &order, made.as_slice())
}

fn compared_without(alloc: Global, start: u64) -> Result<(u64, u64), NoMemory> {
    let mut made = Vec::new(alloc);
    let history = random_history(alloc, start, &mut made)?;
    let order = Order::without_mutexes(alloc, &history)?;
    let kept = without_mutexes(alloc, made.as_slice())?;
    compared(alloc, &order, kept.as_slice())
}

#[test]
fn an_order_is_the_closure(rt: HostRuntime) -> Result<(), Fail> {
    let mut all = 0u64;
    for start in 0..40u64 {
        let (ordered, wrong) = compared_all(rt.alloc(), next(start))?;
        assert_eq!(rt; wrong, 0);
        all = all.wrapping_add(ordered);
    }
    assert_eq!(rt; 1000 < all, true);
    Ok(())
}

#[test]
fn an_order_without_mutexes_is_the_closure(rt: HostRuntime) -> Result<(), Fail> {
    let mut all = 0u64;
    for start in 0..40u64 {
        let (ordered, wrong) = compared_without(rt.alloc(), next(start))?;
        assert_eq!(rt; wrong, 0);
        all = all.wrapping_add(ordered);
    }
    assert_eq!(rt; 1000 < all, true);
    Ok(())
}

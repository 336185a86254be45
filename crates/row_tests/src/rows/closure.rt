// Happens-before of a history as a plain closure, and the races that it leaves.
use super::*;
use run_record::{DeskNote, Entry, Event, Finished, Part, Report, Side};

/// An event, its entry with its place there, and the slot that the thread holds before it.
#[derive(Clone, Copy)]
struct Made<'a> {
    entry: &'a Entry,
    place: usize,
    event: Event,
    slot: Option<u8>,
}

/// How many threads these programs may have.
const THREADS: usize = 16;

fn set_slot(held: &mut [Option<u8>], tid: u32, slot: Option<u8>) {
    if let Some(there) = held.get_mut(tid as usize) {
        *there = slot;
    }
}

fn slot_of(held: &[Option<u8>], tid: u32) -> Option<u8> {
    match held.get(tid as usize) {
        Some(slot) => *slot,
        None => None,
    }
}

/// The events of a history.
fn events_in<'a>(alloc: Global, entries: &'a [Entry]) -> Result<Vec<Made<'a>>, AllocError> {
    let mut made = Vec::new(alloc);
    let mut held = [None; THREADS];
    let mut era = 0;
    for entry in entries {
        if entry.era != era {
            era = entry.era;
            held = [None; THREADS];
        }
        match entry.note {
            DeskNote::Nothing => {}
            DeskNote::Attach(label) => set_slot(&mut held, entry.tid, Some(label.sid)),
            DeskNote::Leave(_) => set_slot(&mut held, entry.tid, None),
        }
        for (place, event) in entry.events.as_slice().iter().enumerate() {
            made.push(Made {
                entry,
                place,
                event: *event,
                slot: slot_of(&held, entry.tid),
            })?;
            if *event == Event::End {
                set_slot(&mut held, entry.tid, None);
            }
        }
    }
    Ok(made)
}

fn ends_channel(event: Event, channel: (u64, Part)) -> bool {
    match event {
        Event::Release {
            addr,
            part,
            replaces: true,
        } => (addr, part) == channel,
        Event::Destroy { addr } => addr == channel.0,
        Event::Clear { addr } => (addr, Part::Main) == channel,
        _ => false,
    }
}

/// Whether an event between two places ends the channel.
fn is_ended(made: &[Made<'_>], from: usize, to: usize, channel: (u64, Part)) -> bool {
    made.iter()
        .take(to)
        .skip(from.saturating_add(1))
        .any(|one| ends_channel(one.event, channel))
}

/// Whether an event between two places gives the slot back.
fn is_given_back(made: &[Made<'_>], from: usize, to: usize, slot: Option<u8>) -> bool {
    made.iter()
        .take(to)
        .skip(from.saturating_add(1))
        .any(|one| one.event == Event::End && one.slot == slot)
}

/// Whether an event gives its slot back, and another is made under it by the slot's next owner.
fn is_next_owner(made: &[Made<'_>], from: usize, to: usize) -> bool {
    let (Some(one), Some(other)) = (made.get(from), made.get(to)) else {
        return false;
    };
    one.event == Event::End
        && one.slot.is_some()
        && one.slot == other.slot
        && one.entry.era == other.entry.era
        && !is_given_back(made, from, to, one.slot)
}

/// Whether two events, of which the second is the later one, are a pair that orders them.
fn is_pair(made: &[Made<'_>], from: usize, to: usize) -> bool {
    let (Some(one), Some(other)) = (made.get(from), made.get(to)) else {
        return false;
    };
    let ordered = match (one.event, other.event) {
        (Event::Create(child), Event::Begin) => child == other.entry.tid,
        (Event::End, Event::Join(child)) => child == one.entry.tid,
        (Event::Release { addr, part, .. }, Event::Acquire { addr: at, part: of }) => {
            addr == at && part == of && !is_ended(made, from, to, (addr, part))
        }
        _ => false,
    };
    ordered || one.entry.tid == other.entry.tid || is_next_owner(made, from, to)
}

/// For each event which of the events before it come before it in the closure of the pairs.
#[derive(Drop)]
struct Closure {
    before: Vec<Vec<bool>>,
}

impl Closure {
    fn is_before(&self, from: usize, to: usize) -> bool {
        match self.before.get(to) {
            Some(row) => match row.get(from) {
                Some(there) => *there,
                None => false,
            },
            None => false,
        }
    }

    /// Marks an event, and all that come before it.
    fn mark(&self, row: &mut [bool], from: usize) {
        for (place, there) in row.iter_mut().enumerate() {
            if place == from || self.is_before(place, from) {
                *there = true;
            }
        }
    }

    fn of(alloc: Global, made: &[Made<'_>]) -> Result<Closure, AllocError> {
        let mut closure = Closure {
            before: Vec::new(alloc),
        };
        for to in 0..made.len() {
            let mut row = vec![in alloc; false; to]?;
            for from in 0..to {
                if is_pair(made, from, to) {
                    closure.mark(&mut row, from);
                }
            }
            closure.before.push(row)?;
        }
        Ok(closure)
    }
}

fn slot_in(word: u64) -> u64 {
    (word >> 8) & 0xff
}

/// Whether two cell words may race: of one era, of different slots, with a common byte, and neither
/// both read nor both atomic.
fn opposes(mine: u64, other: u64) -> bool {
    other != 0
        && other >> 32 == mine >> 32
        && slot_in(other) != slot_in(mine)
        && other & mine & 0xff != 0
        && ((other & mine) >> 30) & 1 == 0
        && ((other & mine) >> 31) & 1 == 0
}

/// A granule, and a word in one of its shadow cells.
type Cell = (u32, u64);

fn leaves(one: &Made<'_>, cell: Cell) -> bool {
    one.entry.checks.as_slice().iter().any(|check| {
        check.event as usize == one.place && check.granule == cell.0 && check.word == cell.1
    })
}

/// Whether an access that left the word comes before the event.
fn is_known(made: &[Made<'_>], closure: &Closure, at: usize, cell: Cell) -> bool {
    made.iter().enumerate().any(|(place, one)| closure.is_before(place, at) && leaves(one, cell))
}

/// The first word that an event's checks loaded and that races.
fn candidate(made: &[Made<'_>], closure: &Closure, at: usize) -> Option<Cell> {
    let one = made.get(at)?;
    for check in one.entry.checks.as_slice() {
        for word in check.cells.iter() {
            let cell = (check.granule, *word);
            if check.event as usize == one.place
                && opposes(check.word, *word)
                && !is_known(made, closure, at, cell)
            {
                return Some(cell);
            }
        }
    }
    None
}

fn is_first(side: &Side, place: u64) -> bool {
    match &side.stack {
        Some(places) => places.as_slice().first() == Some(&place),
        None => true,
    }
}

/// Whether a side of a report tells of this access; of a lost one it tells less.
fn tells(side: &Side, one: &Made<'_>) -> bool {
    match one.event {
        Event::Access {
            place,
            addr,
            size,
            read,
            atomic,
        } => {
            side.tid == one.entry.tid
                && side.read == read
                && side.atomic == atomic
                && is_first(side, place)
                && (side.stack.is_none() || (side.addr == addr && side.size == size))
        }
        _ => false,
    }
}

/// Whether a report tells of the event and of the first access that left the word.
fn is_told(report: Option<&Report>, made: &[Made<'_>], at: usize, cell: Cell) -> bool {
    let (Some(report), Some(one)) = (report, made.get(at)) else {
        return false;
    };
    match made.iter().find(|other| leaves(other, cell)) {
        Some(other) => {
            report.mine.stack.is_some()
                && tells(&report.mine, one)
                && tells(&report.previous, other)
        }
        None => false,
    }
}

/// Looks whether a run's reports are those of its history, in order, and counts its races.
pub fn check_races<R: Abort>(
    rt: &R,
    alloc: Global,
    finished: &Finished,
    program: &str,
) -> Result<usize, Fail> {
    let entries = finished.history.entries.to_vec(alloc)?;
    let made = events_in(alloc, &entries)?;
    let closure = Closure::of(alloc, &made)?;
    let reports = finished.reports.as_slice();
    let mut races = 0usize;
    let mut told = 0usize;
    for at in 0..made.len() {
        if let Some(cell) = candidate(&made, &closure, at) {
            races = races.saturating_add(1);
            if is_told(reports.get(told), &made, at, cell) {
                told = told.saturating_add(1);
            }
        }
    }
    assert_eq!(rt; told, reports.len(), "reports of {program}");
    let counted = reports.len().saturating_add(finished.equal as usize);
    assert_eq!(rt; races, counted, "races of {program}");
    assert_eq!(rt; finished.suppressed, 0);
    Ok(races)
}

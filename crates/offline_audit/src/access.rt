// The accesses of a history.
ghost use Rattle.std.specs.Prelude.{◌≡◌, ◌<◌, ◌++◌, ◌^◌, ◌↔◌, ◌⊎◌, length, Contains, IfOk, OnOk};
ghost use Rattle.std.specs.List.Sorted.{IsNonDecreasingBy};
ghost use Rattle.offline_audit.specs.declared.access.Made.{Made};
ghost use Rattle.run_record.specs.declared.entry.Entry.{Entry};
ghost use Rattle.offline_audit.specs.Kinds as kinds;
ghost use Rattle.offline_audit.specs.Kinds.{made_from, IsMadeBy, IsMade};

use crate::order::EventName;
use crate::walked::walked;
use run_record::{Event, NoMemory, Record};
use std::alloc::Global;

/// What an access is, whenever it is made: its thread, its code place, its first and last byte, and how it is made.
#[derive(Clone, Copy, PartialEq, Eq)]
pub(crate) struct Kind {
    pub(crate) tid: u32,
    pub(crate) place: u64,
    pub(crate) addr: u64,
    pub(crate) last: u64,
    pub(crate) read: bool,
    pub(crate) atomic: bool,
}

/// An access of the history.
#[derive(Clone, Copy)]
pub(crate) struct Made {
    pub(crate) kind: Kind,
    pub(crate) name: EventName,
}

/// The kind of access that an event of the thread is, if it is one of a byte at least.
fn kind_of(tid: u32, event: &Event) -> Option<Kind>
    ensures { result ≡ kinds.kind_of tid event.now }
{
    match *event {
        Event::Access {
            place,
            addr,
            size,
            read,
            atomic,
        } => {
            if size == 0 {
                None
            } else {
                Some(Kind {
                    tid,
                    place,
                    addr,
                    last: addr.saturating_add(size as u64 - 1),
                    read,
                    atomic,
                })
            }
        }
        _ => None,
    }
}

/// Appends the access that the named event of the thread is, if it is one.
fn add_access(
    made: &mut Vec<Made>,
    tid: u32,
    event: &Event,
    name: EventName,
) -> Result<(), NoMemory>
    ensures { OnOk result (made.new.items
        ≡ made.old.items ++ made_from (kinds.kind_of tid event.now) name) }
{
    if let Some(kind) = kind_of(tid, event) {
        made.push(Made { kind, name })?;
    }
    Ok(())
}

/// Appends the accesses of the entry with that number.
fn add_accesses(
    made: &mut Vec<Made>,
    number: u32,
    tid: u32,
    events: &[Event],
) -> Result<(), NoMemory>
    requires { length events.now < 2 ^ 32 }
    ensures { OnOk result ((entry : Entry) → entry.tid ≡ tid → entry.events ≡ events.now
        → (m : Made) → Contains made.new.items m ↔ (Contains made.old.items m ⊎ IsMadeBy number entry m)) }
{
    for (n, event) in events.iter().enumerate() {
        let name = EventName {
            entry: number,
            event: n as u32,
        };
        add_access(made, tid, event, name)?;
    }
    Ok(())
}

/// The accesses in the history's order.
fn in_order(alloc: Global, history: &Record) -> Result<Vec<Made>, NoMemory>
    ensures { IfOk result (λ made. (m : Made) → Contains made.items m ↔ IsMade history.now.entries m) }
{
    let mut made = Vec::new(alloc);
    let walk = walked(alloc, history)?;
    for (n, entry) in walk.iter().enumerate() {
        add_accesses(&mut made, n as u32, entry.tid, entry.events)?;
    }
    Ok(made)
}

/// The accesses by rising address. Those of one kind stand together, in the history's order.
pub(crate) fn accesses(alloc: Global, history: &Record) -> Result<Vec<Made>, NoMemory>
    ensures all { IfOk result (λ made. (m : Made) → Contains made.items m ↔ IsMade history.now.entries m) }
    ensures rising { IfOk result (λ made. IsNonDecreasingBy (λ m. m.kind.addr) made.items) }
{
    let mut made = in_order(alloc, history)?;
    made.sort_by_key(|one| (one.kind.last, one.kind.read, one.kind.atomic))?;
    made.sort_by_key(|one| (one.kind.place, one.kind.tid))?;
    made.sort_by_key(|one| one.kind.addr)?;
    Ok(made)
}

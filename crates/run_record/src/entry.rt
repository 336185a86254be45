// One entry of a history, and what stands in it.
use crate::{CheckList, Entries, EventList};

/// What a thread's accesses are known by: a slot, the slot's epoch, and the era.
#[derive(Clone, Copy, Debug, PartialEq, Eq)]
pub struct Label {
    pub sid: u8,
    pub epoch: u16,
    pub era: u32,
}

/// The check of one granule that an access touches: four loads of shadow cells, and then at most
/// one store.
#[derive(Clone, Copy, Debug, PartialEq, Eq)]
pub struct Check {
    /// The place of the access among the entry's events, from 0.
    pub event: u32,
    /// The number of the granule, which is eight aligned bytes of writable memory.
    pub granule: u32,
    /// The cell word of this access on this granule.
    pub word: u64,
    /// How many events the thread's trace had before the access, modulo 4.
    pub turn: u8,
    /// The words that the granule's four cells gave.
    pub cells: [u64; 4],
    /// The cell that was stored, and its new word.
    pub stored: Option<(u8, u64)>,
}

/// What an entry tells of its thread's slot.
#[derive(Clone, Copy, Debug, PartialEq, Eq)]
pub enum DeskNote {
    Nothing,
    /// The thread took a slot.
    Attach(Label),
    /// The thread left a slot whose epochs are spent.
    Leave(Label),
}

/// Some instructions of one thread, of which only the last may use an object that threads share.
/// An entry without instructions has a note.
#[derive(Drop)]
pub struct Entry {
    /// The round, from 0.
    pub round: u32,
    /// The era of the round, from 0.
    pub era: u32,
    /// What orders the entries, together with the thread's number.
    pub stamp: u64,
    /// The thread's number; 0 is the main thread.
    pub tid: u32,
    /// How many instructions the entry covers.
    pub steps: u32,
    pub note: DeskNote,
    pub events: EventList,
    pub checks: CheckList,
}

/// A history.
#[derive(Drop)]
pub struct Record {
    pub entries: Entries,
}

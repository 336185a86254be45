// The entries of a history.
ghost use Rattle.std.specs.Prelude.{◌≡◌, ◌<◌, ◌≤◌, ◌+◌, ◌^◌, ◌∷◌, ◌++◌, [], ℕ, length, slice_get, option_map, OnOk, OnErr};
ghost use Rattle.run_record.specs.Flat.{entry_of, head_of, flat_entries, IsWhole, HasRoom};
ghost use Rattle.run_record.specs.Between.{attach_entries, leave_entries, entries_between};

use crate::flat::{Flat, put_entry, reserve};
use crate::{Check, DeskNote, Entry, Event, Head, Label, NoMemory};
use std::alloc::Global;
use std::marker::Model;

/// The most events, and the most checks, that an entry may have.
const MOST: usize = 0xffff_ffff;

/// The entries of a history, whose events and checks lie one after another. Contracts see the list
/// of the entries.
#[derive(Drop)]
pub struct Entries {
    pub(crate) flat: Flat,
}

impl Model for Entries {
    ghost use Rattle.std.specs.Prelude.{List};
    ghost use Rattle.run_record.specs.declared.entry.Entry.{Entry};
    ghost use Rattle.run_record.specs.Flat.{flat_entries, IsWhole};

    ghost Value = { List Entry };

    ghost view = { λ e. flat_entries e.flat };

    ghost invariant = { λ e. IsWhole e.flat };
}

/// Appends the entry of a label that the thread took, if it took one. The head has the first stamp;
/// the next one is given back.
fn put_attached(flat: &mut Flat, head: Head, attached: Option<Label>) -> u64
    requires stamp { head.stamp + 2 < 2 ^ 64 }
    requires whole { IsWhole flat.old }
    requires room { HasRoom flat.old 1 0 0 }
    ensures stamp { result ≡ head.stamp + length (attach_entries head attached) }
    ensures few { result ≤ head.stamp + 1 }
    ensures whole { IsWhole flat.new }
    ensures entries { flat_entries flat.new
        ≡ flat_entries flat.old ++ attach_entries head attached }
    ensures room { (n es cs : ℕ) → HasRoom flat.old (n + 1) es cs → HasRoom flat.new n es cs }
{
    match attached {
        Some(label) => {
            put_entry(
                flat,
                Head { steps: 0, ..head },
                DeskNote::Attach(label),
                &[],
                &[],
            );
            head.stamp + 1
        }
        None => head.stamp,
    }
}

/// Appends the entry of a label that the thread left, if it left one.
fn put_left(flat: &mut Flat, head: Head, stamp: u64, left: Option<Label>)
    requires whole { IsWhole flat.old }
    requires room { HasRoom flat.old 1 0 0 }
    ensures whole { IsWhole flat.new }
    ensures entries { flat_entries flat.new
        ≡ flat_entries flat.old ++ leave_entries head stamp left }
{
    if let Some(label) = left {
        let head = Head {
            stamp,
            steps: 0,
            ..head
        };
        put_entry(flat, head, DeskNote::Leave(label), &[], &[]);
    }
}

impl Entries {
    /// No entries. It takes no memory.
    pub fn new(alloc: Global) -> Entries
        ensures { result ≡ [] }
    {
        Entries {
            flat: Flat {
                rows: Vec::new(alloc),
                notes: Vec::new(alloc),
                events: Vec::new(alloc),
                checks: Vec::new(alloc),
                words: Vec::new(alloc),
            },
        }
    }

    /// How many entries there are.
    pub fn len(&self) -> usize
        ensures { result ≡ length self.now }
    {
        self.flat.rows.len()
    }

    /// What the entry of that number has but for its note, its events and its checks, if there is one.
    pub fn head(&self, n: usize) -> Option<Head>
        ensures { result ≡ option_map head_of (slice_get self.now n) }
    {
        match self.flat.rows.get(n) {
            Some(row) => Some(row.head),
            None => None,
        }
    }

    /// One more entry. After an error nothing has changed. There is no memory for 2^32 events or
    /// checks of one entry.
    pub fn push(
        &mut self,
        head: Head,
        note: DeskNote,
        events: &[Event],
        checks: &[Check],
    ) -> Result<(), NoMemory>
        ensures ok { OnOk result (self.new
            ≡ self.old ++ entry_of head note events.now checks.now ∷ []) }
        ensures err { OnErr result (self.new ≡ self.old) }
    {
        if events.len() > MOST || checks.len() > MOST {
            return Err(NoMemory);
        }
        reserve(&mut self.flat, 1, events.len(), checks.len())?;
        put_entry(&mut self.flat, head, note, events, checks);
        Ok(())
    }

    /// An entry, between that of a label that its thread took before and that of one that it left
    /// after, where it did. Their stamps follow one another from the head's on. After an error
    /// nothing has changed. There is no memory for 2^32 events or checks of one entry.
    pub fn push_between(
        &mut self,
        head: Head,
        attached: Option<Label>,
        events: &[Event],
        checks: &[Check],
        left: Option<Label>,
    ) -> Result<(), NoMemory>
        requires { head.stamp + 2 < 2 ^ 64 }
        ensures ok { OnOk result (self.new
            ≡ self.old ++ entries_between head attached events.now checks.now left) }
        ensures err { OnErr result (self.new ≡ self.old) }
    {
        if events.len() > MOST || checks.len() > MOST {
            return Err(NoMemory);
        }
        reserve(&mut self.flat, 3, events.len(), checks.len())?;
        let stamp = put_attached(&mut self.flat, head, attached);
        let made = Head { stamp, ..head };
        put_entry(&mut self.flat, made, DeskNote::Nothing, events, checks);
        put_left(&mut self.flat, head, stamp + 1, left);
        Ok(())
    }

    /// Appends an entry that is a value of its own. After an error nothing has changed.
    pub fn push_entry(&mut self, entry: &Entry) -> Result<(), NoMemory>
        ensures ok { OnOk result (self.new ≡ self.old ++ entry.now ∷ []) }
        ensures err { OnErr result (self.new ≡ self.old) }
    {
        let head = Head {
            round: entry.round,
            era: entry.era,
            stamp: entry.stamp,
            tid: entry.tid,
            steps: entry.steps,
        };
        self.push(
            head,
            entry.note,
            entry.events.as_slice(),
            entry.checks.as_slice(),
        )
    }
}

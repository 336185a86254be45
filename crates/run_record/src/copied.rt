// Entries as values of their own.
ghost use Rattle.std.specs.Prelude.{◌≡◌, ◌++◌, ℕ, length, drop, IfOk, OnOk};
ghost use Rattle.run_record.specs.declared.entry.DeskNote.TheVariants as DeskNote;
ghost use Rattle.run_record.specs.Marks.{first_at, rest_at};
ghost use Rattle.run_record.specs.Flat.{checks_of, check_of, entry_of, entries_of, event_count, check_count};

use crate::flat::{KeptCheck, Mark, Row};
use crate::{Check, DeskNote, Entries, Entry, Event, Head, Items, NoMemory};
use std::alloc::Global;

/// What the first of the marks has, where it is of that number, and else the other word.
fn first_word(n: usize, other: u64, words: &[Mark<u64>]) -> u64
    ensures { result ≡ first_at n other words.now }
{
    match words.first() {
        Some(mark) if mark.at == n => mark.value,
        _ => other,
    }
}

fn first_note(n: usize, notes: &[Mark<DeskNote>]) -> DeskNote
    ensures { result ≡ first_at n DeskNote.Nothing notes.now }
{
    match notes.first() {
        Some(mark) if mark.at == n => mark.value,
        _ => DeskNote::Nothing,
    }
}

/// The marks but for the one of that number.
fn later_words(n: usize, words: &[Mark<u64>]) -> &[Mark<u64>]
    ensures { result.now ≡ rest_at n words.now }
{
    match words.split_first() {
        Some((mark, rest)) if mark.at == n => rest,
        _ => words,
    }
}

fn later_notes(n: usize, notes: &[Mark<DeskNote>]) -> &[Mark<DeskNote>]
    ensures { result.now ≡ rest_at n notes.now }
{
    match notes.split_first() {
        Some((mark, rest)) if mark.at == n => rest,
        _ => notes,
    }
}

fn whole_check(check: &KeptCheck, word: u64) -> Check
    ensures { result ≡ check_of check.now word }
{
    Check {
        event: check.event,
        granule: check.granule,
        word: check.word,
        turn: check.turn,
        cells: check.cells,
        stored: match check.cell {
            Some(cell) => Some((cell, word)),
            None => None,
        },
    }
}

fn whole_checks(
    alloc: Global,
    checks: &[KeptCheck],
    words: &[Mark<u64>],
) -> Result<Vec<Check>, NoMemory>
    ensures { IfOk result (λ whole. whole.items ≡ checks_of 0 checks.now words.now) }
{
    let mut whole = Vec::new(alloc);
    let mut rest = words;
    for (n, check) in checks.iter().enumerate() {
        whole.push(whole_check(check, first_word(n, check.word, rest)))?;
        rest = later_words(n, rest);
    }
    Ok(whole)
}

fn whole_entry(
    alloc: Global,
    head: &Head,
    note: DeskNote,
    events: &[Event],
    checks: &[Check],
) -> Result<Entry, NoMemory>
    ensures { IfOk result (λ entry. entry ≡ entry_of head.now note events.now checks.now) }
{
    let events = Vec::from_slice(alloc, events)?;
    let checks = Vec::from_slice(alloc, checks)?;
    Ok(Entry {
        round: head.round,
        era: head.era,
        stamp: head.stamp,
        tid: head.tid,
        steps: head.steps,
        note,
        events: Items::from_vec(events),
        checks: Items::from_vec(checks),
    })
}

/// Appends the entries, each as a value of its own.
fn put_entries(
    alloc: Global,
    rows: &[Row],
    notes: &[Mark<DeskNote>],
    events: &[Event],
    checks: &[Check],
    entries: &mut Vec<Entry>,
) -> Result<(), NoMemory>
    requires events { event_count rows.now ≡ length events.now }
    requires checks { check_count rows.now ≡ length checks.now }
    ensures { OnOk result (entries.new.items
        ≡ entries.old.items ++ entries_of 0 rows.now notes.now events.now checks.now) }
{
    let mut notes = notes;
    let mut events = events;
    let mut checks = checks;
    for (n, row) in rows.iter().enumerate() {
        let (own_events, later_events) = events.split_at(row.events as usize);
        let (own_checks, later_checks) = checks.split_at(row.checks as usize);
        let note = first_note(n, notes);
        entries.push(whole_entry(alloc, &row.head, note, own_events, own_checks)?)?;
        events = later_events;
        checks = later_checks;
        notes = later_notes(n, notes);
    }
    Ok(())
}

impl Entries {
    /// Appends each entry to a list, as a value of its own. After an error some may be missing.
    pub fn copy_to(&self, alloc: Global, entries: &mut Vec<Entry>) -> Result<(), NoMemory>
        ensures { OnOk result (entries.new.items ≡ entries.old.items ++ self.now) }
    {
        let checks = whole_checks(alloc, &self.flat.checks, &self.flat.words)?;
        put_entries(
            alloc,
            &self.flat.rows,
            &self.flat.notes,
            &self.flat.events,
            &checks,
            entries,
        )
    }

    /// The entries, each as a value of its own.
    pub fn to_vec(&self, alloc: Global) -> Result<Vec<Entry>, NoMemory>
        ensures { IfOk result (λ entries. entries.items ≡ self.now) }
    {
        let mut entries = Vec::new(alloc);
        self.copy_to(alloc, &mut entries)?;
        Ok(entries)
    }
}

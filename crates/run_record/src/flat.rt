// Lists of entries whose events and checks lie one after another.
ghost use Rattle.std.specs.Prelude.{◌≡◌, ◌<◌, ◌≤◌, ◌+◌, ◌^◌, ◌∷◌, ◌++◌, [], ℕ, length, vec_len, vec_capacity, OnOk};
ghost use Rattle.run_record.specs.Marks.{word_marks, note_marks, AreUsed};
ghost use Rattle.run_record.specs.Flat.{checks_of, check_of, stored_word, entry_of, flat_entries, IsWhole, HasRoom, IsSame, KeepsRoom};

use crate::{Check, DeskNote, Event, NoMemory};
use std::alloc::Global;

/// An entry but for its note, its events and its checks.
#[derive(Clone, Copy)]
pub struct Head {
    pub round: u32,
    pub era: u32,
    pub stamp: u64,
    pub tid: u32,
    pub steps: u32,
}

/// The head of an entry, and how many events and checks it has.
#[derive(Clone, Copy)]
pub(crate) struct Row {
    pub(crate) head: Head,
    pub(crate) events: u32,
    pub(crate) checks: u32,
}

/// What few of many things have: the value of the one with that number.
#[derive(Clone, Copy)]
pub(crate) struct Mark<T> {
    pub(crate) at: usize,
    pub(crate) value: T,
}

/// A check, but for the word that it stored.
#[derive(Clone, Copy)]
pub(crate) struct KeptCheck {
    pub(crate) event: u32,
    pub(crate) granule: u32,
    pub(crate) word: u64,
    pub(crate) cells: [u64; 4],
    pub(crate) turn: u8,
    /// The cell that was stored.
    pub(crate) cell: Option<u8>,
}

/// The parts of entries, each in the entries' order.
#[derive(Drop)]
pub(crate) struct Flat {
    pub(crate) rows: Vec<Row>,
    // Of the entries that have a note.
    pub(crate) notes: Vec<Mark<DeskNote>>,
    pub(crate) events: Vec<Event>,
    pub(crate) checks: Vec<KeptCheck>,
    // Of the checks that stored another word than their own; no run has one.
    pub(crate) words: Vec<Mark<u64>>,
}

/// Appends an element, for which there is room.
pub(crate) fn put<T: Drop>(items: &mut Vec<T>, item: T)
    requires { vec_len items.old < vec_capacity items.old }
    ensures items { items.new.items ≡ items.old.items ++ item ∷ [] }
    ensures len { vec_len items.new ≡ vec_len items.old + 1 }
    ensures capacity { vec_capacity items.old ≤ vec_capacity items.new }
{
    items.push(item).unwrap();
}

/// Appends elements, for which there is room.
pub(crate) fn put_all<T: Copy>(items: &mut Vec<T>, more: &[T])
    requires { vec_len items.old + length more.now ≤ vec_capacity items.old }
    ensures items { items.new.items ≡ items.old.items ++ more.now }
    ensures len { vec_len items.new ≡ vec_len items.old + length more.now }
    ensures capacity { vec_capacity items.old ≤ vec_capacity items.new }
{
    items.extend_from_slice(more).unwrap();
}

/// Keeps the note of the entry of that number, if it has one.
fn put_note(notes: &mut Vec<Mark<DeskNote>>, at: usize, note: DeskNote)
    requires { vec_len notes.old < vec_capacity notes.old }
    ensures items { notes.new.items ≡ notes.old.items ++ note_marks at note }
    ensures len { vec_len notes.new ≤ vec_len notes.old + 1 }
    ensures capacity { vec_capacity notes.old ≤ vec_capacity notes.new }
{
    match note {
        DeskNote::Nothing => {}
        _ => put(notes, Mark { at, value: note }),
    }
}

/// Keeps the word that the check of that number stored, where it isn't its own.
fn put_word(words: &mut Vec<Mark<u64>>, at: usize, own: u64, stored: Option<(u8, u64)>)
    requires { vec_len words.old < vec_capacity words.old }
    ensures items { words.new.items ≡ words.old.items ++ word_marks at own stored }
    ensures len { vec_len words.new ≤ vec_len words.old + 1 }
    ensures capacity { vec_capacity words.old ≤ vec_capacity words.new }
{
    if let Some((_, word)) = stored {
        if word != own {
            put(words, Mark { at, value: word });
        }
    }
}

fn kept_check(check: &Check) -> KeptCheck
    ensures check { check_of result (stored_word check.now.word check.now.stored) ≡ check.now }
    ensures word { result.word ≡ check.now.word }
{
    let Check {
        event,
        granule,
        word,
        turn,
        cells,
        stored,
    } = *check;
    KeptCheck {
        event,
        granule,
        word,
        cells,
        turn,
        cell: match stored {
            Some((cell, _)) => Some(cell),
            None => None,
        },
    }
}

/// Appends a check, for which there is room.
fn put_check(checks: &mut Vec<KeptCheck>, words: &mut Vec<Mark<u64>>, check: &Check)
    requires room { vec_len checks.old < vec_capacity checks.old }
    requires room_for_word { vec_len words.old < vec_capacity words.old }
    requires used { AreUsed 0 (length checks.old.items) words.old.items }
    ensures used { AreUsed 0 (length checks.new.items) words.new.items }
    ensures checks { checks_of 0 checks.new.items words.new.items
        ≡ checks_of 0 checks.old.items words.old.items ++ check.now ∷ [] }
    ensures len { vec_len checks.new ≡ vec_len checks.old + 1 }
    ensures len_of_words { vec_len words.new ≤ vec_len words.old + 1 }
    ensures capacity { vec_capacity checks.old ≤ vec_capacity checks.new }
    ensures capacity_of_words { vec_capacity words.old ≤ vec_capacity words.new }
{
    put_word(words, checks.len(), check.word, check.stored);
    put(checks, kept_check(check));
}

/// Appends checks, for which there is room.
fn put_checks(checks: &mut Vec<KeptCheck>, words: &mut Vec<Mark<u64>>, more: &[Check])
    requires room { vec_len checks.old + length more.now ≤ vec_capacity checks.old }
    requires room_for_words { vec_len words.old + length more.now ≤ vec_capacity words.old }
    requires used { AreUsed 0 (length checks.old.items) words.old.items }
    ensures used { AreUsed 0 (length checks.new.items) words.new.items }
    ensures checks { checks_of 0 checks.new.items words.new.items
        ≡ checks_of 0 checks.old.items words.old.items ++ more.now }
    ensures len { vec_len checks.new ≡ vec_len checks.old + length more.now }
    ensures len_of_words { vec_len words.new ≤ vec_len words.old + length more.now }
    ensures capacity { vec_capacity checks.old ≤ vec_capacity checks.new }
    ensures capacity_of_words { vec_capacity words.old ≤ vec_capacity words.new }
{
    for check in more {
        put_check(checks, words, check);
    }
}

/// Makes room for so many entries, with so many events and checks in all.
pub(crate) fn reserve(
    flat: &mut Flat,
    entries: usize,
    events: usize,
    checks: usize,
) -> Result<(), NoMemory>
    ensures same { IsSame flat.old flat.new }
    ensures room { OnOk result (HasRoom flat.new entries events checks) }
{
    flat.rows.reserve(entries)?;
    flat.notes.reserve(entries)?;
    flat.events.reserve(events)?;
    flat.checks.reserve(checks)?;
    flat.words.reserve(checks)?;
    Ok(())
}

/// Appends an entry, for which there is room.
pub(crate) fn put_entry(
    flat: &mut Flat,
    head: Head,
    note: DeskNote,
    events: &[Event],
    checks: &[Check],
)
    requires whole { IsWhole flat.old }
    requires room { HasRoom flat.old 1 (length events.now) (length checks.now) }
    requires few_events { length events.now < 2 ^ 32 }
    requires few_checks { length checks.now < 2 ^ 32 }
    ensures whole { IsWhole flat.new }
    ensures entries { flat_entries flat.new
        ≡ flat_entries flat.old ++ entry_of head note events.now checks.now ∷ [] }
    ensures room { KeepsRoom flat.old flat.new (length events.now) (length checks.now) }
{
    put_note(&mut flat.notes, flat.rows.len(), note);
    put_all(&mut flat.events, events);
    put_checks(&mut flat.checks, &mut flat.words, checks);
    let row = Row {
        head,
        events: events.len() as u32,
        checks: checks.len() as u32,
    };
    put(&mut flat.rows, row);
}

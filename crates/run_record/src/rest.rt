// What is left of a log.
ghost use Rattle.std.specs.Prelude.{◌≡◌, ◌≤◌, ◌<◌, ◌-◌, ◌+◌, ◌^◌, ◌++◌, take, drop, length, All, OnOk, OnErr, vec_len, vec_capacity};
ghost use Rattle.run_record.specs.Marks.{renumbered};
ghost use Rattle.run_record.specs.Flat.{flat_entries, IsWhole};
ghost use Rattle.run_record.specs.Rest.{rest_entries, IsRest};

use crate::cut::{count_before, sizes};
use crate::flat::{Flat, KeptCheck, Mark, Row, put, put_all, reserve};
use crate::{DeskNote, Entries, Event, NoMemory};

/// Some entries of a log, one after another.
#[derive(Clone, Copy)]
pub(crate) struct Rest<'a> {
    // How many entries of the log stand in front of them, and how many checks.
    pub(crate) entry: usize,
    pub(crate) check: usize,
    pub(crate) rows: &'a [Row],
    pub(crate) notes: &'a [Mark<DeskNote>],
    pub(crate) events: &'a [Event],
    pub(crate) checks: &'a [KeptCheck],
    pub(crate) words: &'a [Mark<u64>],
}

impl Entries {
    /// All entries.
    pub(crate) fn rest(&self) -> Rest<'_>
        ensures entries { rest_entries result ≡ self.now }
        ensures rest { IsRest result }
    {
        Rest {
            entry: 0,
            check: 0,
            rows: &self.flat.rows,
            notes: &self.flat.notes,
            events: &self.flat.events,
            checks: &self.flat.checks,
            words: &self.flat.words,
        }
    }
}

/// The first n entries, and the others.
pub(crate) fn split<'a>(rest: &Rest<'a>, n: usize) -> (Rest<'a>, Rest<'a>)
    requires rest { IsRest rest.now }
    requires within { n ≤ length rest.now.rows.now }
    ensures front { rest_entries result.0 ≡ take n (rest_entries rest.now) }
    ensures front_rest { IsRest result.0 }
    ensures later { rest_entries result.1 ≡ drop n (rest_entries rest.now) }
    ensures later_rest { IsRest result.1 }
{
    let (rows, later_rows) = rest.rows.split_at(n);
    let (event_count, check_count) = sizes(rows);
    let (events, later_events) = rest.events.split_at(event_count);
    let (checks, later_checks) = rest.checks.split_at(check_count);
    let entry = rest.entry + n;
    let check = rest.check + check_count;
    let (notes, later_notes) = rest.notes.split_at(count_before(rest.notes, entry));
    let (words, later_words) = rest.words.split_at(count_before(rest.words, check));
    let front = Rest {
        entry: rest.entry,
        check: rest.check,
        rows,
        notes,
        events,
        checks,
        words,
    };
    let later = Rest {
        entry,
        check,
        rows: later_rows,
        notes: later_notes,
        events: later_events,
        checks: later_checks,
        words: later_words,
    };
    (front, later)
}

/// Appends marks, for which there is room. What was number `from` is number `to`.
fn put_marks<T: Copy>(marks: &mut Vec<Mark<T>>, more: &[Mark<T>], from: usize, to: usize)
    requires room { vec_len marks.old + length more.now ≤ vec_capacity marks.old }
    requires fits { All (λ x. (from ≤ x.at) × (to + (x.at - from) < 2 ^ 64)) more.now }
    ensures items { marks.new.items ≡ marks.old.items ++ renumbered from to more.now }
{
    for mark in more {
        let at = to + (mark.at - from);
        put(
            marks,
            Mark {
                at,
                value: mark.value,
            },
        );
    }
}

/// Appends entries of a log. After an error nothing has changed.
pub(crate) fn put_rest(flat: &mut Flat, rest: &Rest<'_>) -> Result<(), NoMemory>
    requires whole { IsWhole flat.old }
    requires rest { IsRest rest.now }
    ensures whole { IsWhole flat.new }
    ensures ok { OnOk result (flat_entries flat.new ≡ flat_entries flat.old ++ rest_entries rest.now) }
    ensures err { OnErr result (flat_entries flat.new ≡ flat_entries flat.old) }
{
    reserve(flat, rest.rows.len(), rest.events.len(), rest.checks.len())?;
    let entries = flat.rows.len();
    let checks = flat.checks.len();
    put_marks(&mut flat.notes, rest.notes, rest.entry, entries);
    put_marks(&mut flat.words, rest.words, rest.check, checks);
    put_all(&mut flat.rows, rest.rows);
    put_all(&mut flat.events, rest.events);
    put_all(&mut flat.checks, rest.checks);
    Ok(())
}

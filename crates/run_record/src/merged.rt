// Sorted logs, merged onto a history.
ghost use Rattle.std.specs.Prelude.{◌≡◌, ◌≤◌, ◌<◌, ◌+◌, ◌++◌, List, length, take, All, slice_index_or, IfOk, OnOk, OnErr};
ghost use Rattle.std.specs.Bool.{OnTrue, OnFalse};
ghost use Rattle.run_record.specs.declared.rest.Rest.{Rest as ARest};
ghost use Rattle.run_record.specs.declared.flat.Head.{Head as AHead};
ghost use Rattle.run_record.specs.declared.flat.Row.{Row as ARow};
ghost use Rattle.run_record.specs.declared.entry.Entry.{Entry};
ghost use Rattle.run_record.specs.Flat.{flat_entries, IsWhole};
ghost use Rattle.run_record.specs.Order.{AreOrdered, AreDistinct, entries_in, AppendsMerged};
ghost use Rattle.run_record.specs.Rest.{rest_entries, IsRest};
ghost use Rattle.run_record.specs.Merging.{IsBefore, IsUpto, IsUptoLimit, IsLimitOf, IsFirst, IsChosen, IsChosenBelow, AreRestsOf};

use crate::cut::cut;
use crate::flat::{Flat, Head, Row};
use crate::rest::{Rest, put_rest, split};
use crate::{Entries, NoMemory};
use std::alloc::Global;

/// One of several rests, whose first entry stands before those of all others.
#[derive(Clone, Copy)]
pub(crate) struct Choice {
    pub(crate) index: usize,
    pub(crate) head: Head,
    /// The least of the others' first heads, if they have entries.
    pub(crate) limit: Option<Head>,
}

/// Whether an entry with the first head stands before one with the other.
fn precedes(first: &Head, other: &Head) -> bool
    ensures yes { OnTrue result (IsBefore first.now other.now) }
    ensures no { OnFalse result (IsUpto other.now first.now) }
{
    first.stamp < other.stamp || first.stamp == other.stamp && first.tid < other.tid
}

fn least(limit: Option<Head>, head: Head) -> Head
    ensures upto { IsUpto result head }
    ensures limit { IsUptoLimit result limit }
    ensures one { (first : AHead) → IsUpto first head → IsUptoLimit first limit → IsUpto first result }
{
    match limit {
        Some(other) => { if precedes(&other, &head) { other } else { head } }
        None => head,
    }
}

/// The choice, where one more rest begins with that head.
fn choice_with(choice: Option<Choice>, index: usize, head: Head) -> Choice
    ensures { (rests : List ARest) → IsChosenBelow rests index choice → IsFirst rests index head
        → IsChosen rests (index + 1) result }
{
    match choice {
        Some(before) => {
            if precedes(&head, &before.head) {
                Choice {
                    index,
                    head,
                    limit: Some(before.head),
                }
            } else {
                Choice {
                    limit: Some(least(before.limit, head)),
                    ..before
                }
            }
        }
        None => {
            Choice {
                index,
                head,
                limit: None,
            }
        }
    }
}

/// The choice with one more rest, which may have no entries.
fn choice_after(choice: Option<Choice>, index: usize, rest: &Rest<'_>) -> Option<Choice>
    ensures { (rests : List ARest) → IsChosenBelow rests index choice
        → ((d : ARest) → slice_index_or rests index d ≡ rest.now) → IsChosenBelow rests (index + 1) result }
{
    match rest.rows.first() {
        Some(row) => Some(choice_with(choice, index, row.head)),
        None => choice,
    }
}

/// The rest that comes next, if one has entries.
fn choose(rests: &[Rest<'_>]) -> Option<Choice>
    ensures { IsChosenBelow rests.now (length rests.now) result }
{
    let mut choice = None;
    for (n, rest) in rests.iter().enumerate() {
        choice = choice_after(choice, n, rest);
    }
    choice
}

/// How many of the first rows stand before the limit.
fn run(rows: &[Row], limit: Option<Head>) -> usize
    ensures within { result ≤ length rows.now }
    ensures upto { All (λ r. IsUptoLimit r.head limit) (take result rows.now) }
    ensures stops { (d : ARow) → result < length rows.now → ¬ IsUptoLimit (slice_index_or rows.now result d).head limit }
{
    if let Some(limit) = limit {
        for (n, row) in rows.iter().enumerate() {
            if precedes(&limit, &row.head) {
                return n;
            }
        }
    }
    rows.len()
}

fn rests_of<'a>(alloc: Global, logs: &'a [Entries]) -> Result<Vec<Rest<'a>>, NoMemory>
    ensures { IfOk result (λ rests. AreRestsOf logs.now rests.items) }
{
    let mut rests = Vec::with_capacity(alloc, logs.len())?;
    for log in logs {
        rests.push(log.rest())?;
    }
    Ok(rests)
}

/// Appends the entries of sorted logs in the order of all. After an error some may have been appended.
fn put_merged(alloc: Global, flat: &mut Flat, logs: &[Entries]) -> Result<(), NoMemory>
    requires whole { IsWhole flat.old }
    requires ordered { All AreOrdered logs.now }
    requires distinct { AreDistinct (entries_in logs.now) }
    ensures whole { IsWhole flat.new }
    ensures ok { OnOk result (AppendsMerged (flat_entries flat.old) (flat_entries flat.new) logs.now) }
    ensures more { (more : List Entry) × (flat_entries flat.new ≡ flat_entries flat.old ++ more) }
{
    let mut rests = rests_of(alloc, logs)?;
    while let Some(choice) = choose(&rests) {
        let rest = rests[choice.index];
        let count = run(rest.rows, choice.limit);
        let (front, later) = split(&rest, count);
        put_rest(flat, &front)?;
        rests[choice.index] = later;
    }
    Ok(())
}

impl Entries {
    /// Appends the entries of all logs, each of which is sorted, in the order of their stamps, and of threads where stamps are equal. After
    /// an error nothing has changed.
    pub fn append_merged(&mut self, alloc: Global, logs: &[Entries]) -> Result<(), NoMemory>
        requires ordered { All AreOrdered logs.now }
        requires distinct { AreDistinct (entries_in logs.now) }
        ensures ok { OnOk result (AppendsMerged self.old self.new logs.now) }
        ensures err { OnErr result (self.new ≡ self.old) }
    {
        let count = self.flat.rows.len();
        let merged = put_merged(alloc, &mut self.flat, logs);
        if merged.is_err() {
            cut(&mut self.flat, count);
        }
        merged
    }
}

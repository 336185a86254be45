// Ranges of addresses that may overlap, as a table of steps in which a place is found by binary search.
ghost use Rattle.std.specs.Prelude.{◌≡◌, ℕ, ◌+◌, ◌<◌, ◌≤◌, ◌^◌, length, ◌⊎◌, IfOk};
ghost use Rattle.std.specs.Bool.{OnTrue, OnFalse};
ghost use Rattle.std.specs.List.Sorted.{IsNonDecreasingBy};
ghost use Rattle.symbol_lines.specs.Spans.{better, own, owner_among, owner_at, IsNext};

use std::alloc::{AllocError, Global};

/// A range of addresses, and what stands for it. Where ranges overlap the greatest rank counts, and then the first.
#[derive(Clone, Copy)]
pub struct Span {
    /// The first address.
    pub start: u64,
    /// How many addresses there are.
    pub size: u64,
    pub rank: u64,
    pub item: usize,
}

/// What stands for a range.
#[derive(Clone, Copy)]
pub struct Owner {
    pub rank: u64,
    pub item: usize,
}

/// From an address on, up to the next step, all places have this owner.
#[derive(Clone, Copy)]
pub struct Step {
    pub from: u64,
    pub owner: Option<Owner>,
}

fn better(first: Option<Owner>, second: Option<Owner>) -> Option<Owner>
    ensures { result ≡ better first second }
{
    match (first, second) {
        (None, _) => second,
        (_, None) => first,
        (Some(a), Some(b)) => { if a.rank < b.rank { second } else { first } }
    }
}

fn steps_of_span(alloc: Global, span: Span) -> Result<Vec<Step>, AllocError>
    ensures value { IfOk result (λ v. (p : ℕ) → p < 2 ^ 64 → owner_at v.items p ≡ own span p) }
    ensures rising { IfOk result (λ v. IsNonDecreasingBy (λ s. s.from) v.items) }
{
    let mut steps = Vec::new(alloc);
    if span.size == 0 {
        return Ok(steps);
    }
    let owner = Owner {
        rank: span.rank,
        item: span.item,
    };
    steps.push(Step {
        from: span.start,
        owner: Some(owner),
    })?;
    if let Some(end) = span.start.checked_add(span.size) {
        steps.push(Step {
            from: end,
            owner: None,
        })?;
    }
    Ok(steps)
}

/// Of what is left of two tables, from these numbers on, a step of the first comes before all of the second.
fn is_first_next(first: &[Step], i: usize, second: &[Step], j: usize) -> bool
    requires first { IsNonDecreasingBy (λ s. s.from) first.now }
    requires second { IsNonDecreasingBy (λ s. s.from) second.now }
    requires left { (i < length first.now) ⊎ (j < length second.now) }
    ensures first { OnTrue result (IsNext first.now i second.now j) }
    ensures second { OnFalse result (IsNext second.now j first.now i) }
{
    if i >= first.len() {
        return false;
    }
    if j >= second.len() {
        return true;
    }
    first[i].from <= second[j].from
}

/// One table for two: a place has the better one of its two owners.
fn merge(alloc: Global, first: &[Step], second: &[Step]) -> Result<Vec<Step>, AllocError>
    requires first { IsNonDecreasingBy (λ s. s.from) first.now }
    requires second { IsNonDecreasingBy (λ s. s.from) second.now }
    ensures value { IfOk result (λ v. (p : ℕ) → owner_at v.items p ≡ better (owner_at first.now p) (owner_at second.now p)) }
    ensures rising { IfOk result (λ v. IsNonDecreasingBy (λ s. s.from) v.items) }
{
    let mut steps = Vec::new(alloc);
    let mut place = 0;
    let mut first_owner = None;
    let mut second_owner = None;
    let mut i = 0;
    let mut j = 0;
    while i < first.len() || j < second.len() {
        if is_first_next(first, i, second, j) {
            let step = first[i];
            place = step.from;
            first_owner = step.owner;
            i += 1;
        } else {
            let step = second[j];
            place = step.from;
            second_owner = step.owner;
            j += 1;
        }
        steps.push(Step {
            from: place,
            owner: better(first_owner, second_owner),
        })?;
    }
    Ok(steps)
}

/// The table of these ranges.
pub fn steps_of(alloc: Global, spans: &[Span]) -> Result<Vec<Step>, AllocError>
    ensures value { IfOk result (λ v. (p : ℕ) → p < 2 ^ 64 → owner_at v.items p ≡ owner_among spans.now p) }
    ensures rising { IfOk result (λ v. IsNonDecreasingBy (λ s. s.from) v.items) }
{
    if spans.is_empty() {
        return Ok(Vec::new(alloc));
    }
    if spans.len() == 1 {
        return steps_of_span(alloc, spans[0]);
    }
    let half = spans.len() / 2;
    let (front, back) = spans.split_at(half);
    let first = steps_of(alloc, front)?;
    let second = steps_of(alloc, back)?;
    merge(alloc, first.as_slice(), second.as_slice())
}

/// The owner of a place.
pub fn find_owner(steps: &[Step], place: u64) -> Option<Owner>
    requires { IsNonDecreasingBy (λ s. s.from) steps.now }
    ensures { result ≡ owner_at steps.now place }
{
    let count = steps.partition_point(|step| step.from <= place);
    if count == 0 {
        None
    } else {
        steps[count - 1].owner
    }
}

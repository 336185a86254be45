// The first two events of two chains that are in no order.
ghost use Rattle.std.specs.Prelude.{◌↔◌, ◌⊎◌, ◌<◌, ◌≤◌, ℕ, List, length, IsTrue};
ghost use Rattle.std.specs.Bool.{OnTrue, OnFalse};
ghost use Rattle.run_record.specs.declared.entry.Entry.{Entry};
ghost use Rattle.run_laws.specs.Moments.{Item};
ghost use Rattle.offline_audit.specs.Orders.{TellsOrder};
ghost use Rattle.offline_audit.specs.Chains.{IsEvent, IsChain, position_of};
ghost use Rattle.offline_audit.specs.Firsts.{IsFirstUnordered, AreElsewhere, IsNext, AreMerged, IsMergedOrApart, IsFirstApart};

use crate::order::{EventName, Order};
use crate::sweep::precedes;

/// Two events in no order, by their places in the history.
#[derive(Clone, Copy, Debug, PartialEq, Eq)]
pub(crate) struct Apart {
    pub(crate) later: EventName,
    pub(crate) earlier: EventName,
}

/// Whether the first event stands before the second in the history.
pub(crate) fn is_earlier(first: EventName, second: EventName) -> bool
    ensures { (h : ℕ → Item) (entries : List Entry) → IsEvent h entries first → IsEvent h entries second
        → IsTrue result ↔ (position_of entries first < position_of entries second) }
{
    first.entry < second.entry || (first.entry == second.entry && first.event < second.event)
}

/// The first of these events that doesn't happen before the named one, if there is one. Where the last of them does, all do.
fn first_unordered(order: &Order, names: &[EventName], name: EventName) -> Option<EventName>
    ensures { (h : ℕ → Item) (entries : List Entry) → TellsOrder h entries order.now → IsChain h entries names.now
        → IsEvent h entries name → IsFirstUnordered h entries names.now name result }
{
    match names.last() {
        Some(last) => {
            if precedes(order, *last, name) {
                return None;
            }
        }
        None => return None,
    }
    for other in names {
        if !precedes(order, *other, name) {
            return Some(*other);
        }
    }
    None
}

/// Whether the first chain's event at i stands before those of the second one from j on; else that one's event at j stands before
/// those of the first from i on.
fn is_next(xs: &[EventName], i: usize, ys: &[EventName], j: usize) -> bool
    requires { (i < length xs.now) ⊎ (j < length ys.now) }
    ensures yes { OnTrue result ((i < length xs.now) × ((h : ℕ → Item) (entries : List Entry) → IsChain h entries xs.now
        → IsChain h entries ys.now → IsNext entries xs.now i ys.now j)) }
    ensures no { OnFalse result ((j < length ys.now) × ((h : ℕ → Item) (entries : List Entry) → IsChain h entries xs.now
        → IsChain h entries ys.now → AreElsewhere entries xs.now ys.now → IsNext entries ys.now j xs.now i)) }
{
    if i >= xs.len() {
        return false;
    }
    if j >= ys.len() {
        return true;
    }
    is_earlier(xs[i], ys[j])
}

/// The first chain's event at i, which comes next, with the first one of the second chain's j events before it that is in no order
/// with it.
fn apart_at(order: &Order, xs: &[EventName], i: usize, ys: &[EventName], j: usize) -> Option<Apart>
    requires within { i < length xs.now }
    requires passed { j ≤ length ys.now }
    ensures { (h : ℕ → Item) (entries : List Entry) → TellsOrder h entries order.now → IsChain h entries xs.now
        → IsChain h entries ys.now → AreMerged h entries xs.now ys.now i j → IsNext entries xs.now i ys.now j
        → IsMergedOrApart h entries xs.now ys.now i j result }
{
    let later = xs[i];
    match first_unordered(order, &ys[..j], later) {
        Some(earlier) => Some(Apart { later, earlier }),
        None => None,
    }
}

/// The first event of the one chain or the other that is in no order with an earlier one of the other chain, and the first such
/// one; none where all are in order. One passage tells, by the history's order.
pub(crate) fn first_apart(order: &Order, xs: &[EventName], ys: &[EventName]) -> Option<Apart>
    ensures { (h : ℕ → Item) (entries : List Entry) → TellsOrder h entries order.now → IsChain h entries xs.now
        → IsChain h entries ys.now → AreElsewhere entries xs.now ys.now → IsFirstApart h entries xs.now ys.now result }
{
    let mut i = 0;
    let mut j = 0;
    'passage: while i < xs.len() || j < ys.len() {
        if is_next(xs, i, ys, j) {
            match apart_at(order, xs, i, ys, j) {
                Some(apart) => return Some(apart),
                None => i += 1,
            }
        } else {
            match apart_at(order, ys, j, xs, i) {
                Some(apart) => return Some(apart),
                None => j += 1,
            }
        }
    }
    None
}

// Whether two chains of events are in order.
ghost use Rattle.std.specs.Prelude.{◌≡◌, ◌↔◌, ℕ, List, IsTrue};
ghost use Rattle.std.specs.Bool.{OnTrue, OnFalse};
ghost use Rattle.run_record.specs.declared.entry.Entry.{Entry};
ghost use Rattle.run_laws.specs.Moments.{Item};
ghost use Rattle.offline_audit.specs.Orders.{TellsOrder};
ghost use Rattle.offline_audit.specs.Chains.{IsEvent, ComesBefore, IsChain, AreApart, AreOrdered};

use crate::order::{EventName, Order};

/// Whether the first event happens before the second.
pub(crate) fn precedes(order: &Order, first: EventName, second: EventName) -> bool
    ensures { (h : ℕ → Item) (entries : List Entry) → TellsOrder h entries order.now → IsEvent h entries first
        → IsEvent h entries second → IsTrue result ↔ ComesBefore h entries first second }
{
    order.tells(first, second)
}

/// Whether an event of the one chain and one of the other are in no order. An event that happens before one of the other
/// chain happens before all later ones, so one passage tells.
pub(crate) fn are_apart(order: &Order, xs: &[EventName], ys: &[EventName]) -> bool
    ensures apart { OnTrue result ((h : ℕ → Item) (entries : List Entry) → TellsOrder h entries order.now
        → IsChain h entries xs.now → IsChain h entries ys.now → AreApart h entries xs.now ys.now) }
    ensures ordered { OnFalse result ((h : ℕ → Item) (entries : List Entry) → TellsOrder h entries order.now
        → IsChain h entries xs.now → IsChain h entries ys.now → AreOrdered h entries xs.now ys.now) }
{
    let mut i = 0;
    let mut j = 0;
    'passage: while i < xs.len() && j < ys.len() {
        if precedes(order, ys[j], xs[i]) {
            j += 1;
        } else if precedes(order, xs[i], ys[j]) {
            i += 1;
        } else {
            return true;
        }
    }
    false
}

//! When what stands in a history was made: slot order implies order in time.
//!
//! The workers of a round load and store shadow cells without a lock. What they may load is a rule of slot order (what an
//! access doesn't come before, and nothing in between hides), while the cells themselves obey the order of the steps in the
//! past of the shared table. The law here ties the two: where each item of a history has a span of times, and six kinds of
//! pairs are over one before the other, each pair of slot order is. So a load that the past allows is one that the rule allows.
//!
//! `run_laws` stands below this crate. Its one function does nothing: its contract is the law. The layer above gives each item
//! the span of its steps in the past, and cites `order_law` for the premise `pairs` of `woven_turns`' `loads_law`.
#![tactic(auto)]

ghost use Rattle.std.specs.Prelude.{ℕ, ◌≤◌};
ghost use Rattle.run_laws.specs.Moments.{Item};
ghost use Rattle.run_laws.specs.SlotOrder.{SlotBefore};
ghost use Rattle.cell_times.specs.Times.{AreTimed};

/// Where items have times, what comes before in slot order is over before the other begins.
pub fn order_law()
    ensures { (g : ℕ) (h : ℕ → Item) (lo hi : ℕ → ℕ) → AreTimed h lo hi → (i j : ℕ) → SlotBefore g h i j → hi i ≤ lo j }
{}

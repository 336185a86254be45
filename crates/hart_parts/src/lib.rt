//! What a worker says of its part of a round.
//!
//! A part is the deeds of one thread, one after another, with the log of the worker's seat: the turns that it took of objects,
//! among which the steps at shadow cells stand. `IsPart` says what such a part is: each deed follows the one before, the entry of
//! each tells it, notes stand where they should, and the thread made as many instructions as it was given, unless it ended or
//! was starved. The laws say that where each worker of a round made a part, in whatever order the table's past has their steps, the
//! round is one of the table's laws; and so are all rounds, one after another, with the same entries.
//!
//! `table_deeds` stands below this crate, with what is below it. Its functions do nothing: the contract of each is a law. The layer
//! above has a part of each worker, and cites `rounds_law` and then the laws of `table_deeds`.
#![tactic(auto)]

ghost use Rattle.std.specs.Prelude.{◌≡◌, ℕ, List, length, map};
ghost use mathlib.Core.Option.{some};
ghost use lib.ListN.{get_elem?};
ghost use Rattle.run_record.specs.declared.entry.Entry.{Entry};
ghost use Rattle.run_record.specs.declared.limits.Limits.{Limits};
ghost use Rattle.turn_orders.specs.Lists.{In};
ghost use Rattle.turn_orders.specs.Machine.{State};
ghost use Rattle.turn_orders.specs.LineUp.{Stamped};
ghost use Rattle.shared_table.specs.declared.object.Object.{Object};
ghost use Rattle.shared_table.specs.declared.view.Layout.{Layout};
ghost use Rattle.shared_table.specs.declared.view.Item.{Item};
ghost use Rattle.woven_turns.specs.Weave.{IsTagged, first_deeds};
ghost use Rattle.placed_detector.specs.Standing.{Hand};
ghost use Rattle.table_deeds.specs.Objects.{ObjectDeed};
ghost use Rattle.table_deeds.specs.Rounds.{IsTableRound, AreTableRounds, entries_by_round};
ghost use Rattle.hart_parts.specs.Parts.{Part, IsLogOf};
ghost use Rattle.hart_parts.specs.Rounds.{PartRound, tags_along, StandsIn, table_round, table_rounds, IsPartRound, ArePartRounds};

/// Along a part's log each item has its deed, or none; and together these are the part's deeds, in their order. Each deed at an
/// object has its stretch of the log, and is told at its give.
pub fn tags_law()
    ensures items { (p : Part) (j : ℕ) (x : Item) → IsLogOf p → get_elem? p.log j ≡ some x → IsTagged x (tags_along p.deeds p.log j) }
    ensures whole { (p : Part) → IsLogOf p → first_deeds (tags_along p.deeds p.log) (length p.log) ≡ p.deeds }
    ensures deeds { (p : Part) (d : ObjectDeed) → IsLogOf p → In d p.deeds → StandsIn p.deeds p.log d }
{}

/// A round in which each worker made a part is a round at the table.
pub fn round_law()
    ensures { (file : List ℕ) (limits : Limits) (lay : Layout) (round era : ℕ) (m : State (Stamped Hand) Object) (r : PartRound) →
        IsPartRound file limits lay round era m r → IsTableRound file limits lay round era m (table_round m r) }
{}

/// And so is each of rounds, one after another; their entries are the same.
pub fn rounds_law()
    ensures rounds { (file : List ℕ) (limits : Limits) (lay : Layout) (round era base : ℕ) (m : State (Stamped Hand) Object) (rs : List PartRound) →
        ArePartRounds file limits lay round era base m rs → AreTableRounds file limits lay round era base m (table_rounds m rs) }
    ensures entries { (m : State (Stamped Hand) Object) (rs : List PartRound) →
        entries_by_round (table_rounds m rs) ≡ map (λ (r : PartRound). r.entries) rs }
{}

//! What workers' checks may load.
//!
//! The workers of a round load and store shadow cells without a lock. Each says of its part of the round where in the
//! log of its seat the steps at cells stand: those of an entry's last instruction within its turn of the object,
//! those of the instructions before it ahead of the turn. From this each moment of the history, as the entries of all
//! rounds are listed, gets a span of times in the past of the table, in which its steps at cells stand. What comes
//! before in slot order, or in an earlier round, is over before the other begins. So each word that a check loaded is
//! one that the rule of loads allows, whatever the order of the steps was.
//!
//! `hart_parts` and `cell_times` stand below this crate, with what is below them. Its functions do nothing: the
//! contract of each is a law. The layer above has the past of the table with the workers' parts in it, and cites
//! `history_law`.
#![tactic(auto)]

ghost use Rattle.std.specs.Prelude.{◌≡◌, ℕ, List, [], Ok};
ghost use mathlib.Core.Option.{some};
ghost use lib.ListN.{get_elem?};
ghost use Rattle.run_record.specs.declared.limits.Limits.{Limits};
ghost use Rattle.elf_image.specs.File.{image_of, granule_of};
ghost use Rattle.run_laws.specs.Moments.{moments, items};
ghost use Rattle.run_laws.specs.Checks.{AreAllChecks, AllStoreRightly};
ghost use Rattle.run_laws.specs.Loads.{AllLoadRightly};
ghost use Rattle.cell_times.specs.Times.{AreTimed};
ghost use Rattle.race_core.specs.Watched.{AreWatcherLimits};
ghost use Rattle.turn_orders.specs.Machine.{State};
ghost use Rattle.turn_orders.specs.LineUp.{Stamped};
ghost use Rattle.turn_histories.specs.Rounds.{all_entries};
ghost use Rattle.shared_table.specs.declared.object.Object.{Object};
ghost use Rattle.shared_table.specs.declared.view.Layout.{Layout};
ghost use Rattle.shared_table.specs.declared.view.Item.{Item};
ghost use Rattle.shared_table.specs.Past.{Past, log_of, Lawful};
ghost use Rattle.placed_detector.specs.Standing.{Hand};
ghost use Rattle.table_deeds.specs.Objects.{AreFirstObjects};
ghost use Rattle.table_deeds.specs.Rounds.{entries_by_round};
ghost use Rattle.hart_parts.specs.Rounds.{PartRound, ArePartRounds, table_rounds};
ghost use Rattle.cell_loads.specs.Spans.{Timing, entries_timed, spans, span_at, AreTimings};
ghost use Rattle.cell_loads.specs.Pasts.{TouchesNone, AreQuiet, ArePasts};

/// Where no item of a seat's log is at a cell, whichever the seat, no step of the past is. (A past between rounds has
/// items of the opening seat alone: its splits and joins, and its turns of the desk.)
pub fn quiet_law()
    ensures { (past : Past) → ((n j : ℕ) (x : Item) → get_elem? (log_of n past) j ≡ some x → TouchesNone x) → AreQuiet past }
{}

/// Where the entries of a history have right timings in a past, its moments have times: of those that slot order
/// relies on, the one is over before the other begins.
pub fn times_law()
    ensures { (past : Past) (xs : List Timing) → AreTimings past xs →
        AreTimed (items (moments (entries_timed xs)))
        (λ (i : ℕ). (span_at (spans xs) i).lo) (λ (i : ℕ). (span_at (spans xs) i).hi) }
{}

/// The entries of rounds of parts, as they are listed, have right timings in the past of the table.
pub fn timings_law()
    ensures { (file : List ℕ) (limits : Limits) (lay : Layout) (past : Past) (round era base : ℕ)
        (m : State (Stamped Hand) Object) (rs : List PartRound) →
        ArePartRounds file limits lay round era base m rs → ArePasts limits past [] m rs →
        (xs : List Timing) × (entries_timed xs ≡ all_entries (entries_by_round (table_rounds m rs)))
        × AreTimings past xs }
{}

/// Where the entries of a history have right timings in a lawful past, and its checks are those of its accesses and
/// store by the rule, each check loaded words that it may load.
pub fn loads_law()
    ensures { (file : List ℕ) (lay : Layout) (past : Past) (g : ℕ) (xs : List Timing) →
        image_of file ≡ Ok file → Lawful lay past → AreTimings past xs →
        AreAllChecks g (granule_of file) (entries_timed xs) (moments (entries_timed xs)) →
        AllStoreRightly (moments (entries_timed xs)) →
        AllLoadRightly g (moments (entries_timed xs)) }
{}

/// From a new table on, each check of the entries of all rounds loaded words that it may load.
pub fn history_law()
    ensures { (file : List ℕ) (limits : Limits) (lay : Layout) (past : Past) (m : State (Stamped Hand) Object)
        (rs : List PartRound) →
        AreWatcherLimits limits → AreFirstObjects file limits m → image_of file ≡ Ok file → Lawful lay past →
        ArePasts limits past [] m rs →
        ArePartRounds file limits lay 0 0 0 m rs →
        AllLoadRightly limits.epochs (moments (all_entries (entries_by_round (table_rounds m rs)))) }
{}

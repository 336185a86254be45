//! The notes of a history: which slots threads take and leave, by what workers say of their parts.
//!
//! A worker says of its part of a round what comes behind a slot that its thread took, and behind an event that spent it, and that
//! each instruction which needs a slot was made with a label (`IsPart`). In the history the entries of many threads stand between
//! those of one, sorted by their stamps. The law says that the notes there stand as histories ask: a thread that takes a slot has no
//! label, takes the front of the queue, and next makes an instruction that needs one; it leaves its slot just where the entry
//! before spent it; and only a thread with a label makes an instruction that needs a slot.
//!
//! `hart_parts` stands below this crate, with what is below it. Its function does nothing: its contract is a law. The layer above has
//! rounds of parts from a new table on, and cites it.
#![tactic(auto)]

ghost use Rattle.std.specs.Prelude.{◌≡◌, ◌≤◌, ℕ, List, Ok};
ghost use Rattle.run_record.specs.declared.limits.Limits.{Limits};
ghost use Rattle.elf_image.specs.File.{image_of};
ghost use Rattle.run_laws.specs.Moments.{moments};
ghost use Rattle.run_laws.specs.Faithful.{needs_slot};
ghost use Rattle.run_laws.specs.DeskNotes.{AreNotes};
ghost use Rattle.run_laws.specs.Rounds.{NeedsLabel};
ghost use Rattle.machine_laws.specs.Machine.{bare_of};
ghost use Rattle.turn_orders.specs.Machine.{State};
ghost use Rattle.turn_orders.specs.LineUp.{Stamped};
ghost use Rattle.race_core.specs.Watched.{AreWatcherLimits};
ghost use Rattle.shared_table.specs.declared.object.Object.{Object};
ghost use Rattle.shared_table.specs.declared.view.Layout.{Layout};
ghost use Rattle.placed_detector.specs.Standing.{Hand};
ghost use Rattle.table_deeds.specs.Objects.{AreFirstObjects};
ghost use Rattle.hart_parts.specs.Rounds.{PartRound, ArePartRounds};
ghost use Rattle.part_notes.specs.Entries.{entries_in_rounds};

/// From a new table on, each instruction that needs a slot is made by a thread with a label, and the notes stand rightly.
pub fn notes_law()
    ensures labelled { (file : List ℕ) (limits : Limits) (lay : Layout) (m : State (Stamped Hand) Object) (rs : List PartRound) →
        AreWatcherLimits limits → 1 ≤ limits.harts → AreFirstObjects file limits m → image_of file ≡ Ok file →
        ArePartRounds file limits lay 0 0 0 m rs →
        let entries = entries_in_rounds rs in
        NeedsLabel limits (needs_slot (bare_of file limits.harts) entries) (moments entries) }
    ensures notes { (file : List ℕ) (limits : Limits) (lay : Layout) (m : State (Stamped Hand) Object) (rs : List PartRound) →
        AreWatcherLimits limits → 1 ≤ limits.harts → AreFirstObjects file limits m → image_of file ≡ Ok file →
        ArePartRounds file limits lay 0 0 0 m rs → let entries = entries_in_rounds rs in
        AreNotes limits (needs_slot (bare_of file limits.harts) entries) (moments entries) }
{}

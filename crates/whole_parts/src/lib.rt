//! The rounds that workers made are a whole run of threads that run at once.
//!
//! What the one who starts the rounds knows of each stands beside what the workers say of their parts (`IsDueRound`): the threads
//! that live by the desk make parts, each is given its share of the budget, and an era begins after the round where a thread tried
//! in vain to get a slot. At the end the desk says how the run ends (`IsOver`). The laws say that the entries of all rounds are then
//! those of a whole run, as `run_laws` says it: each thread made what was due, and fewer instructions only where it ended or was
//! starved, with the queue of free slots empty by the history too (`tried_law`). After any rounds the desk has the threads, the output
//! and the end of the bare machine's state (`desk_law`).
//!
//! `hart_parts` stands below this crate, with what is below it. Its functions do nothing: the contract of each is a law. The layer
//! above has the rounds of its workers, cites `desk_law` when it opens a round, and `whole_law` when the run is over.
#![tactic(auto)]

ghost use Rattle.std.specs.Prelude.{◌≡◌, ℕ, List, [], ◌∷◌, ◌++◌, length, Ok};
ghost use Rattle.run_record.specs.declared.limits.Limits.{Limits};
ghost use Rattle.run_record.specs.declared.finished.LastState.{LastState};
ghost use Rattle.run_record.specs.declared.plan.Turn.{Turn};
ghost use Rattle.elf_image.specs.File.{image_of};
ghost use Rattle.run_laws.specs.Faithful.{AtOnce, state_after};
ghost use Rattle.run_laws.specs.Rounds.{Progress, live_in, MayFindNone};
ghost use Rattle.run_laws.specs.Lawful.{IsWholeRun};
ghost use Rattle.bare_machine.specs.World.{lives};
ghost use Rattle.bare_machine.specs.Step.{desk};
ghost use Rattle.machine_laws.specs.Machine.{bare_of};
ghost use Rattle.slot_desk.specs.Desks.{thread_of, live_of};
ghost use Rattle.turn_histories.specs.Rounds.{all_entries};
ghost use Rattle.turn_orders.specs.Machine.{State};
ghost use Rattle.turn_orders.specs.LineUp.{Stamped};
ghost use Rattle.race_core.specs.Watched.{AreWatcherLimits};
ghost use Rattle.shared_table.specs.declared.object.DeskState.{DeskState};
ghost use Rattle.shared_table.specs.declared.object.Object.{Object};
ghost use Rattle.shared_table.specs.declared.view.Layout.{Layout};
ghost use Rattle.placed_detector.specs.Standing.{Hand};
ghost use Rattle.table_deeds.specs.Objects.{slots_in, AreFirstObjects};
ghost use Rattle.table_deeds.specs.Rounds.{TableRound, AreTableRounds};
ghost use Rattle.hart_parts.specs.Rounds.{PartRound, ArePartRounds};
ghost use Rattle.whole_parts.specs.Tries.{EndsInVain, HasCome};
ghost use Rattle.whole_parts.specs.Dues.{HasDesk, AreDueRounds, IsOver, entries_by_part_round, state_after_rounds};

/// A thread whose last turn of a round found the desk without a free slot may find none: the history's queue was empty after some of
/// the round's entries, and the thread's own entries at the desk are among these.
pub fn tried_law()
    ensures { (file : List ℕ) (limits : Limits) (lay : Layout) (m : State (Stamped Hand) Object) (rs : List TableRound) (r : TableRound) (p : Progress)
        (seat t : ℕ) (found : Object) →
        AreWatcherLimits limits → AreFirstObjects file limits m → image_of file ≡ Ok file → AreTableRounds file limits lay 0 0 0 m (rs ++ r ∷ []) →
        HasCome p rs → EndsInVain r.late seat found → r.seat t ≡ seat → (slots_in limits found).queue ≡ [] →
        MayFindNone AtOnce limits (bare_of file limits.harts) p r.entries t }
{}

/// From a new table on, after any rounds, the desk says what the bare machine has after their entries: which threads live and how many,
/// how many were made, the output, and the first exit or fault.
pub fn desk_law()
    ensures lives { (file : List ℕ) (limits : Limits) (lay : Layout) (m : State (Stamped Hand) Object) (rs : List PartRound) (d : DeskState) (t : ℕ) →
        AreWatcherLimits limits → AreFirstObjects file limits m → image_of file ≡ Ok file →
        ArePartRounds file limits lay 0 0 0 m rs → HasDesk ((state_after_rounds m rs).value desk) d →
        lives (state_after (bare_of file limits.harts) (all_entries (entries_by_part_round rs))) t ≡ (thread_of d.desk t).lives }
    ensures living { (file : List ℕ) (limits : Limits) (lay : Layout) (m : State (Stamped Hand) Object) (rs : List PartRound) (d : DeskState) →
        AreWatcherLimits limits → AreFirstObjects file limits m → image_of file ≡ Ok file →
        ArePartRounds file limits lay 0 0 0 m rs → HasDesk ((state_after_rounds m rs).value desk) d →
        length (live_in (bare_of file limits.harts) (state_after (bare_of file limits.harts) (all_entries (entries_by_part_round rs)))) ≡ live_of d.desk }
    ensures threads { (file : List ℕ) (limits : Limits) (lay : Layout) (m : State (Stamped Hand) Object) (rs : List PartRound) (d : DeskState) →
        AreWatcherLimits limits → AreFirstObjects file limits m → image_of file ≡ Ok file →
        ArePartRounds file limits lay 0 0 0 m rs → HasDesk ((state_after_rounds m rs).value desk) d →
        length (state_after (bare_of file limits.harts) (all_entries (entries_by_part_round rs))).threads ≡ length d.machine.made }
    ensures output { (file : List ℕ) (limits : Limits) (lay : Layout) (m : State (Stamped Hand) Object) (rs : List PartRound) (d : DeskState) →
        AreWatcherLimits limits → AreFirstObjects file limits m → image_of file ≡ Ok file →
        ArePartRounds file limits lay 0 0 0 m rs → HasDesk ((state_after_rounds m rs).value desk) d →
        (state_after (bare_of file limits.harts) (all_entries (entries_by_part_round rs))).output ≡ d.machine.output }
    ensures ended { (file : List ℕ) (limits : Limits) (lay : Layout) (m : State (Stamped Hand) Object) (rs : List PartRound) (d : DeskState) →
        AreWatcherLimits limits → AreFirstObjects file limits m → image_of file ≡ Ok file →
        ArePartRounds file limits lay 0 0 0 m rs → HasDesk ((state_after_rounds m rs).value desk) d →
        (state_after (bare_of file limits.harts) (all_entries (entries_by_part_round rs))).ended ≡ d.machine.ended }
{}

/// Rounds that are due, from a new table on, are a whole run, whatever plan there is: each thread that lived made its share, and fewer
/// instructions only where it ended or was starved; and it ended as the last desk says.
pub fn whole_law()
    ensures { (file : List ℕ) (limits : Limits) (lay : Layout) (m : State (Stamped Hand) Object) (rs : List PartRound) (plan : List Turn)
        (closed : DeskState) (last : LastState) →
        AreWatcherLimits limits → AreFirstObjects file limits m → image_of file ≡ Ok file → ArePartRounds file limits lay 0 0 0 m rs →
        AreDueRounds limits limits.steps m rs → IsOver limits m rs closed last →
        IsWholeRun AtOnce limits plan (bare_of file limits.harts) (all_entries (entries_by_part_round rs)) last }
{}

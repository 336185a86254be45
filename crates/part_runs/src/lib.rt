//! From the rounds that workers made to a lawful history, and to a run with its reports.
//!
//! The one who starts the rounds has one record of what it knows of them (`AreRounds`, and `AreAllRounds` when the run is over):
//! the workers' parts, the past of the table, what was due, and how the run ended. By the laws the entries of all rounds are then
//! a lawful history of threads that run at once. At each round's end the accesses that await it have owners, and can be sought in
//! the traces of these (`owned_law`). The reports which the traces tell there, offered round after round, are those of the history;
//! and so what is kept of the run is one (`run_law`).
//!
//! Below stand `hart_parts` and the laws of rounds of parts, `part_notes`, `whole_parts`, `cell_loads` and `part_races`; and beside them
//! `report_laws` and `whole_runs`, with reports and runs. The functions here do nothing: the contract of each is a law. The layer
//! above makes rounds, carries what it knows of them by `next_law`, cites `awaits_law` and `told_law` at the end of each, and `run_law`
//! when the run is over.
#![tactic(auto)]

ghost use Rattle.std.specs.Prelude.{◌≡◌, ℕ, ◌+◌, ◌-◌, if◌then◌else◌, Bool, List, [], ◌∷◌, ◌++◌, length, Option, All, Ok, fold};
ghost use Rattle.run_record.specs.declared.limits.Limits.{Limits};
ghost use Rattle.run_record.specs.declared.finished.LastState.{LastState};
ghost use Rattle.run_record.specs.declared.plan.Turn.{Turn};
ghost use Rattle.run_record.specs.declared.finished.Finished.{Finished};
ghost use Rattle.elf_image.specs.File.{image_of, granule_of, granule_address};
ghost use Rattle.run_laws.specs.Moments.{moments, moments_in};
ghost use Rattle.run_laws.specs.Faithful.{AtOnce, needs_slot};
ghost use Rattle.run_laws.specs.Lawful.{IsLawful};
ghost use Rattle.run_laws.specs.Reports.{kept_after, kept_of};
ghost use Rattle.machine_laws.specs.Machine.{bare_of};
ghost use Rattle.report_laws.specs.Sound.{IsSound};
ghost use Rattle.report_laws.specs.Awaited.{Awaited, Collects, HasOwner, IsRestorable};
ghost use Rattle.whole_runs.specs.Told.{Told};
ghost use Rattle.whole_runs.specs.Run.{IsRun, kept_in};
ghost use Rattle.turn_orders.specs.Lists.{In};
ghost use Rattle.turn_orders.specs.Machine.{State};
ghost use Rattle.hart_parts.specs.Parts.{Part, left_in};
ghost use Rattle.turn_orders.specs.LineUp.{Stamped};
ghost use Rattle.shared_table.specs.declared.object.DeskState.{DeskState};
ghost use Rattle.shared_table.specs.declared.object.Object.{Object};
ghost use Rattle.shared_table.specs.declared.view.Layout.{Layout};
ghost use Rattle.shared_table.specs.Past.{Past, Lawful};
ghost use Rattle.table_deeds.specs.Objects.{AreFirstObjects};
ghost use Rattle.table_deeds.specs.Rounds.{last_stamp, HasObjects};
ghost use Rattle.cell_loads.specs.Pasts.{AreQuiet};
ghost use Rattle.run_laws.specs.Rounds.{steps_in};
ghost use Rattle.placed_detector.specs.Standing.{Hand};
ghost use Rattle.hart_parts.specs.Rounds.{PartRound, table_round};
ghost use Rattle.part_races.specs.Rounds.{AllAwait, era_after};
ghost use Rattle.part_runs.specs.Next.{next_base, past_through, IsNextRound};
ghost use Rattle.part_runs.specs.Runs.{entries_of_rounds, AreRoundLimits, AreRounds, AreAllRounds};
ghost use Rattle.whole_parts.specs.Dues.{HasDesk, IsDueRound, AreDueRounds, state_after_rounds, remaining_after, era_of_last};
ghost use Rattle.bare_machine.specs.Step.{desk};
ghost use Rattle.part_runs.specs.Ends.{at_end, IsTellable};
ghost use Rattle.part_runs.specs.Told.{AwaitRoundEnd, RoundReports, IsToldRound, AreToldRounds, all_told};

/// Rounds are made one after another: before the first there are none, one more comes next, and steps behind the last one that are at no
/// cell change nothing. So it is of what was due, and of the reports that were told.
pub fn next_law()
    ensures first { (file : List ℕ) (limits : Limits) (lay : Layout) (past : Past) (m : State (Stamped Hand) Object) →
        AreRoundLimits limits → image_of file ≡ Ok file → AreFirstObjects file limits m → Lawful lay past → AreQuiet past →
        AreRounds file limits lay past m [] }
    ensures next { (file : List ℕ) (limits : Limits) (lay : Layout) (past : Past) (m : State (Stamped Hand) Object) (rs : List PartRound)
        (r : PartRound) → AreRounds file limits lay past m rs → IsNextRound file limits lay m rs r →
        AreRounds file limits lay (r.late ++ r.early) m (rs ++ r ∷ []) }
    ensures between { (file : List ℕ) (limits : Limits) (lay : Layout) (between past : Past) (m : State (Stamped Hand) Object)
        (rs : List PartRound) → AreRounds file limits lay past m rs → AreQuiet between → Lawful lay (between ++ past) →
        AreRounds file limits lay (between ++ past) m rs }
    ensures dues { (limits : Limits) (m : State (Stamped Hand) Object) (rs : List PartRound) (r : PartRound) →
        AreDueRounds limits limits.steps m rs → IsDueRound limits (remaining_after limits.steps rs) (state_after_rounds m rs) r →
        AreDueRounds limits limits.steps m (rs ++ r ∷ []) }
    ensures told { (file : List ℕ) (limits : Limits) (rs : List PartRound) (ts : List RoundReports) (r : PartRound) (x : RoundReports) →
        AreToldRounds file limits [] rs ts → IsToldRound file limits (entries_of_rounds rs) r.entries x →
        AreToldRounds file limits [] (rs ++ r ∷ []) (ts ++ x ∷ []) }
{}

/// What comes after one round more: the state and the past that it left, its entries behind those before, and the numbers.
pub fn after_law()
    ensures state { (m : State (Stamped Hand) Object) (rs : List PartRound) (r : PartRound) → state_after_rounds m (rs ++ r ∷ []) ≡ r.next }
    ensures past { (rs : List PartRound) (r : PartRound) → past_through [] (rs ++ r ∷ []) ≡ r.late ++ r.early }
    ensures entries { (rs : List PartRound) (r : PartRound) → entries_of_rounds (rs ++ r ∷ []) ≡ entries_of_rounds rs ++ r.entries }
    ensures era { (rs : List PartRound) (r : PartRound) →
        era_after 0 (rs ++ r ∷ []) ≡ (if r.ends then era_after 0 rs + 1 else era_after 0 rs) }
    ensures last_era { (rs : List PartRound) (r : PartRound) → era_of_last 0 0 (rs ++ r ∷ []) ≡ era_after 0 rs }
    ensures base { (m : State (Stamped Hand) Object) (rs : List PartRound) (r : PartRound) →
        next_base 0 m (rs ++ r ∷ []) ≡ last_stamp (table_round (state_after_rounds m rs) r) }
    ensures remaining { (limits : Limits) (rs : List PartRound) (r : PartRound) →
        remaining_after limits.steps (rs ++ r ∷ []) ≡ remaining_after limits.steps rs - steps_in r.entries }
    ensures kept { (meets : Option (List ℕ) → Option (List ℕ) → Bool) (ts : List RoundReports) (x : RoundReports) →
        kept_of meets (all_told (ts ++ x ∷ [])) ≡ fold (kept_after meets) (kept_of meets (all_told ts)) x.told }
{}

/// The entries of rounds so far have what the laws of reports ask for.
pub fn sound_law()
    ensures { (file : List ℕ) (limits : Limits) (lay : Layout) (past : Past) (m : State (Stamped Hand) Object) (rs : List PartRound) →
        AreRounds file limits lay past m rs → let entries = entries_of_rounds rs in
        IsSound limits (granule_of file) (needs_slot (bare_of file limits.harts) entries) entries }
{}

/// The entries of all rounds of a run are a lawful history of threads that run at once, whatever plan there is, and it ends in the
/// run's last state.
pub fn lawful_law()
    ensures { (file : List ℕ) (limits : Limits) (lay : Layout) (past : Past) (m : State (Stamped Hand) Object) (rs : List PartRound)
        (plan : List Turn) (closed : DeskState) (last : LastState) → AreAllRounds file limits lay past m rs closed last →
        (l : IsLawful AtOnce limits plan (bare_of file limits.harts) (granule_of file) (entries_of_rounds rs)) × (l.last ≡ last) }
{}

/// What is collected from where a round begins, with the eras that begin before it, up to its end awaits that end, also where the round
/// has no entries. So does what all workers of a round told of its races.
pub fn awaits_law()
    ensures collected { (file : List ℕ) (limits : Limits) (lay : Layout) (past : Past) (m : State (Stamped Hand) Object) (rs : List PartRound)
        (r : PartRound) (awaited : List Awaited) → AreRounds file limits lay past m (rs ++ r ∷ []) →
        let before = entries_of_rounds rs in
        let h = moments_in (length rs) (era_after 0 rs) (before ++ r.entries) in
        Collects limits.epochs h (length (moments_in (length rs) (era_after 0 rs) before)) (length h) awaited →
        AwaitRoundEnd limits before r.entries awaited }
    ensures told { (file : List ℕ) (limits : Limits) (lay : Layout) (past : Past) (m : State (Stamped Hand) Object) (rs : List PartRound)
        (r : PartRound) (told : List (List Awaited)) (awaited : List Awaited) → AreRounds file limits lay past m (rs ++ r ∷ []) →
        AllAwait file limits 0 (rs ++ r ∷ []) (told ++ awaited ∷ []) → AwaitRoundEnd limits (entries_of_rounds rs) r.entries awaited }
{}

/// At the end of a round each access that awaits it has a word whose label is a thread's, and of the present era; and it can be sought
/// in the trace of that thread, whatever the trace holds.
pub fn owned_law()
    ensures owners { (file : List ℕ) (limits : Limits) (lay : Layout) (past : Past) (m : State (Stamped Hand) Object) (rs : List PartRound)
        (r : PartRound) → AreRounds file limits lay past m (rs ++ r ∷ []) →
        (awaited : List Awaited) → AwaitRoundEnd limits (entries_of_rounds rs) r.entries awaited →
        All (HasOwner limits.epochs (moments (entries_of_rounds rs ++ r.entries))) awaited }
    ensures restorable { (file : List ℕ) (limits : Limits) (lay : Layout) (past : Past) (m : State (Stamped Hand) Object) (rs : List PartRound)
        (r : PartRound) → AreRounds file limits lay past m (rs ++ r ∷ []) →
        (awaited : List Awaited) → AwaitRoundEnd limits (entries_of_rounds rs) r.entries awaited →
        All (IsRestorable limits (granule_of file) (granule_address file) (moments (entries_of_rounds rs ++ r.entries))) awaited }
{}

/// At the end of a round the table has the objects that its deeds left, the thread of each part has what its part left, and each other
/// thread has what it had.
pub fn ends_law()
    ensures objects { (file : List ℕ) (limits : Limits) (lay : Layout) (past : Past) (m : State (Stamped Hand) Object) (rs : List PartRound)
        (r : PartRound) → AreRounds file limits lay past m (rs ++ r ∷ []) → HasObjects lay (r.late ++ r.early) (at_end m rs r) }
    ensures parts { (file : List ℕ) (limits : Limits) (lay : Layout) (past : Past) (m : State (Stamped Hand) Object) (rs : List PartRound)
        (r : PartRound) (p : Part) → AreRounds file limits lay past m (rs ++ r ∷ []) → In p r.parts →
        (at_end m rs r).local p.thread ≡ left_in p }
    ensures others { (file : List ℕ) (limits : Limits) (lay : Layout) (past : Past) (m : State (Stamped Hand) Object) (rs : List PartRound)
        (r : PartRound) (t : ℕ) → AreRounds file limits lay past m (rs ++ r ∷ []) → ((p : Part) → In p r.parts → p.thread ≡ t → ⊥) →
        (at_end m rs r).local t ≡ (state_after_rounds m rs).local t }
{}

/// At the end of a round the desk names the owner of each access that awaits it, and what the owner's trace tells is to be reported.
pub fn told_law()
    ensures { (file : List ℕ) (limits : Limits) (lay : Layout) (past : Past) (m : State (Stamped Hand) Object) (rs : List PartRound)
        (r : PartRound) (d : DeskState) → AreRounds file limits lay past m (rs ++ r ∷ []) → HasDesk ((at_end m rs r).value desk) d →
        (awaited : List Awaited) → AwaitRoundEnd limits (entries_of_rounds rs) r.entries awaited →
        All (IsTellable file limits (moments (entries_of_rounds rs ++ r.entries)) (at_end m rs r) d.desk) awaited }
{}

/// Where at each round's end reports were told of the accesses that awaited it, these are the reports of the entries so far, and all were
/// offered, by the rules that two stacks may meet. There are at most as many as moments.
pub fn reports_law()
    ensures { (file : List ℕ) (limits : Limits) (lay : Layout) (past : Past) (m : State (Stamped Hand) Object) (rs : List PartRound)
        (ts : List RoundReports) (meets : Option (List ℕ) → Option (List ℕ) → Bool) →
        AreRounds file limits lay past m rs → AreToldRounds file limits [] rs ts →
        Told meets file limits (entries_of_rounds rs) (kept_of meets (all_told ts)) }
{}

/// Where at each round's end reports were told of the accesses that awaited it, and all were offered one after another by the rules
/// that two stacks may meet, what is kept with the entries of all rounds and the last desk's output is a run, whatever plan there is.
pub fn run_law()
    ensures { (file : List ℕ) (limits : Limits) (lay : Layout) (past : Past) (m : State (Stamped Hand) Object) (rs : List PartRound)
        (plan : List Turn) (closed : DeskState) (ts : List RoundReports) (meets : Option (List ℕ) → Option (List ℕ) → Bool) (f : Finished) →
        AreAllRounds file limits lay past m rs closed f.last → AreToldRounds file limits [] rs ts →
        f.history.entries ≡ entries_of_rounds rs → kept_in f ≡ kept_of meets (all_told ts) → f.output ≡ closed.machine.output →
        IsRun AtOnce file limits plan meets f }
{}

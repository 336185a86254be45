//! What a run of an executable is: whether its threads were stepped one at a time or ran at once.
//!
//! Below stand `run_laws` and `report_laws`, with lawful histories and their reports, and `machine_laws`, with the bare
//! machine of a file. `IsRun` puts them together for either mode, and the layers above, the engine of each mode and the
//! command over them, promise it of what they return. The functions do nothing: the contract of each is a law. An engine
//! cites `run_law` at its end; `any_plan_law` and `seen_races_law` are for readers.
#![tactic(auto)]

ghost use Rattle.std.specs.Prelude.{◌≡◌, ◌≤◌, ℕ, Bool, List, Option, Ok};
ghost use Rattle.run_record.specs.declared.limits.Limits.{Limits};
ghost use Rattle.run_record.specs.declared.plan.Turn.{Turn};
ghost use Rattle.run_record.specs.declared.finished.Finished.{Finished};
ghost use Rattle.elf_image.specs.File.{image_of, granule_of, granule_address};
ghost use Rattle.run_laws.specs.Moments.{moments};
ghost use Rattle.run_laws.specs.Faithful.{Mode, AtOnce, state_after};
ghost use Rattle.run_laws.specs.Lawful.{IsLawful, IsWholeRun};
ghost use Rattle.report_laws.specs.Offered.{LoadsRace, IsOffered};
ghost use Rattle.machine_laws.specs.Machine.{bare_of};
ghost use Rattle.whole_runs.specs.Told.{Told};
ghost use Rattle.whole_runs.specs.Run.{IsRun, kept_in};

/// What is kept is a run, where its history is lawful and that of a whole run of an accepted executable, all reports of
/// the history were offered, and the output is the bare machine's.
pub fn run_law()
    ensures { (mode : Mode) (file : List ℕ) (limits : Limits) (plan : List Turn)
        (meets : Option (List ℕ) → Option (List ℕ) → Bool) (f : Finished)
        → limits.slots ≤ 255 → 1 ≤ limits.epochs → limits.epochs ≤ 16383 → image_of file ≡ Ok file
        → let bare = bare_of file limits.harts in
        IsLawful mode limits plan bare (granule_of file) f.history.entries
        → IsWholeRun mode limits plan bare f.history.entries f.last
        → Told meets file limits f.history.entries (kept_in f)
        → f.output ≡ (state_after bare f.history.entries).output
        → IsRun mode file limits plan meets f }
{}

/// Where threads run at once no plan is read: a run by one plan is a run by each.
pub fn any_plan_law()
    ensures { (file : List ℕ) (limits : Limits) (plan other : List Turn)
        (meets : Option (List ℕ) → Option (List ℕ) → Bool) (f : Finished)
        → IsRun AtOnce file limits plan meets f → IsRun AtOnce file limits other meets f }
{}

/// In a run of an accepted executable each access that loads the word of an access of its era, which
/// conflicts with it and doesn't come before it in slot order, is reported, suppressed, or equal to a
/// report that is kept.
pub fn seen_races_law()
    ensures { (mode : Mode) (file : List ℕ) (limits : Limits) (plan : List Turn)
        (meets : Option (List ℕ) → Option (List ℕ) → Bool) (f : Finished)
        → limits.slots ≤ 255 → 1 ≤ limits.epochs → limits.epochs ≤ 16383 → image_of file ≡ Ok file
        → IsRun mode file limits plan meets f
        → (a b : ℕ) → LoadsRace limits.epochs (granule_of file) (moments f.history.entries) a b
        → IsOffered limits (granule_address file) meets (moments f.history.entries) (kept_in f) a }
{}

// Partial runs, and the whole ones that go on after them.

ghost use Rattle.std.specs.Prelude.{◌≡◌, ◌≤◌, ℕ, Bool, List, [], All, Option, Ok};
ghost use Rattle.run_record.specs.declared.limits.Limits.{Limits};
ghost use Rattle.run_record.specs.declared.plan.Turn.{Turn};
ghost use Rattle.run_record.specs.declared.finished.Finished.{Finished};
ghost use Rattle.elf_image.specs.File.{image_of, granule_of, granule_address};
ghost use Rattle.run_laws.specs.Moments.{moments};
ghost use Rattle.run_laws.specs.Faithful.{Mode, OneByOne, state_after};
ghost use Rattle.run_laws.specs.Reports.{Kept};
ghost use Rattle.report_laws.specs.Races.{StandsForRace};
ghost use Rattle.machine_laws.specs.Machine.{bare_of};
ghost use Rattle.whole_runs.specs.Told.{Told};
ghost use Rattle.whole_runs.specs.Run.{IsRun};
ghost use Rattle.partial_runs.specs.declared.partial.Partial.{Partial};
ghost use Rattle.partial_runs.specs.Starts.{IsLawfulStart};
ghost use Rattle.partial_runs.specs.Partials.{IsPartial, IsBeginning, all_rounds};

/// A run before its first round has no entries, no reports and no output.
pub fn no_rounds_law()
    ensures { (mode : Mode) (file : List ℕ) (limits : Limits) (plan : List Turn)
        (meets : Option (List ℕ) → Option (List ℕ) → Bool) (p : Partial)
        → p.history.entries ≡ [] → p.reports ≡ [] → p.output ≡ [] → IsPartial mode file limits plan meets p }
{}

/// What is kept at a round's end is a partial run, where its history is a lawful start, all reports of the history were
/// offered, and the output is the bare machine's.
pub fn round_end_law()
    ensures { (mode : Mode) (file : List ℕ) (limits : Limits) (plan : List Turn)
        (meets : Option (List ℕ) → Option (List ℕ) → Bool) (p : Partial) (kept : Kept)
        → let bare = bare_of file limits.harts in IsLawfulStart mode limits plan bare (granule_of file) p.history.entries
        → Told meets file limits p.history.entries kept → p.reports ≡ kept.reports
        → p.output ≡ (state_after bare p.history.entries).output
        → IsPartial mode file limits plan meets p }
{}

/// Each report of a partial run of an accepted executable stands for a race.
pub fn partial_races_law()
    ensures { (mode : Mode) (file : List ℕ) (limits : Limits) (plan : List Turn)
        (meets : Option (List ℕ) → Option (List ℕ) → Bool) (p : Partial)
        → limits.slots ≤ 255 → 1 ≤ limits.epochs → limits.epochs ≤ 16383 → image_of file ≡ Ok file
        → IsPartial mode file limits plan meets p
        → All (StandsForRace limits.epochs (granule_of file) (granule_address file) (moments p.history.entries)) p.reports }
{}

/// A finished run is a partial one of all its rounds.
pub fn whole_law()
    ensures { (mode : Mode) (file : List ℕ) (limits : Limits) (plan : List Turn)
        (meets : Option (List ℕ) → Option (List ℕ) → Bool) (f : Finished)
        → IsRun mode file limits plan meets f → IsPartial mode file limits plan meets (all_rounds f) }
{}

/// Where threads run one at a time, a partial run begins the whole run of the same file, limits, plan and rules: in entries,
/// reports and output.
pub fn partial_law()
    ensures { (file : List ℕ) (limits : Limits) (plan : List Turn)
        (meets : Option (List ℕ) → Option (List ℕ) → Bool) (p : Partial) (f : Finished)
        → 1 ≤ limits.harts → IsPartial OneByOne file limits plan meets p → IsRun OneByOne file limits plan meets f
        → IsBeginning p f }
{}

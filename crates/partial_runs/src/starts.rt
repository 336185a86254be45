// What the first rounds of a run are to all of it.

ghost use Rattle.std.specs.Prelude.{◌≡◌, ◌⊎◌, ℕ, Bool, List, ◌++◌, Option};
ghost use Rattle.run_record.specs.declared.entry.Entry.{Entry};
ghost use Rattle.run_record.specs.declared.limits.Limits.{Limits};
ghost use Rattle.run_record.specs.declared.plan.Turn.{Turn};
ghost use Rattle.run_laws.specs.Moments.{moments};
ghost use Rattle.run_laws.specs.Faithful.{Bare, Mode, OneByOne, state_after};
ghost use Rattle.run_laws.specs.Lawful.{IsLawful};
ghost use Rattle.run_laws.specs.Reports.{Kept, AreReports};
ghost use Rattle.turn_laws.specs.SoFar.{IsLawfulSoFar};
ghost use Rattle.report_laws.specs.Sound.{AreOfLaterRounds};
ghost use Rattle.machine_laws.specs.Machine.{bare_of};
ghost use Rattle.one_history.specs.Reached.{LeaveLabels};
ghost use Rattle.partial_runs.specs.Starts.{BeginsWith, AreWholeRounds, IsLawfulStart, GoesOn, ReportsGoOn};

/// A lawful history is a lawful start of itself. And so is one that is lawful so far, where threads run one at a time, at the
/// end of each round.
/// `S` is the type of the bare machine's states.
pub fn lawful_start_law<S>()
    ensures whole { (mode : Mode) (limits : Limits) (plan : List Turn) (bare : Bare S) (granule_of : ℕ → Option ℕ)
        (entries : List Entry) → IsLawful mode limits plan bare granule_of entries → IsLawfulStart mode limits plan bare granule_of entries }
    ensures so_far { (limits : Limits) (plan : List Turn) (bare : Bare S) (granule_of : ℕ → Option ℕ) (entries : List Entry)
        → IsLawfulSoFar limits bare granule_of entries → AreWholeRounds OneByOne limits plan bare entries
        → IsLawfulStart OneByOne limits plan bare granule_of entries }
{}

/// Where threads run one at a time, of two lawful starts of one machine, by the same limits and plan, one goes on after the
/// other, by later rounds. And each lawful history goes on after each lawful start.
/// `S` is the type of the bare machine's states.
pub fn start_law<S>()
    ensures in_order { (limits : Limits) (plan : List Turn) (bare : Bare S) (granule_of : ℕ → Option ℕ)
        (entries others : List Entry) → LeaveLabels bare
        → IsLawfulStart OneByOne limits plan bare granule_of entries → IsLawfulStart OneByOne limits plan bare granule_of others
        → GoesOn entries others ⊎ GoesOn others entries }
    ensures whole { (limits : Limits) (plan : List Turn) (bare : Bare S) (granule_of : ℕ → Option ℕ)
        (entries others : List Entry) → LeaveLabels bare
        → IsLawfulStart OneByOne limits plan bare granule_of entries → IsLawful OneByOne limits plan bare granule_of others
        → GoesOn entries others }
{}

/// What is reported of the first rounds begins what is reported of all, and no fewer races are suppressed or equal.
pub fn first_reports_law()
    ensures { (limits : Limits) (address_of : ℕ → ℕ) (meets : Option (List ℕ) → Option (List ℕ) → Bool)
        (entries later : List Entry) (kept whole : Kept)
        → AreOfLaterRounds entries later → AreReports limits address_of meets (moments entries) kept
        → AreReports limits address_of meets (moments (entries ++ later)) whole → ReportsGoOn kept whole }
{}

/// What the guest put in the first entries of a history begins what it put in all.
pub fn output_grows()
    ensures { (file : List ℕ) (harts : ℕ) (entries later : List Entry) → let bare = bare_of file harts in
        BeginsWith (state_after bare (entries ++ later)).output (state_after bare entries).output }
{}

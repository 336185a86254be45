// A history grows by turns and stays lawful.

ghost use Rattle.std.specs.Prelude.{◌≡◌, ℕ, List, [], ◌++◌, length, Option};
ghost use Rattle.run_record.specs.declared.entry.Entry.{Entry};
ghost use Rattle.run_record.specs.declared.limits.Limits.{Limits};
ghost use Rattle.run_record.specs.declared.finished.LastState.{LastState};
ghost use Rattle.run_record.specs.declared.plan.Turn.{Turn as PlannedTurn};
ghost use Rattle.run_laws.specs.Faithful.{Bare, OneByOne};
ghost use Rattle.run_laws.specs.Lawful.{IsWholeRun, IsLawful};
ghost use Rattle.turn_laws.specs.SoFar.{IsLawfulSoFar};
ghost use Rattle.turn_laws.specs.Turns.{Turn, IsTurn, entries_of};

/// The empty history is lawful so far.
/// `S` is the type of the bare machine's states.
pub fn start_law<S>()
    ensures { (limits : Limits) (bare : Bare S) (granule_of : ℕ → Option ℕ) → IsLawfulSoFar limits bare granule_of [] }
{}

/// A history that is lawful so far stays so with one more turn.
/// `S` is the type of the bare machine's states.
pub fn turn_law<S>()
    ensures { (limits : Limits) (bare : Bare S) (granule_of : ℕ → Option ℕ) (entries : List Entry) (turn : Turn) →
        IsLawfulSoFar limits bare granule_of entries → IsTurn limits bare granule_of entries turn →
        IsLawfulSoFar limits bare granule_of (entries ++ entries_of (length entries) turn) }
{}

/// A history that is lawful so far and that of a whole run is lawful.
/// `S` is the type of the bare machine's states.
pub fn whole_law<S>()
    ensures { (limits : Limits) (plan : List PlannedTurn) (bare : Bare S) (granule_of : ℕ → Option ℕ) (entries : List Entry) (last : LastState) →
        IsLawfulSoFar limits bare granule_of entries → IsWholeRun OneByOne limits plan bare entries last →
        IsLawful OneByOne limits plan bare granule_of entries }
{}

//! The history of threads that run one at a time is one.
//!
//! `run_record`, `run_laws` and `turn_laws` stand below this crate. A history is lawful where it tells what the bare
//! machine does, in whole rounds, with notes and checks that stand rightly (`IsLawful`). For threads that run one at a
//! time by a plan this leaves nothing open: two lawful histories of one machine, by the same limits and plan, have the
//! same entries, and their runs end alike. The definitions in specs/ say which machines this is told of, those whose
//! instructions neither raise an epoch nor end their thread unless they use an object (`LeaveLabels`), and show a
//! machine of another kind. The functions do nothing: the contract of each is a law. The layer above that knows the
//! machine of an executable file cites `one_law` of two runs of it.
#![tactic(auto)]

ghost use Rattle.std.specs.Prelude.{◌≡◌, ◌≢◌, ℕ, List, [], Option};
ghost use Rattle.run_record.specs.declared.entry.Entry.{Entry};
ghost use Rattle.run_record.specs.declared.limits.Limits.{Limits};
ghost use Rattle.run_record.specs.declared.finished.LastState.{LastState};
ghost use Rattle.run_record.specs.declared.plan.Turn.{Turn};
ghost use Rattle.run_laws.specs.Faithful.{Bare, OneByOne};
ghost use Rattle.run_laws.specs.Lawful.{IsLawful, IsWholeRun};
ghost use Rattle.run_laws.specs.Scripts.{Line, scripted};
ghost use Rattle.run_laws.specs.Rows.{granule_in};
ghost use Rattle.one_history.specs.Reached.{LeaveLabels};
ghost use Rattle.one_history.specs.Hidden.{one_slot, two_releases, hidden, left_late, left_early};

/// Where threads run one at a time, two lawful histories are one, and so are the last states of their runs.
pub fn one_law<S>()
    ensures history { (limits : Limits) (plan : List Turn) (bare : Bare S) (granule_of : ℕ → Option ℕ) (entries others : List Entry) → LeaveLabels bare →
        IsLawful OneByOne limits plan bare granule_of entries → IsLawful OneByOne limits plan bare granule_of others → entries ≡ others }
    ensures last_state { (limits : Limits) (plan : List Turn) (bare : Bare S) (granule_of : ℕ → Option ℕ) (entries others : List Entry) (last end : LastState) → LeaveLabels bare →
        IsLawful OneByOne limits plan bare granule_of entries → IsLawful OneByOne limits plan bare granule_of others →
        IsWholeRun OneByOne limits plan bare entries last → IsWholeRun OneByOne limits plan bare others end → last ≡ end }
{}

/// The machines of scripts leave labels as they are, so each history of `run_laws`' rows of threads that run one at a
/// time is the only one of its scripts.
pub fn scripts_law()
    ensures { (scripts : List (List Line)) → LeaveLabels (scripted scripts) }
{}

/// A machine that hides its objects has two lawful histories that differ: in one a thread whose label is spent goes on
/// to the round's end, in the other it leaves the label and finds no slot.
pub fn hidden_objects()
    ensures late { IsLawful OneByOne one_slot [] (hidden two_releases) granule_in left_late }
    ensures early { IsLawful OneByOne one_slot [] (hidden two_releases) granule_in left_early }
    ensures differ { left_late ≢ left_early }
{}

// What was found in a history stays when it goes on.

ghost use Rattle.std.specs.Prelude.{◌≡◌, ◌<◌, ◌≤◌, ℕ, ◌↔◌, List, ◌++◌, length, All};
ghost use Rattle.run_record.specs.declared.entry.Entry.{Entry};
ghost use Rattle.run_record.specs.declared.entry.Check.{Check};
ghost use Rattle.run_record.specs.declared.limits.Limits.{Limits};
ghost use Rattle.run_record.specs.declared.report.Report.{Report};
ghost use Rattle.run_laws.specs.Moments.{Moment, moments, moment_at};
ghost use Rattle.run_laws.specs.Window.{round_end};
ghost use Rattle.run_laws.specs.Candidates.{IsCandidate};
ghost use Rattle.run_laws.specs.Reports.{Finds};
ghost use Rattle.report_laws.specs.Sound.{AreOfLaterRounds};
ghost use Rattle.report_laws.specs.Awaited.{Awaited, Awaits};

/// The candidates of a history are the same in each longer one.
pub fn candidate_law()
    ensures { (g : ℕ) (h later : List Moment) (n : ℕ) (check : Check) (word : ℕ) → n < length h →
        IsCandidate g (h ++ later) n check word ↔ IsCandidate g h n check word }
{}

/// And so are those that await the end of their round.
pub fn awaits_law()
    ensures { (g : ℕ) (h later : List Moment) (from n : ℕ) (waiting : List Awaited) → n ≤ length h →
        Awaits g h from n waiting → Awaits g (h ++ later) from n waiting }
{}

/// The reports of a history are found in each longer one, where the entries that it goes on by are of later rounds.
pub fn found_law()
    ensures { (limits : Limits) (address_of : ℕ → ℕ) (entries later : List Entry) → AreOfLaterRounds entries later →
        (n : ℕ) (found : List Report) → n ≤ length (moments entries) →
        Finds limits address_of (moments entries) n found → Finds limits address_of (moments (entries ++ later)) n found }
{}

/// Where no entry is of a later round than the last ones, the round of each moment of these ends with the history.
pub fn round_law()
    ensures { (entries last : List Entry) (round : ℕ) → All (λ (e : Entry). e.round ≤ round) entries →
        All (λ (e : Entry). e.round ≡ round) last → (n : ℕ) → length (moments entries) ≤ n →
        n < length (moments (entries ++ last)) →
        round_end (moments (entries ++ last)) (moment_at (moments (entries ++ last)) n).round ≡ length (moments (entries ++ last)) }
{}

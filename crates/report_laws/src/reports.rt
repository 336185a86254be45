// The reports of a round, and what reports stand for.

ghost use Rattle.std.specs.Prelude.{◌≡◌, ◌<◌, ◌≤◌, ℕ, Bool, List, [], ◌∷◌, ◌++◌, length, All, Option};
ghost use Rattle.std.specs.List.{AllZip};
ghost use Rattle.run_record.specs.declared.entry.Entry.{Entry};
ghost use Rattle.run_record.specs.declared.limits.Limits.{Limits};
ghost use Rattle.run_record.specs.declared.report.Report.{Report};
ghost use Rattle.run_laws.specs.Moments.{moments, moment_at, RoundsNeverFall};
ghost use Rattle.run_laws.specs.Window.{round_end};
ghost use Rattle.run_laws.specs.Reports.{Finds, Kept, kept_after, kept_of, AreReports};
ghost use Rattle.report_laws.specs.Sound.{IsSound, TellsAddresses};
ghost use Rattle.report_laws.specs.Awaited.{Awaited, Awaits, IsToldBy};
ghost use Rattle.report_laws.specs.Races.{StandsForRace};

/// At the end of the last round the reports told of its candidates are found after those of the earlier rounds.
pub fn reports_law()
    ensures { (limits : Limits) (granule_of : ℕ → Option ℕ) (address_of : ℕ → ℕ) (needs_slot : ℕ → Bool) (entries : List Entry) →
        IsSound limits granule_of needs_slot entries → TellsAddresses granule_of address_of →
        (from n : ℕ) (found : List Report) → Finds limits address_of (moments entries) from found →
        ((k : ℕ) → from ≤ k → k < n → round_end (moments entries) (moment_at (moments entries) k).round ≡ length (moments entries)) →
        (waiting : List Awaited) (told : List Report) → Awaits limits.epochs (moments entries) from n waiting →
        AllZip (IsToldBy limits address_of (moments entries)) waiting told →
        Finds limits address_of (moments entries) n (found ++ told) }
{}

/// Each report that is found stands for a race, where rounds never fall.
pub fn stands_law()
    ensures { (limits : Limits) (granule_of : ℕ → Option ℕ) (address_of : ℕ → ℕ)
        (needs_slot : ℕ → Bool) (entries : List Entry)
        → IsSound limits granule_of needs_slot entries → RoundsNeverFall entries
        → TellsAddresses granule_of address_of
        → (n : ℕ) (found : List Report) → Finds limits address_of (moments entries) n found
        → All (StandsForRace limits.epochs granule_of address_of (moments entries)) found }
{}

/// So do the reports that are kept.
pub fn races_law()
    ensures { (limits : Limits) (granule_of : ℕ → Option ℕ) (address_of : ℕ → ℕ)
        (needs_slot : ℕ → Bool) (entries : List Entry)
        → IsSound limits granule_of needs_slot entries → RoundsNeverFall entries
        → TellsAddresses granule_of address_of
        → (meets : Option (List ℕ) → Option (List ℕ) → Bool) (kept : Kept)
        → AreReports limits address_of meets (moments entries) kept
        → All (StandsForRace limits.epochs granule_of address_of (moments entries)) kept.reports }
{}

/// One more report is one more step of what is kept.
pub fn kept_law()
    ensures { (meets : Option (List ℕ) → Option (List ℕ) → Bool) (found : List Report) (report : Report) →
        kept_of meets (found ++ report ∷ []) ≡ kept_after meets (kept_of meets found) report }
{}

// No race that an access can see is passed over.

ghost use Rattle.std.specs.Prelude.{◌≤◌, ℕ, Bool, List, Option};
ghost use Rattle.run_record.specs.declared.entry.Entry.{Entry};
ghost use Rattle.run_record.specs.declared.limits.Limits.{Limits};
ghost use Rattle.run_record.specs.declared.plan.Turn.{Turn};
ghost use Rattle.run_laws.specs.Moments.{moments};
ghost use Rattle.run_laws.specs.Faithful.{Bare, Mode};
ghost use Rattle.run_laws.specs.Lawful.{IsLawful};
ghost use Rattle.run_laws.specs.Reports.{Kept, AreReports};
ghost use Rattle.report_laws.specs.Sound.{TellsAddresses};
ghost use Rattle.report_laws.specs.Offered.{LoadsRace, IsOffered};

/// In a lawful history each access that loads the word of an access of its era, which conflicts with
/// it and doesn't come before it in slot order, is reported, suppressed, or equal to a report that is kept.
pub fn offered_law<S>()
    ensures { (mode : Mode) (limits : Limits) (plan : List Turn) (bare : Bare S)
        (granule_of : ℕ → Option ℕ) (address_of : ℕ → ℕ)
        (meets : Option (List ℕ) → Option (List ℕ) → Bool) (entries : List Entry) (kept : Kept)
        → limits.slots ≤ 255 → 1 ≤ limits.epochs → limits.epochs ≤ 16383
        → TellsAddresses granule_of address_of
        → IsLawful mode limits plan bare granule_of entries
        → AreReports limits address_of meets (moments entries) kept
        → (a b : ℕ) → LoadsRace limits.epochs granule_of (moments entries) a b
        → IsOffered limits address_of meets (moments entries) kept a }
{}

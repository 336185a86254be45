// The premises of the laws, of a lawful history.

ghost use Rattle.std.specs.Prelude.{◌≤◌, ℕ, List, Option};
ghost use Rattle.run_record.specs.declared.entry.Entry.{Entry};
ghost use Rattle.run_record.specs.declared.limits.Limits.{Limits};
ghost use Rattle.run_record.specs.declared.plan.Turn.{Turn};
ghost use Rattle.run_laws.specs.Faithful.{Bare, Mode, needs_slot};
ghost use Rattle.run_laws.specs.Lawful.{IsLawful};
ghost use Rattle.report_laws.specs.Sound.{IsSound};

/// A lawful history under limits in their ranges has what the laws of reports ask for.
pub fn sound_law<S>()
    ensures { (mode : Mode) (limits : Limits) (plan : List Turn) (bare : Bare S) (granule_of : ℕ → Option ℕ) (entries : List Entry) →
        limits.slots ≤ 255 → 1 ≤ limits.epochs → limits.epochs ≤ 16383 → IsLawful mode limits plan bare granule_of entries →
        IsSound limits granule_of (needs_slot bare entries) entries }
{}

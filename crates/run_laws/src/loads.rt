// What the rule of the last store is to the rule of loads.

ghost use Rattle.std.specs.Prelude.{◌≡◌, ℕ, Option, List};
ghost use Rattle.run_record.specs.declared.entry.Entry.{Entry};
ghost use Rattle.run_laws.specs.Moments.{moments, RoundsNeverFall};
ghost use Rattle.run_laws.specs.Checks.{AreAllChecks, AllStoreRightly};
ghost use Rattle.run_laws.specs.Loads.{AllLoadRightly, AllLoadLast};

/// Where checks and stores are lawful and rounds never fall, each check that loads the last stored words
/// loads words that it may load.
/// So the exact rule, for threads that run one at a time, keeps the rule for threads that run at once.
pub fn last_store_law()
    ensures { (g : ℕ) (granule_of : ℕ → Option ℕ) (entries : List Entry) →
        AreAllChecks g granule_of entries (moments entries) → AllStoreRightly (moments entries) →
        RoundsNeverFall entries → AllLoadLast (moments entries) → AllLoadRightly g (moments entries) }
{}

// Which accesses have a candidate, by the clocks of their threads.

ghost use Rattle.std.specs.Prelude.{◌≡◌, ◌<◌, ◌≤◌, ℕ, suc, Some, None, Bool, List, [], ◌∷◌, ◌++◌, Option, option_map, position, slice_index};
ghost use Rattle.std.specs.Option.{option_or};
ghost use Rattle.run_record.specs.declared.entry.Entry.{Entry};
ghost use Rattle.run_record.specs.declared.entry.Check.{Check};
ghost use Rattle.run_record.specs.declared.limits.Limits.{Limits};
ghost use Rattle.run_record.specs.declared.report.Report.{Report};
ghost use Rattle.run_laws.specs.Moments.{Moment, moments, moment_at};
ghost use Rattle.run_laws.specs.Accesses.{Access};
ghost use Rattle.run_laws.specs.Candidates.{is_race, IsCandidate};
ghost use Rattle.run_laws.specs.Reports.{MakesAccess, told_side, Finds};
ghost use Rattle.report_laws.specs.Sound.{IsSound, race_in, first_race_in, first_race};
ghost use Rattle.report_laws.specs.Awaited.{Awaited, Awaits};

/// The first loaded word that an access finds by its thread's clock is its candidate, and without one it has none.
pub fn race_law()
    ensures candidate { (limits : Limits) (granule_of : ℕ → Option ℕ) (needs_slot : ℕ → Bool) (entries : List Entry) →
        IsSound limits granule_of needs_slot entries → (n t : ℕ) (access : Access) → MakesAccess (moments entries) n t access →
        (check : Check) (word : ℕ) → first_race limits.epochs (moments entries) n t ≡ Some (check, word) →
        IsCandidate limits.epochs (moments entries) n check word }
    ensures no_candidate { (limits : Limits) (granule_of : ℕ → Option ℕ) (needs_slot : ℕ → Bool) (entries : List Entry) →
        IsSound limits granule_of needs_slot entries → (n t : ℕ) (access : Access) → MakesAccess (moments entries) n t access →
        first_race limits.epochs (moments entries) n t ≡ None →
        (check : Check) (word : ℕ) → IsCandidate limits.epochs (moments entries) n check word → ⊥ }
    ensures awaited { (limits : Limits) (granule_of : ℕ → Option ℕ) (needs_slot : ℕ → Bool) (entries : List Entry) →
        IsSound limits granule_of needs_slot entries → (from n t : ℕ) (waiting : List Awaited) (access : Access) →
        Awaits limits.epochs (moments entries) from n waiting → MakesAccess (moments entries) n t access →
        (check : Check) (word : ℕ) → first_race limits.epochs (moments entries) n t ≡ Some (check, word) →
        Awaits limits.epochs (moments entries) from (suc n) (waiting ++ record { mine = told_side (moments entries) n t access; granule = check.granule; word = word } ∷ []) }
    ensures unawaited { (limits : Limits) (granule_of : ℕ → Option ℕ) (needs_slot : ℕ → Bool) (entries : List Entry) →
        IsSound limits granule_of needs_slot entries → (from n t : ℕ) (waiting : List Awaited) (access : Access) →
        Awaits limits.epochs (moments entries) from n waiting → MakesAccess (moments entries) n t access →
        first_race limits.epochs (moments entries) n t ≡ None →
        Awaits limits.epochs (moments entries) from (suc n) waiting }
{}

/// Between two positions without checks between them there is no candidate.
pub fn quiet_law()
    ensures awaits { (g : ℕ) (h : List Moment) (from n m : ℕ) (waiting : List Awaited) → Awaits g h from n waiting → n ≤ m →
        ((k : ℕ) → n ≤ k → k < m → (moment_at h k).checks ≡ []) → Awaits g h from m waiting }
    ensures finds { (limits : Limits) (address_of : ℕ → ℕ) (h : List Moment) (n m : ℕ) (found : List Report) →
        Finds limits address_of h n found → n ≤ m → ((k : ℕ) → n ≤ k → k < m → (moment_at h k).checks ≡ []) →
        Finds limits address_of h m found }
{}

/// What a clock finds in checks, check by check: the word of the first cell that races, of the first check that has one.
/// Two clocks that know the same of each slot find the same.
pub fn checks_law()
    ensures cell { (clock : ℕ → ℕ) (check : Check) →
        race_in clock check ≡ option_map (slice_index check.cells) (position (is_race clock check.word) check.cells) }
    ensures next { (clock : ℕ → ℕ) (checks : List Check) (check : Check) →
        first_race_in clock (checks ++ check ∷ []) ≡ option_or (first_race_in clock checks) (option_map (λ (w : ℕ). (check, w)) (race_in clock check)) }
    ensures same { (clock known : ℕ → ℕ) (checks : List Check) → ((r : ℕ) → clock r ≡ known r) →
        first_race_in clock checks ≡ first_race_in known checks }
{}

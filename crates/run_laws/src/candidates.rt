// Which loaded words race, by the clock and by the order.

ghost use Rattle.std.specs.Prelude.{◌≡◌, ◌≤◌, ℕ, ◌↔◌, Some, None, true, Bool, List, find, Option};
ghost use Rattle.run_record.specs.declared.event.Event.{Event};
ghost use Rattle.run_record.specs.declared.entry.Entry.{Entry};
ghost use Rattle.run_record.specs.declared.entry.Check.{Check};
ghost use Rattle.run_record.specs.declared.limits.Limits.{Limits};
ghost use Rattle.run_laws.specs.Moments.{Moment, Does, moments, items, moment_at};
ghost use Rattle.run_laws.specs.Labels.{labels};
ghost use Rattle.run_laws.specs.Clocks.{clocks, taken_from};
ghost use Rattle.run_laws.specs.DeskNotes.{AreNotes};
ghost use Rattle.run_laws.specs.Words.{sid, era, opposes};
ghost use Rattle.run_laws.specs.Checks.{AreAllChecks, AllStoreRightly};
ghost use Rattle.run_laws.specs.Loads.{AllLoadRightly};
ghost use Rattle.run_laws.specs.Candidates.{has_word, is_race, loaded_by, Races, IsCandidate, TellLabels};

/// Where words tell the labels of their accesses, the test of a check by its thread's clock finds a
/// loaded word exactly where it races.
/// A word that opposes the check's own has to be that of some access on the granule.
pub fn race_law()
    ensures { (g : ℕ) (h : List Moment) → TellLabels g h → (a t : ℕ) (v : Event) → items h a ≡ Does t v →
        taken_from t v ≡ None → (c : Check) → (labels g (items h) a).slot_of t ≡ Some (sid c.word) →
        (labels g (items h) a).era ≡ era c.word → (w : ℕ) →
        (opposes c.word w ≡ true → (x : ℕ) × (has_word c.granule w (moment_at h x) ≡ true)) →
        (is_race ((clocks g (items h) a).thread t) c.word w ≡ true) ↔ Races g h a c w }
{}

/// Where notes, checks, stores and loads are lawful, the first loaded word that an access finds by its
/// thread's clock is its candidate.
pub fn candidate_law()
    ensures { (limits : Limits) (granule_of : ℕ → Option ℕ) (needs_slot : ℕ → Bool) (entries : List Entry) →
        limits.slots ≤ 255 → 1 ≤ limits.epochs → limits.epochs ≤ 16383 →
        AreNotes limits needs_slot (moments entries) →
        AreAllChecks limits.epochs granule_of entries (moments entries) →
        AllStoreRightly (moments entries) → AllLoadRightly limits.epochs (moments entries) →
        (a t : ℕ) (v : Event) → items (moments entries) a ≡ Does t v → taken_from t v ≡ None →
        (c : Check) (w : ℕ) →
        (find (λ (l : Check × ℕ). is_race ((clocks limits.epochs (items (moments entries)) a).thread t) l.0.word l.1) (loaded_by (moment_at (moments entries) a)) ≡ Some (c, w)) ↔ IsCandidate limits.epochs (moments entries) a c w }
{}

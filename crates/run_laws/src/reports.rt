// What is known of the two accesses of a report.

ghost use Rattle.std.specs.Prelude.{◌≡◌, ◌*◌, ◌≤◌, ℕ, Bool, Some, List, Option};
ghost use Rattle.run_record.specs.declared.event.Event.{Event};
ghost use Rattle.run_record.specs.declared.entry.Entry.{Entry};
ghost use Rattle.run_record.specs.declared.entry.Check.{Check};
ghost use Rattle.run_record.specs.declared.limits.Limits.{Limits};
ghost use Rattle.run_record.specs.declared.report.Report.{Report};
ghost use Rattle.run_laws.specs.Moments.{Does, Moment, moments, items, RoundsNeverFall};
ghost use Rattle.run_laws.specs.HappensBefore.{HappensBefore};
ghost use Rattle.run_laws.specs.DeskNotes.{AreNotes};
ghost use Rattle.run_laws.specs.Accesses.{Access, access_of, Conflict};
ghost use Rattle.run_laws.specs.Checks.{AreAllChecks, AllStoreRightly};
ghost use Rattle.run_laws.specs.Loads.{IsEarlier, AllLoadRightly};
ghost use Rattle.run_laws.specs.Candidates.{IsCandidate};
ghost use Rattle.run_laws.specs.Reports.{first_with, IsReport, Kept, AreReports};

/// Where notes, checks, stores and loads are lawful and no two blocks of memory are one granule, an
/// access with a candidate and the first access with its word conflict, and neither happens before the
/// other.
pub fn conflict_law()
    ensures { (limits : Limits) (granule_of : ℕ → Option ℕ) (needs_slot : ℕ → Bool) (entries : List Entry) →
        limits.slots ≤ 255 → 1 ≤ limits.epochs → limits.epochs ≤ 16383 →
        ((b c k : ℕ) → granule_of (8 * b) ≡ Some k → granule_of (8 * c) ≡ Some k → b ≡ c) →
        AreNotes limits needs_slot (moments entries) →
        AreAllChecks limits.epochs granule_of entries (moments entries) →
        AllStoreRightly (moments entries) → AllLoadRightly limits.epochs (moments entries) →
        (a : ℕ) (c : Check) (w : ℕ) → IsCandidate limits.epochs (moments entries) a c w → (x : ℕ) →
        first_with (moments entries) c.granule w ≡ Some x → (t u : ℕ) (e f : Event) (mine other : Access) →
        items (moments entries) a ≡ Does t e → access_of e ≡ Some mine →
        items (moments entries) x ≡ Does u f → access_of f ≡ Some other →
        Conflict granule_of t mine u other × (HappensBefore (items (moments entries)) x a → ⊥) × (HappensBefore (items (moments entries)) a x → ⊥) }
{}

/// Where notes, checks, stores and loads are lawful, each access with a candidate has a report. Where
/// moreover rounds never fall, it isn't earlier than the first access with its candidate's word, neither
/// by its round nor in slot order.
pub fn report_law()
    ensures told { (limits : Limits) (granule_of : ℕ → Option ℕ) (address_of : ℕ → ℕ) (needs_slot : ℕ → Bool) (entries : List Entry) →
        limits.slots ≤ 255 → 1 ≤ limits.epochs → limits.epochs ≤ 16383 →
        AreNotes limits needs_slot (moments entries) →
        AreAllChecks limits.epochs granule_of entries (moments entries) →
        AllStoreRightly (moments entries) → AllLoadRightly limits.epochs (moments entries) →
        (a : ℕ) (c : Check) (w : ℕ) → IsCandidate limits.epochs (moments entries) a c w →
        (report : Report) × IsReport limits address_of (moments entries) a c.granule w report }
    ensures not_earlier { (limits : Limits) (granule_of : ℕ → Option ℕ) (needs_slot : ℕ → Bool) (entries : List Entry) →
        limits.slots ≤ 255 → 1 ≤ limits.epochs → limits.epochs ≤ 16383 →
        AreNotes limits needs_slot (moments entries) →
        AreAllChecks limits.epochs granule_of entries (moments entries) →
        AllStoreRightly (moments entries) → AllLoadRightly limits.epochs (moments entries) →
        RoundsNeverFall entries → (a : ℕ) (c : Check) (w : ℕ) →
        IsCandidate limits.epochs (moments entries) a c w → (x : ℕ) →
        first_with (moments entries) c.granule w ≡ Some x → IsEarlier limits.epochs (moments entries) a x →
        ⊥ }
{}

/// Where notes, checks, stores and loads are lawful, a history has reports; and no history has two lists of them.
pub fn reports_law()
    ensures some_list { (limits : Limits) (granule_of : ℕ → Option ℕ) (address_of : ℕ → ℕ) (needs_slot : ℕ → Bool) (entries : List Entry) →
        limits.slots ≤ 255 → 1 ≤ limits.epochs → limits.epochs ≤ 16383 →
        AreNotes limits needs_slot (moments entries) → AreAllChecks limits.epochs granule_of entries (moments entries) →
        AllStoreRightly (moments entries) → AllLoadRightly limits.epochs (moments entries) →
        (meets : Option (List ℕ) → Option (List ℕ) → Bool) →
        (kept : Kept) × AreReports limits address_of meets (moments entries) kept }
    ensures one_list { (limits : Limits) (address_of : ℕ → ℕ) (meets : Option (List ℕ) → Option (List ℕ) → Bool) (h : List Moment) (kept other : Kept) →
        AreReports limits address_of meets h kept → AreReports limits address_of meets h other → kept ≡ other }
{}

// Moments go on by one, within a turn.

ghost use Rattle.std.specs.Prelude.{◌≡◌, ◌≤◌, ℕ, ◌+◌, List, [], ◌∷◌, ◌++◌, length, All, Option, Some, None};
ghost use Rattle.run_record.specs.declared.event.Event.{Event};
ghost use Rattle.run_record.specs.declared.entry.Entry.{Entry};
ghost use Rattle.run_record.specs.declared.entry.Check.{Check};
ghost use Rattle.run_record.specs.declared.entry.Label.{Label};
ghost use Rattle.run_record.specs.declared.limits.Limits.{Limits};
ghost use Rattle.run_laws.specs.Moments.{Does, Moment, moments_in, last_era};
ghost use Rattle.run_laws.specs.Checks.{IsGrouped};
ghost use Rattle.run_laws.specs.Present.{labels_now, label_now, queue_now, clocks_now, trace_now, frames_now, locks_now, cell_now};
ghost use Rattle.turn_laws.specs.Going.{AreRightFrom, HasSpent, spent_by, AreRightNow, IsNoEvent, with_event, AreOfEvents, AreAlike, era_moment};

/// Checks that stand rightly from a position on go on to do so.
/// They do with one more event whose checks are right, and with a moment that is no event and has no checks.
pub fn push_law()
    ensures none_yet { (g : ℕ) (granule_of : ℕ → Option ℕ) (h : List Moment) → AreRightFrom g granule_of h (length h) }
    ensures event { (g : ℕ) (granule_of : ℕ → Option ℕ) (h : List Moment) (from t : ℕ) (e : Event) (m : Moment) →
        AreRightFrom g granule_of h from → from ≤ length h → m.item ≡ Does t e →
        AreRightNow g granule_of h t e m.checks → AreRightFrom g granule_of (h ++ m ∷ []) from }
    ensures no_event { (g : ℕ) (granule_of : ℕ → Option ℕ) (h : List Moment) (from : ℕ) (m : Moment) →
        AreRightFrom g granule_of h from → from ≤ length h → IsNoEvent m → m.checks ≡ [] →
        AreRightFrom g granule_of (h ++ m ∷ []) from }
{}

/// Which label was spent from a position on, after one more moment.
/// At first none was. While none was, the thread's event may spend its label. Once one was, the thread has
/// none, and its events spend nothing more. A moment that is no event spends nothing.
pub fn spend_law()
    ensures none_yet { (limits : Limits) (h : List Moment) (t : ℕ) → HasSpent limits h (length h) t None }
    ensures event { (limits : Limits) (h : List Moment) (from t : ℕ) (e : Event) (m : Moment) →
        HasSpent limits h from t None → from ≤ length h → m.item ≡ Does t e →
        HasSpent limits (h ++ m ∷ []) from t (spent_by limits.epochs (label_now limits.epochs h t) e) }
    ensures after { (limits : Limits) (h : List Moment) (from t : ℕ) (e : Event) (m : Moment) (l : Label) →
        HasSpent limits h from t (Some l) → m.item ≡ Does t e → label_now limits.epochs h t ≡ None →
        HasSpent limits (h ++ m ∷ []) from t (Some l) }
    ensures no_event { (limits : Limits) (h : List Moment) (from t : ℕ) (m : Moment) (spent : Option Label) →
        HasSpent limits h from t spent → IsNoEvent m → HasSpent limits (h ++ m ∷ []) from t spent }
{}

/// The checks of an entry stand in the order of their events, and each belongs to one of them, also after one
/// more event with its checks.
pub fn grouped_law()
    ensures grouped { (e : Entry) (event : Event) (checks : List Check) → IsGrouped e → AreOfEvents e →
        All (λ (c : Check). c.event ≡ length e.events) checks → IsGrouped (with_event e event checks) }
    ensures of_events { (e : Entry) (event : Event) (checks : List Check) → AreOfEvents e →
        All (λ (c : Check). c.event ≡ length e.events) checks → AreOfEvents (with_event e event checks) }
{}

/// What stands after some moments depends on what happens at them and on their checks alone.
pub fn same_items_law()
    ensures labels { (g : ℕ) (h k : List Moment) → AreAlike h k → labels_now g h ≡ labels_now g k }
    ensures clocks { (g : ℕ) (h k : List Moment) → AreAlike h k → clocks_now g h ≡ clocks_now g k }
    ensures queue { (g slots : ℕ) (h k : List Moment) → AreAlike h k → queue_now g slots h ≡ queue_now g slots k }
    ensures trace { (g : ℕ) (h k : List Moment) (t : ℕ) → AreAlike h k → trace_now g h t ≡ trace_now g k t }
    ensures frames { (h k : List Moment) (t : ℕ) → AreAlike h k → frames_now h t ≡ frames_now k t }
    ensures locks { (h k : List Moment) (t : ℕ) → AreAlike h k → locks_now h t ≡ locks_now k t }
    ensures cell { (h k : List Moment) (granule cell : ℕ) → AreAlike h k → cell_now h granule cell ≡ cell_now k granule cell }
{}

/// The round of a next entry changes nothing that stands before it: the moments of both rounds are alike.
pub fn alike_law()
    ensures { (round other era : ℕ) (entries : List Entry) → AreAlike (moments_in round era entries) (moments_in other era entries) }
{}

/// With one more era before the next entry there is one more moment.
pub fn era_step()
    ensures { (round era : ℕ) (entries : List Entry) → last_era entries ≤ era →
        moments_in round (era + 1) entries ≡ moments_in round era entries ++ era_moment (length entries) round ∷ [] }
{}

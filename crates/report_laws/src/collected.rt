// What threads' clocks find while a history goes on, moment by moment, before its entries are whole.

ghost use Rattle.std.specs.Prelude.{◌≡◌, ◌≤◌, ℕ, Some, None, Bool, List, [], ◌∷◌, ◌++◌, length, Option};
ghost use Rattle.run_record.specs.declared.entry.Entry.{Entry};
ghost use Rattle.run_record.specs.declared.entry.Check.{Check};
ghost use Rattle.run_record.specs.declared.event.Event.TheVariants as events;
ghost use Rattle.run_record.specs.declared.limits.Limits.{Limits};
ghost use Rattle.run_laws.specs.Moments.{Does, Moment, moments};
ghost use Rattle.run_laws.specs.Accesses.{Access};
ghost use Rattle.run_laws.specs.Present.{clocks_now};
ghost use Rattle.run_laws.specs.Reports.{told_side};
ghost use Rattle.report_laws.specs.Sound.{IsSound, first_race_in};
ghost use Rattle.report_laws.specs.Awaited.{Awaited, Awaits, Collects};

/// One moment more: one without checks, an access whose thread's clock finds no race, or one with a race.
pub fn collects_law()
    ensures unchecked { (g : ℕ) (h : List Moment) (from : ℕ) (waiting : List Awaited) (m : Moment) →
        Collects g h from (length h) waiting → m.checks ≡ [] →
        Collects g (h ++ m ∷ []) from (length (h ++ m ∷ [])) waiting }
    ensures ordered { (g : ℕ) (h : List Moment) (from : ℕ) (waiting : List Awaited) (m : Moment) (t : ℕ) (access : Access) →
        Collects g h from (length h) waiting →
        m.item ≡ Does t (events.Access access.place access.addr access.size access.read access.atomic) →
        first_race_in ((clocks_now g h).thread t) m.checks ≡ None →
        Collects g (h ++ m ∷ []) from (length (h ++ m ∷ [])) waiting }
    ensures unordered { (g : ℕ) (h : List Moment) (from : ℕ) (waiting : List Awaited) (m : Moment) (t : ℕ) (access : Access) →
        Collects g h from (length h) waiting →
        m.item ≡ Does t (events.Access access.place access.addr access.size access.read access.atomic) →
        (check : Check) (word : ℕ) → first_race_in ((clocks_now g h).thread t) m.checks ≡ Some (check, word) →
        Collects g (h ++ m ∷ []) from (length (h ++ m ∷ [])) (waiting ++ record { mine = told_side h (length h) t access; granule = check.granule; word = word } ∷ []) }
    ensures stays { (g : ℕ) (h later : List Moment) (from n : ℕ) (waiting : List Awaited) → n ≤ length h →
        Collects g h from n waiting → Collects g (h ++ later) from n waiting }
{}

/// Where the entries are whole and lawful, what the clocks found are the candidates.
pub fn collected_law()
    ensures { (limits : Limits) (granule_of : ℕ → Option ℕ) (needs_slot : ℕ → Bool) (entries : List Entry) →
        IsSound limits granule_of needs_slot entries → (from n : ℕ) (waiting : List Awaited) →
        Collects limits.epochs (moments entries) from n waiting → Awaits limits.epochs (moments entries) from n waiting }
{}

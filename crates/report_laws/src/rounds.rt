// One round more, as the layer above uses the laws.

ghost use Rattle.std.specs.Prelude.{◌≡◌, ◌<◌, ◌≤◌, ℕ, Bool, List, ◌++◌, length, All, Option};
ghost use Rattle.std.specs.List.{AllZip};
ghost use Rattle.run_record.specs.declared.entry.Entry.{Entry};
ghost use Rattle.run_record.specs.declared.limits.Limits.{Limits};
ghost use Rattle.run_record.specs.declared.report.Report.{Report};
ghost use Rattle.run_laws.specs.Moments.{Moment, moments, moments_in};
ghost use Rattle.run_laws.specs.Present.{labels_now};
ghost use Rattle.run_laws.specs.Reports.{Finds};
ghost use Rattle.report_laws.specs.Sound.{IsSound, TellsAddresses};
ghost use Rattle.report_laws.specs.Awaited.{Awaited, Collects, HasOwner, IsRestorable, IsToldBy};

/// A history goes on by the entries of one round, which begins in an era, and `waiting` is what the clocks found in it.
/// Where the round ends in this era, the label of each of them is a thread's and of the present era. Each can be sought in
/// the trace of this thread. And the reports that these traces tell are what is found after those of the earlier rounds.
pub fn next_round_law()
    ensures owners { (limits : Limits) (granule_of : ℕ → Option ℕ) (needs_slot : ℕ → Bool) (entries last : List Entry) (round era : ℕ) (rest : List Moment) →
        IsSound limits granule_of needs_slot (entries ++ last) →
        moments (entries ++ last) ≡ moments_in round era entries ++ rest →
        (labels_now limits.epochs (moments_in round era entries)).era ≡ (labels_now limits.epochs (moments (entries ++ last))).era →
        (waiting : List Awaited) →
        Collects limits.epochs (moments (entries ++ last)) (length (moments_in round era entries)) (length (moments (entries ++ last))) waiting →
        All (HasOwner limits.epochs (moments (entries ++ last))) waiting }
    ensures restorable { (limits : Limits) (granule_of : ℕ → Option ℕ) (address_of : ℕ → ℕ) (needs_slot : ℕ → Bool) (entries last : List Entry) (round era : ℕ) (rest : List Moment) →
        IsSound limits granule_of needs_slot (entries ++ last) → TellsAddresses granule_of address_of →
        moments (entries ++ last) ≡ moments_in round era entries ++ rest → (waiting : List Awaited) →
        Collects limits.epochs (moments (entries ++ last)) (length (moments_in round era entries)) (length (moments (entries ++ last))) waiting →
        All (IsRestorable limits granule_of address_of (moments (entries ++ last))) waiting }
    ensures found { (limits : Limits) (granule_of : ℕ → Option ℕ) (address_of : ℕ → ℕ) (needs_slot : ℕ → Bool) (entries last : List Entry) (round era : ℕ) (rest : List Moment) →
        IsSound limits granule_of needs_slot (entries ++ last) → TellsAddresses granule_of address_of →
        All (λ (e : Entry). e.round < round) entries → All (λ (e : Entry). e.round ≡ round) last →
        moments (entries ++ last) ≡ moments_in round era entries ++ rest → (found : List Report) →
        Finds limits address_of (moments entries) (length (moments entries)) found → (waiting : List Awaited) →
        Collects limits.epochs (moments (entries ++ last)) (length (moments_in round era entries)) (length (moments (entries ++ last))) waiting →
        (told : List Report) → AllZip (IsToldBy limits address_of (moments (entries ++ last))) waiting told →
        Finds limits address_of (moments (entries ++ last)) (length (moments (entries ++ last))) (found ++ told) }
{}

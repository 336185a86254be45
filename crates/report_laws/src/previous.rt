// The earlier access of a report: whose it is, and that the trace of its thread tells it.

ghost use Rattle.std.specs.Prelude.{◌≡◌, ◌<◌, ◌≤◌, ℕ, Some, true, Bool, IsSome, List, length, All, Option};
ghost use Rattle.run_record.specs.declared.entry.Entry.{Entry};
ghost use Rattle.run_record.specs.declared.entry.Check.{Check};
ghost use Rattle.run_record.specs.declared.entry.Label.{Label};
ghost use Rattle.run_record.specs.declared.limits.Limits.{Limits};
ghost use Rattle.run_laws.specs.Moments.{Moment, moments, moment_at, items};
ghost use Rattle.run_laws.specs.Labels.{labels};
ghost use Rattle.run_laws.specs.Accesses.{Access};
ghost use Rattle.run_laws.specs.Words.{sid, label_in};
ghost use Rattle.run_laws.specs.Window.{round_end, is_held};
ghost use Rattle.run_laws.specs.Present.{labels_now, trace_now};
ghost use Rattle.run_laws.specs.Candidates.{IsCandidate};
ghost use Rattle.run_laws.specs.Reports.{MakesAccess, told_side, IsReport};
ghost use Rattle.trace_parts.specs.Held.{HeldTrace, has_label};
ghost use Rattle.trace_parts.specs.Sought.{restored, first_held};
ghost use Rattle.report_laws.specs.Sound.{IsSound, TellsAddresses};
ghost use Rattle.report_laws.specs.Owners.{IsLabelOf, IsTraceOf, previous_side};
ghost use Rattle.report_laws.specs.Awaited.{Awaited, Awaits, HasOwner};

/// The label in a candidate's word is that of a thread, and of one alone. Its slot is one of the limits', and its
/// era that of the access that loaded it; so it is the present one where no era began since.
pub fn owner_law()
    ensures owner { (limits : Limits) (granule_of : ℕ → Option ℕ) (needs_slot : ℕ → Bool) (entries : List Entry) →
        IsSound limits granule_of needs_slot entries → (n : ℕ) (check : Check) (word : ℕ) →
        IsCandidate limits.epochs (moments entries) n check word →
        (u : ℕ) × IsLabelOf limits.epochs (moments entries) u (label_in word) }
    ensures slot { (limits : Limits) (granule_of : ℕ → Option ℕ) (needs_slot : ℕ → Bool) (entries : List Entry) →
        IsSound limits granule_of needs_slot entries → (n : ℕ) (check : Check) (word : ℕ) →
        IsCandidate limits.epochs (moments entries) n check word → sid word < limits.slots }
    ensures era { (limits : Limits) (granule_of : ℕ → Option ℕ) (needs_slot : ℕ → Bool) (entries : List Entry) →
        IsSound limits granule_of needs_slot entries → (n : ℕ) (check : Check) (word : ℕ) →
        IsCandidate limits.epochs (moments entries) n check word →
        (label_in word).era ≡ (labels limits.epochs (items (moments entries)) n).era }
    ensures one_thread { (g : ℕ) (h : List Moment) (u v : ℕ) (label : Label) → IsLabelOf g h u label →
        IsLabelOf g h v label → u ≡ v }
    ensures awaited { (limits : Limits) (granule_of : ℕ → Option ℕ) (needs_slot : ℕ → Bool) (entries : List Entry) →
        IsSound limits granule_of needs_slot entries → (from n : ℕ) (waiting : List Awaited) →
        Awaits limits.epochs (moments entries) from n waiting → n ≤ length (moments entries) →
        (labels limits.epochs (items (moments entries)) from).era ≡ (labels_now limits.epochs (moments entries)).era →
        All (HasOwner limits.epochs (moments entries)) waiting }
{}

/// Let an access have a candidate, and let its round be the last one. The trace of the thread that the word's label is
/// of has this label exactly where it is held, and then it has an access under it with the word on the granule. The
/// first one is what is to be told as previous.
pub fn previous_law()
    ensures held { (limits : Limits) (h : List Moment) (u : ℕ) (trace : HeldTrace) → IsTraceOf limits h u trace →
        (label : Label) → has_label trace label ≡ is_held limits (trace_now limits.epochs h u) label }
    ensures stands { (limits : Limits) (granule_of : ℕ → Option ℕ) (address_of : ℕ → ℕ) (needs_slot : ℕ → Bool) (entries : List Entry) →
        IsSound limits granule_of needs_slot entries → TellsAddresses granule_of address_of →
        (n : ℕ) (check : Check) (word : ℕ) → IsCandidate limits.epochs (moments entries) n check word →
        (u : ℕ) → IsLabelOf limits.epochs (moments entries) u (label_in word) →
        (trace : HeldTrace) → IsTraceOf limits (moments entries) u trace → has_label trace (label_in word) ≡ true →
        IsSome (first_held trace.held (label_in word) (address_of check.granule) word) }
    ensures report { (limits : Limits) (granule_of : ℕ → Option ℕ) (address_of : ℕ → ℕ) (needs_slot : ℕ → Bool) (entries : List Entry) →
        IsSound limits granule_of needs_slot entries → TellsAddresses granule_of address_of →
        (n : ℕ) (check : Check) (word : ℕ) → IsCandidate limits.epochs (moments entries) n check word →
        round_end (moments entries) (moment_at (moments entries) n).round ≡ length (moments entries) →
        (u : ℕ) → IsLabelOf limits.epochs (moments entries) u (label_in word) →
        (trace : HeldTrace) → IsTraceOf limits (moments entries) u trace →
        (t : ℕ) (access : Access) → MakesAccess (moments entries) n t access →
        IsReport limits address_of (moments entries) n check.granule word (record {
          mine = told_side (moments entries) n t access;
          previous = previous_side address_of check.granule word u (restored (first_held trace.held (label_in word) (address_of check.granule) word));
        }) }
{}

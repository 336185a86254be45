// The laws by which a watcher stays that of its thread while the history goes on.
//
// In all of them h is a history and m its next moment. `IsWatcherAt limits h t w` says that w is the
// watcher of thread t after h.
ghost use Rattle.std.specs.Prelude.{◌≡◌, ◌≢◌, ◌<◌, ◌≤◌, ◌^◌, ℕ, Some, None, Ok, false, All, AllPairs, List, [], ◌∷◌, ◌++◌, length, slice_index};
ghost use Rattle.run_record.specs.declared.event.Event.{Event};
ghost use Rattle.run_record.specs.declared.event.Event.TheVariants.{End};
ghost use Rattle.run_record.specs.declared.entry.Label.{Label};
ghost use Rattle.run_record.specs.declared.entry.DeskNote.TheVariants.{Nothing, Attach, Leave};
ghost use Rattle.run_record.specs.declared.limits.Limits.{Limits};
ghost use Rattle.run_laws.specs.Moments.{Item, Does, Notes, NewEra, Moment, items, IsBy};
ghost use Rattle.run_laws.specs.Accesses.{Access};
ghost use Rattle.run_laws.specs.Labels.{Labels, raises, is_end, next_labels};
ghost use Rattle.run_laws.specs.Clocks.{Clocks, taken_from, next_clocks};
ghost use Rattle.run_laws.specs.Present.{labels_now, label_now, clocks_now};
ghost use Rattle.run_laws.specs.Reports.{told_side};
ghost use Rattle.elf_image.specs.File.{image_of, granules_of};
ghost use Rattle.race_core.specs.Walk.{planned};
ghost use Rattle.race_core.specs.Watched.{Watched, AreWatcherLimits, new_watched, with_room, noted, labelled, unlabelled, with_clock, raised, in_era, side_of};
ghost use Rattle.race_core.specs.History.{era_now, IsClock, IsWatcherAt, IsWithin, AttachesWithin};

/// A new watcher is that of a thread that did nothing yet.
pub fn first_law()
    ensures { (limits : Limits) (h : List Moment) (t : ℕ) → AreWatcherLimits limits → ((i : ℕ) → IsBy t (items h i) → ⊥) → IsWatcherAt limits h t (new_watched t limits) }
{}

/// What others do, and what begins for them, leaves it the thread's.
pub fn other_law()
    ensures { (limits : Limits) (h : List Moment) (m : Moment) (t : ℕ) (w : Watched) →
        IsWatcherAt limits h t w → (IsBy t m.item → ⊥) → (m.item ≡ NewEra → ⊥) → IsWatcherAt limits (h ++ m ∷ []) t w }
{}

/// So does the beginning of an entry without a note, or with the note of leaving. The label was lost before, by the event at the greatest epoch.
pub fn quiet_law()
    ensures nothing { (limits : Limits) (h : List Moment) (m : Moment) (t : ℕ) (w : Watched) →
        IsWatcherAt limits h t w → m.item ≡ Notes t Nothing → IsWatcherAt limits (h ++ m ∷ []) t w }
    ensures leave { (limits : Limits) (h : List Moment) (m : Moment) (t : ℕ) (w : Watched) (label : Label) →
        IsWatcherAt limits h t w → m.item ≡ Notes t (Leave label) → IsWatcherAt limits (h ++ m ∷ []) t w }
{}

/// Room changes nothing.
pub fn room_law()
    ensures { (limits : Limits) (h : List Moment) (t : ℕ) (w : Watched) → IsWatcherAt limits h t w → IsWatcherAt limits h t (with_room w) }
{}

/// The call `take_label` goes with the note of an attachment by which the thread gets that label, where the clock is the thread's after it.
pub fn attach_law()
    ensures { (limits : Limits) (h : List Moment) (m : Moment) (t : ℕ) (w : Watched) (label : Label) (clock : List ℕ) →
        IsWatcherAt limits h t w → m.item ≡ Notes t (Attach label) → w.era ≡ era_now limits.epochs h → label_now limits.epochs (h ++ m ∷ []) t ≡ Some label →
        label.sid < limits.slots → 1 ≤ label.epoch → label.epoch ≤ limits.epochs →
        length clock ≡ limits.slots → IsClock clock ((clocks_now limits.epochs (h ++ m ∷ [])).thread t) →
        IsWatcherAt limits (h ++ m ∷ []) t (labelled (with_clock w clock) label) }
{}

/// The call `note` goes with an event that neither raises the epoch nor ends the thread: where it takes a clock in, the watcher's clock is the thread's after it.
pub fn event_law()
    ensures taking { (limits : Limits) (h : List Moment) (m : Moment) (t : ℕ) (w : Watched) (e : Event) (clock : List ℕ) →
        IsWatcherAt limits h t w → m.item ≡ Does t e → raises e ≡ 0 → is_end e ≡ false → w.era ≡ era_now limits.epochs h →
        length clock ≡ limits.slots → IsClock clock ((clocks_now limits.epochs (h ++ m ∷ [])).thread t) →
        IsWatcherAt limits (h ++ m ∷ []) t (noted (with_clock w clock) e) }
    ensures still { (limits : Limits) (h : List Moment) (m : Moment) (t : ℕ) (w : Watched) (e : Event) →
        IsWatcherAt limits h t w → m.item ≡ Does t e → raises e ≡ 0 → is_end e ≡ false → taken_from t e ≡ None →
        IsWatcherAt limits (h ++ m ∷ []) t (noted w e) }
{}

/// The call `raise` goes with a Create or a Release of a thread with a label. Where the label's epoch is the greatest, `lose_label` does.
pub fn raise_law()
    ensures rises { (limits : Limits) (h : List Moment) (m : Moment) (t : ℕ) (w : Watched) (e : Event) (label : Label) →
        IsWatcherAt limits h t w → m.item ≡ Does t e → raises e ≡ 1 → w.era ≡ era_now limits.epochs h → w.label ≡ Some label → label.epoch < limits.epochs →
        IsWatcherAt limits (h ++ m ∷ []) t (raised (noted w e)) }
    ensures spent { (limits : Limits) (h : List Moment) (m : Moment) (t : ℕ) (w : Watched) (e : Event) (label : Label) →
        IsWatcherAt limits h t w → m.item ≡ Does t e → raises e ≡ 1 → w.era ≡ era_now limits.epochs h → w.label ≡ Some label → limits.epochs ≤ label.epoch →
        IsWatcherAt limits (h ++ m ∷ []) t (unlabelled (noted w e)) }
{}

/// The call `lose_label` goes with the thread's end.
pub fn end_law()
    ensures { (limits : Limits) (h : List Moment) (m : Moment) (t : ℕ) (w : Watched) →
        IsWatcherAt limits h t w → m.item ≡ Does t End → IsWatcherAt limits (h ++ m ∷ []) t (unlabelled (noted w End)) }
{}

/// An era begins, and the watcher is of an earlier one.
pub fn era_law()
    ensures { (limits : Limits) (h : List Moment) (m : Moment) (t : ℕ) (w : Watched) →
        IsWatcherAt limits h t w → m.item ≡ NewEra → IsWatcherAt limits (h ++ m ∷ []) t w }
{}

/// By `enter_era` it is of the present one.
pub fn enter_law()
    ensures watcher { (limits : Limits) (h : List Moment) (t : ℕ) (w : Watched) → IsWatcherAt limits h t w → IsWatcherAt limits h t (in_era w (era_now limits.epochs h)) }
    ensures era { (w : Watched) (era : ℕ) → (in_era w era).era ≡ era }
{}

/// The thread's clock has the epoch of its label at the label's slot.
pub fn own_law()
    ensures { (limits : Limits) (h : List Moment) (t : ℕ) (w : Watched) (label : Label) →
        IsWatcherAt limits h t w → w.era ≡ era_now limits.epochs h → w.label ≡ Some label → slice_index w.clock label.sid ≡ label.epoch }
{}

/// What `side_now` tells is what the history tells of the thread's next event.
pub fn side_law()
    ensures { (limits : Limits) (h : List Moment) (t : ℕ) (w : Watched) (a : Access) → IsWatcherAt limits h t w → side_of w a ≡ told_side h (length h) t a }
{}

/// Where each attachment is of a slot below n, no slot at or above n is held or known of. It is so at first, and after each item more.
pub fn beyond_law()
    ensures first { (g n : ℕ) → IsWithin n (labels_now g []) (clocks_now g []) }
    ensures step { (g n : ℕ) (l : Labels) (k : Clocks) (item : Item) → IsWithin n l k → AttachesWithin n item → IsWithin n (next_labels g l item) (next_clocks g l k item) }
    ensures push { (g n : ℕ) (h : List Moment) (m : Moment) →
        IsWithin n (labels_now g h) (clocks_now g h) → AttachesWithin n m.item → IsWithin n (labels_now g (h ++ m ∷ [])) (clocks_now g (h ++ m ∷ [])) }
{}

/// A clock of n slots that tells what is known of each of them is the whole clock, where nothing is known of others.
pub fn whole_clock_law()
    ensures { (n : ℕ) (clock : List ℕ) (known : ℕ → ℕ) → length clock ≡ n → ((r : ℕ) → r < n → known r ≡ slice_index clock r) → ((r : ℕ) → n ≤ r → known r ≡ 0) → IsClock clock known }
{}

/// Each part of an access has some of its bytes, and is of a granule of the image. Granules rise. An access of at most 65,536 bytes has at most 8,193 parts.
pub fn parts_law()
    ensures bytes { (file : List ℕ) (a : Access) → All (λ (p : ℕ × ℕ). (p.1 ≢ 0) × (p.1 < 2 ^ 8)) (planned file a) }
    ensures granules { (file : List ℕ) (a : Access) → image_of file ≡ Ok file → All (λ (p : ℕ × ℕ). p.0 < granules_of file) (planned file a) }
    ensures rise { (file : List ℕ) (a : Access) → image_of file ≡ Ok file → AllPairs (λ (p q : ℕ × ℕ). p.0 < q.0) (planned file a) }
    ensures few { (file : List ℕ) (a : Access) → a.size ≤ 65536 → length (planned file a) ≤ 8193 }
{}

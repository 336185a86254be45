//! One event of a thread: what it makes of what a detector keeps.
//!
//! A detector keeps the desk, synchronisation objects, and for each thread its watcher. The objects of an address stand at one
//! place: a detector for one thread at a time has one place for all, and one that many threads share has a place for each stripe
//! of memory, whose objects only the thread that holds the place sees. `Stands` says that all of these are what a history says;
//! the laws, that they are so again after each event of a thread, which changes its watcher and what is kept at one place, after
//! the note of a slot that is taken or left, and where an era begins.
//!
//! `slot_desk`, `sync_slab` and `race_core` stand below this crate, each of whose laws is of one of the three, and `turn_orders`.
//! Its functions do nothing: the contract of each is a law. The layers above cite `event_law` where a thread's event is heard,
//! and `note_law` and `era_law` of what stands between events.
#![tactic(auto)]

ghost use Rattle.std.specs.Prelude.{◌≡◌, ℕ, Bool, false, List, [], ◌∷◌, ◌++◌, Option, None};
ghost use Rattle.run_record.specs.declared.event.Event.{Event};
ghost use Rattle.run_record.specs.declared.event.Event.TheVariants.{Put};
ghost use Rattle.run_record.specs.declared.entry.Label.{Label};
ghost use Rattle.run_record.specs.declared.entry.DeskNote.TheVariants.{Nothing, Attach, Leave};
ghost use Rattle.run_record.specs.declared.limits.Limits.{Limits};
ghost use Rattle.run_laws.specs.Moments.{Does, Notes, NewEra, Moment};
ghost use Rattle.sync_slab.specs.Objects.{SyncObjects};
ghost use Rattle.race_core.specs.History.{era_now};
ghost use Rattle.thread_events.specs.Standing.{Kept, Stands};
ghost use Rattle.thread_events.specs.Heard.{IsGoing, IsGiven, IfBegin, IsAtKeeper, IsGranted, ObjectsAfter, kept_after, leaving_after, Attaches, kept_attached, Holds, kept_left, leaving_without, kept_in_era};

/// A thread with a label makes an event: its watcher goes on, and what is kept at the place of the event. `keeper` gives the
/// place of an address, and `leaving` who is still to leave a slot that it spent. A thread without a label may put bytes on the
/// output, and nothing changes.
pub fn event_law()
    ensures put { (limits : Limits) (keeper : ℕ → ℕ) (leaving : ℕ → Bool) (h : List Moment) (m : Moment) (x : Kept) (t value count : ℕ) →
        Stands limits keeper leaving h x → m.item ≡ Does t (Put value count) → Stands limits keeper leaving (h ++ m ∷ []) x }
    ensures event { (limits : Limits) (keeper : ℕ → ℕ) (leaving : ℕ → Bool) (h : List Moment) (m : Moment) (x : Kept) (k t : ℕ) (given : Option (List ℕ)) (e : Event) (set : SyncObjects) →
        Stands limits keeper leaving h x → IsGoing limits h (x.watchers t) → m.item ≡ Does t e → IfBegin e (IsGiven limits h t given) → IsAtKeeper keeper k e → IsGranted x.desk t e →
        ObjectsAfter (x.watchers t).era (x.watchers t).clock e (x.objects k) set →
        Stands limits keeper (leaving_after leaving t e (x.watchers t)) (h ++ m ∷ []) (kept_after x k t given e set) }
{}

/// So it is after the beginning of an entry, without a note or with that of a slot. A thread without a label takes the slot at
/// the queue's front, or leaves the one that it spent.
pub fn note_law()
    ensures nothing { (limits : Limits) (keeper : ℕ → ℕ) (leaving : ℕ → Bool) (h : List Moment) (m : Moment) (x : Kept) (t : ℕ) →
        Stands limits keeper leaving h x → m.item ≡ Notes t Nothing → Stands limits keeper leaving (h ++ m ∷ []) x }
    ensures attach { (limits : Limits) (keeper : ℕ → ℕ) (leaving : ℕ → Bool) (h : List Moment) (m : Moment) (x : Kept) (t : ℕ) (label : Label) →
        Stands limits keeper leaving h x → m.item ≡ Notes t (Attach label) → (x.watchers t).era ≡ era_now limits.epochs h → Attaches limits x.desk (x.watchers t) t label →
        Stands limits keeper leaving (h ++ m ∷ []) (kept_attached x t label) }
    ensures leave { (limits : Limits) (keeper : ℕ → ℕ) (leaving : ℕ → Bool) (h : List Moment) (m : Moment) (x : Kept) (t : ℕ) (label : Label) →
        Stands limits keeper leaving h x → m.item ≡ Notes t (Leave label) → (x.watchers t).era ≡ era_now limits.epochs h → (x.watchers t).label ≡ None → Holds x.desk t label →
        Stands limits keeper (leaving_without leaving t) (h ++ m ∷ []) (kept_left x t) }
{}

/// Where an era begins, the desk forgets clocks and slots, the objects are of an earlier era, and nobody is to leave a slot.
pub fn era_law()
    ensures { (limits : Limits) (keeper : ℕ → ℕ) (leaving : ℕ → Bool) (h : List Moment) (m : Moment) (x : Kept) →
        Stands limits keeper leaving h x → m.item ≡ NewEra → Stands limits keeper (λ t. false) (h ++ m ∷ []) (kept_in_era x) }
{}

//! How a worker's part of a round grows.
//!
//! A worker keeps of its part what stands so far (`SoFar`): the deeds of its thread at objects, the log of its seat, the entries, each
//! with the accesses of it that raced and await the round's end, the instructions that were gathered since the last deed, and what is
//! owed. The laws say what each step of its loop makes of that. An instruction without an object is gathered. One at an object makes a
//! deed of all that were gathered and of itself. A slot is taken or left in a turn of the desk. At the end nothing is owed, and what
//! was gathered last gets an entry of its own: then all of it is a part as a round has it, with its races (`TellsPart`).
//!
//! `part_races` stands below this crate, with what is below it. Its functions do nothing: the contract of each is a law. The layer
//! above carries `SoFar` along a worker's loop, cites a law for each turn of it, and gets `TellsPart` from `finish_law`.
#![tactic(auto)]

ghost use Rattle.std.specs.Prelude.{◌≡◌, ◌≢◌, ◌≤◌, ℕ, true, false, List, [], ◌∷◌, ◌++◌, length, is_some, Option, None, Some};
ghost use Rattle.run_record.specs.declared.limits.Limits.{Limits};
ghost use Rattle.run_record.specs.declared.event.Event.{Event};
ghost use Rattle.run_record.specs.declared.entry.Check.{Check};
ghost use Rattle.run_record.specs.declared.entry.Entry.{Entry};
ghost use Rattle.run_record.specs.declared.entry.Label.{Label};
ghost use Rattle.run_record.specs.declared.entry.DeskNote.TheVariants.{Attach, Leave};
ghost use Rattle.bare_machine.specs.declared.thread.Thread.{Thread};
ghost use Rattle.bare_machine.specs.Locals.{MakesLocals};
ghost use Rattle.bare_machine.specs.Step.{desk};
ghost use Rattle.bare_machine.specs.Preview.{thread_needs};
ghost use Rattle.run_laws.specs.Labels.{raises, is_end};
ghost use Rattle.report_laws.specs.Awaited.{Awaited};
ghost use Rattle.slot_desk.specs.Desks.{DeskContents};
ghost use Rattle.sync_slab.specs.Objects.{SyncObjects};
ghost use Rattle.race_core.specs.Watched.{Watched};
ghost use Rattle.thread_events.specs.Heard.{watcher_after};
ghost use Rattle.turn_orders.specs.LineUp.{Stamped, with_stamp};
ghost use Rattle.machine_laws.specs.Events.{is_local, is_put};
ghost use Rattle.place_turns.specs.Places.{Local, Value};
ghost use Rattle.place_turns.specs.Turns.{Turned, steps, bare_turn};
ghost use Rattle.turn_orders.specs.Lists.{Each};
ghost use Rattle.watched_turns.specs.Checking.{Loads};
ghost use Rattle.turn_histories.specs.Entries.{IsAlive, IsPlaceOf, next_object};
ghost use Rattle.shared_table.specs.declared.object.Object.{Object};
ghost use Rattle.shared_table.specs.Past.{Log};
ghost use Rattle.placed_detector.specs.Standing.{Hand, Held};
ghost use Rattle.placed_detector.specs.Slots.{TakesSlot, LeavesSlot};
ghost use Rattle.deed_histories.specs.Deeds.{Made, AreNumbered, TellsNote};
ghost use Rattle.hart_parts.specs.Parts.{Try, all_touches, try_items};
ghost use Rattle.part_races.specs.Awaits.{AwaitsInstruction};
ghost use Rattle.part_races.specs.Rounds.{Tagged};
ghost use Rattle.part_races.specs.Telling.{TellsPart};
ghost use Rattle.part_growth.specs.Growth.{checks_in, Gathered, nothing_gathered, MakesLocal, gathered_with, Owing, nothing, leave_of};
ghost use Rattle.part_growth.specs.Growth.{IsPaidBy, IsOwedBy, IsEntryWith, SoFar, place_in, IsTurn, HasAttached, made_so_far, Stops, IsLastOf};
ghost use Rattle.part_growth.specs.Growth.{spent_by, owing_of, ArePlain, with_bare, gathered_more, with_last, stamp_with};

/// A part begins with what its thread had, and owes nothing.
pub fn begins_law()
    ensures { (file : List ℕ) (limits : Limits) (era t : ℕ) (before : Stamped Hand) →
        SoFar file limits era t before [] [] before.state before.state before.last nothing_gathered nothing }
{}

/// An instruction that uses no object is gathered, with its accesses that await. Its checks are numbered after the events that were
/// gathered before.
pub fn local_law()
    ensures { (file : List ℕ) (limits : Limits) (era t : ℕ) (before : Stamped Hand) (log new : Log) (told : List Tagged)
        (found now left : Hand) (last : ℕ) (g : Gathered) (owed next : Owing) (x : Made) (later : List Awaited) →
        SoFar file limits era t before log told found now last g owed → MakesLocal file limits.harts era t x now left →
        ((k : ℕ) (held : Held) → AwaitsInstruction file limits.harts era t k x now left held held later) →
        AreNumbered (length g.events) x.checks → new ≡ log ++ all_touches (checks_in x.checks) →
        (thread_needs file t now.bare.thread ≡ true → now.watched.label ≢ None) → ((l : Label) → owed ≡ leave_of l → ⊥) →
        IsPaidBy file t now owed next →
        SoFar file limits era t before new told found left last (gathered_with g x.events x.checks later) next }
{}

/// Instructions that touch registers alone are gathered, so many at once: no log, entry or watcher changes, and nothing awaits. Such are
/// those that a thread which lives makes in a row of its file's code.
pub fn plain_law()
    ensures gathered { (file : List ℕ) (limits : Limits) (era t : ℕ) (before : Stamped Hand) (log : Log) (told : List Tagged)
        (found now : Hand) (last : ℕ) (g : Gathered) (owed : Owing) (n : ℕ) (bare : Local) →
        SoFar file limits era t before log told found now last g owed → now.watched.era ≡ era → ((l : Label) → owed ≡ leave_of l → ⊥) →
        ArePlain file limits.harts t n now.bare bare →
        SoFar file limits era t before log told found (with_bare now bare) last (gathered_more g n) owed }
    ensures made { (file : List ℕ) (harts t n : ℕ) (old new : Thread) (reserved : Option ℕ) → old.lives ≡ true → MakesLocals file old n new →
        ArePlain file harts t n (record { thread = Some old; reserved = reserved }) (record { thread = Some new; reserved = reserved }) }
{}

/// An instruction at an object is the last one of a deed, whose other instructions are those that were gathered. Its checks are within
/// its turn of the object. Of the deed's accesses those await that did of the gathered instructions, and then those of this one.
/// Nothing is gathered after it.
pub fn object_law()
    ensures { (file : List ℕ) (limits : Limits) (era t : ℕ) (before : Stamped Hand) (log new : Log) (told : List Tagged)
        (found now left : Hand) (last : ℕ) (g : Gathered) (owed next : Owing) (k : ℕ) (loads : Loads) (es : List Event)
        (css : List (List Check)) (later : List Awaited) (x y : Object) (e : Entry) (stamp number : ℕ) →
        SoFar file limits era t before log told found now last g owed →
        AwaitsInstruction file limits.harts era t k (record { loads = loads; events = es; checks = css }) now left
        (place_in file limits k x) (place_in file limits k y) later →
        IsAlive now.bare → IsPlaceOf k t (next_object file t now.bare.thread) → k ≤ desk → AreNumbered (length g.events) css →
        IsTurn k log new number (all_touches (checks_in css)) x y last stamp → IsEntryWith t g es css stamp e →
        (thread_needs file t now.bare.thread ≡ true → now.watched.label ≢ None) → ((l : Label) → owed ≡ leave_of l → ⊥) →
        IsPaidBy file t now owed nothing → IsOwedBy limits now.watched es next →
        SoFar file limits era t before new (told ++ record { entry = e; awaited = g.awaits ++ later } ∷ []) left left stamp nothing_gathered next }
{}

/// A slot is taken in a turn of the desk, and an instruction that needs it is owed. The deed stands before the instructions that were
/// gathered: these read no label, and lead on from what the thread has with the slot. A slot that was spent is left in a turn of the
/// desk too, and then nothing is owed. Nothing awaits of either.
pub fn slot_law()
    ensures taken { (file : List ℕ) (limits : Limits) (era t : ℕ) (before : Stamped Hand) (log new : Log) (told : List Tagged)
        (found now left : Hand) (last : ℕ) (g : Gathered) (label : Label) (x y : Object) (e : Entry) (stamp number : ℕ) →
        SoFar file limits era t before log told found now last g nothing →
        TakesSlot limits era t label now left (place_in file limits desk x) (place_in file limits desk y) →
        IsTurn desk log new number [] x y last stamp → TellsNote t (Attach label) e → e.stamp ≡ stamp →
        HasAttached file limits era t before new (told ++ record { entry = e; awaited = [] } ∷ []) left stamp g }
    ensures left { (file : List ℕ) (limits : Limits) (era t : ℕ) (before : Stamped Hand) (log new : Log) (told : List Tagged)
        (now : Hand) (last : ℕ) (l : Label) (x y : Object) (e : Entry) (stamp number : ℕ) →
        SoFar file limits era t before log told now now last nothing_gathered (leave_of l) →
        LeavesSlot era t l now (place_in file limits desk x) (place_in file limits desk y) →
        IsTurn desk log new number [] x y last stamp → TellsNote t (Leave l) e → e.stamp ≡ stamp →
        SoFar file limits era t before new (told ++ record { entry = e; awaited = [] } ∷ []) now now stamp nothing_gathered nothing }
{}

/// What an instruction tells: without an object, events that are local to its thread; without need of a slot, nothing but bytes that
/// it puts; and without both, nothing.
pub fn told_law()
    ensures local { (file : List ℕ) (harts t : ℕ) (found left : Local) (v : Value) (es : List Event) → next_object file t found.thread ≡ None →
        bare_turn file harts t steps found v ≡ record { local = left; value = v; told = es } → Each (λ (e : Event). is_local e ≡ true) es }
    ensures puts { (file : List ℕ) (harts t : ℕ) (found : Local) (v : Value) (left : Turned) → thread_needs file t found.thread ≡ false →
        bare_turn file harts t steps found v ≡ left → Each (λ (e : Event). is_put e ≡ true) left.told }
    ensures silent { (file : List ℕ) (harts t : ℕ) (found left : Local) (v : Value) (es : List Event) → next_object file t found.thread ≡ None →
        thread_needs file t found.thread ≡ false → bare_turn file harts t steps found v ≡ record { local = left; value = v; told = es } → es ≡ [] }
{}

/// Which label an instruction spends: only its last event can raise an epoch or end the thread, so that the thread has until then the
/// label with which it began. What is owed after it is the leave of the label that its last event spends, if any. So it is of a whole
/// instruction whose events spent that label by the watcher that was before them.
pub fn spent_law()
    ensures quiet { (file : List ℕ) (harts t : ℕ) (found : Local) (v : Value) (left : Turned) (before after : List Event)
        (event next : Event) → bare_turn file harts t steps found v ≡ left → left.told ≡ before ++ event ∷ (next ∷ after) →
        (raises event ≡ 0) × (is_end event ≡ false) }
    ensures stays { (told : Option (List ℕ)) (set : SyncObjects) (d : DeskContents) (e : Event) (w : Watched) → raises e ≡ 0 →
        is_end e ≡ false → (watcher_after told set d e w).label ≡ w.label }
    ensures unspent { (limits : Limits) (w : Watched) → IsOwedBy limits w [] nothing }
    ensures owed { (limits : Limits) (w last : Watched) (before : List Event) (event : Event) → last.label ≡ w.label →
        last.greatest ≡ limits.epochs → ((l : Label) → last.label ≡ Some l → l.epoch ≤ limits.epochs) →
        IsOwedBy limits w (before ++ event ∷ []) (owing_of (spent_by event last)) }
    ensures whole { (file : List ℕ) (limits : Limits) (harts t : ℕ) (found : Local) (v : Value) (left : Turned) (w : Watched) (spent : Option Label) →
        bare_turn file harts t steps found v ≡ left → (left.told ≡ [] → spent ≡ None) →
        ((before : List Event) (event : Event) → left.told ≡ before ++ event ∷ [] →
        Each (λ (e : Event). (raises e ≡ 0) × (is_end e ≡ false)) before → spent ≡ spent_by event w) →
        w.greatest ≡ limits.epochs → ((l : Label) → w.label ≡ Some l → l.epoch ≤ limits.epochs) →
        IsOwedBy limits w left.told (owing_of spent) }
{}

/// Where nothing is owed any more a part ends: with an entry of what was gathered last, if it is anything, and with the turn of the desk
/// that found no slot, if it made one. It was starved where it made that. Of the last entry those accesses await that were gathered.
pub fn finish_law()
    ensures { (file : List ℕ) (limits : Limits) (era t : ℕ) (before : Stamped Hand) (log new : Log) (told : List Tagged)
        (found now : Hand) (last : ℕ) (g : Gathered) (given : ℕ) (tried : Option Try) (entry : Option Entry) →
        SoFar file limits era t before log told found now last g nothing → IsLastOf t g last entry → new ≡ log ++ try_items tried →
        now.given ≡ None → Stops file limits t given (made_so_far told g) now tried →
        TellsPart file limits era t given before new (with_last told g.awaits entry) (is_some tried) (with_stamp now (stamp_with last entry)) }
{}

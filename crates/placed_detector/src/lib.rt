//! The detector by threads and places, beside the watched machine.
//!
//! A worker keeps its thread's part of the bare machine and its watcher, with the thread's label and clock; a place keeps memory
//! or the desk, and the synchronisation objects of its addresses. `Standing` says that all of these are what a history says,
//! that of the turns in the order in which they were made, and that the machine of `watched_turns` has the same threads, memory
//! and desk beside them. The laws say that it is so again after each turn of a worker that does what its clause says
//! (`MakesInstruction`, `TakesSlot`, `LeavesSlot`), whatever words the checks loaded, and where an era begins. No clock of the
//! watched machine is ever compared with one of a worker: each by itself is what the history says.
//!
//! `thread_events` and `watched_turns` stand below this crate, with what is below them. Its functions do nothing: the contract
//! of each is a law. The layer above walks the line of a round's turns with them (`woven_turns`), and so gets the turns of the
//! watched machine that entries tell (`turn_histories`).
#![tactic(auto)]

ghost use Rattle.std.specs.Prelude.{◌≡◌, ◌+◌, ℕ, List, [], ◌∷◌, ◌++◌, length, None, Ok};
ghost use Rattle.run_record.specs.declared.event.Event.{Event};
ghost use Rattle.run_record.specs.declared.entry.Check.{Check};
ghost use Rattle.run_record.specs.declared.entry.Label.{Label};
ghost use Rattle.run_record.specs.declared.entry.DeskNote.TheVariants.{Nothing, Attach, Leave};
ghost use Rattle.run_record.specs.declared.limits.Limits.{Limits};
ghost use Rattle.elf_image.specs.File.{image_of};
ghost use Rattle.run_laws.specs.Moments.{Notes, NewEra, Moment};
ghost use Rattle.bare_machine.specs.World.{World, start};
ghost use Rattle.bare_machine.specs.Step.{desk};
ghost use Rattle.turn_orders.specs.Machine.{State, next, single};
ghost use Rattle.joint_turns.specs.Joint as joint;
ghost use Rattle.joint_turns.specs.Joint.{Value};
ghost use Rattle.joint_turns.specs.Along as along;
ghost use Rattle.watched_turns.specs.Checking.{Loads};
ghost use Rattle.watched_turns.specs.Turns.{Local, steps, begins, attaches, leaves, watched_turn, era_after, first_state};
ghost use Rattle.watched_turns.specs.Along.{IsWatched};
ghost use Rattle.race_core.specs.History.{era_now};
ghost use Rattle.race_core.specs.Watched.{AreWatcherLimits};
ghost use Rattle.placed_detector.specs.Standing.{Hand, Held, Standing, left_with};
ghost use Rattle.placed_detector.specs.Instructions.{AreHeard, MakesInstruction};
ghost use Rattle.placed_detector.specs.First.{AreFirst};
ghost use Rattle.placed_detector.specs.Slots.{TakesSlot, LeavesSlot, in_new_era};

/// All stands before any history, where no thread has arrived, memory is as the file has it, and the main thread is at the desk.
pub fn first_law()
    ensures { (file : List ℕ) (limits : Limits) (c : State Hand Held) → AreWatcherLimits limits → AreFirst file limits c →
        Standing file limits c (first_state file limits.slots) (start file limits.harts) [] }
{}

/// A thread makes an instruction at a place, with all its events, whose moments the history then has. The watched machine makes
/// it too, by the words that the checks loaded, and all stands.
pub fn instruction_law()
    ensures { (file : List ℕ) (limits : Limits) (c : State Hand Held) (m : State Local Value) (w : World) (h ms : List Moment) (t k : ℕ) (loads : Loads)
        (hand : Hand) (held : Held) (es : List Event) (checks : List (List Check)) →
        image_of file ≡ Ok file → Standing file limits c m w h →
        MakesInstruction file limits.harts (era_now limits.epochs h) t k loads es checks (c.local t) hand (c.value k) held → AreHeard t ms es checks →
        Standing file limits (left_with c t k hand held) (next (watched_turn file limits.harts limits.epochs) m (single t k (steps loads)))
        (along.world_after file w t joint.steps) (h ++ ms) }
{}

/// So it is after the beginning of an entry: without a note, or with that of a slot which the thread takes or leaves at the
/// desk.
pub fn note_law()
    ensures nothing { (file : List ℕ) (limits : Limits) (c : State Hand Held) (m : State Local Value) (w : World) (h : List Moment) (mom : Moment)
        (t k : ℕ) →
        image_of file ≡ Ok file → Standing file limits c m w h → mom.item ≡ Notes t Nothing → mom.checks ≡ [] →
        Standing file limits c (next (watched_turn file limits.harts limits.epochs) m (single t k begins)) w (h ++ mom ∷ []) }
    ensures attach { (file : List ℕ) (limits : Limits) (c : State Hand Held) (m : State Local Value) (w : World) (h : List Moment) (mom : Moment) (t : ℕ)
        (label : Label) (hand : Hand) (held : Held) →
        image_of file ≡ Ok file → Standing file limits c m w h → mom.item ≡ Notes t (Attach label) → mom.checks ≡ [] →
        TakesSlot limits (era_now limits.epochs h) t label (c.local t) hand (c.value desk) held →
        Standing file limits (left_with c t desk hand held) (next (watched_turn file limits.harts limits.epochs) m (single t desk attaches)) w
        (h ++ mom ∷ []) }
    ensures leave { (file : List ℕ) (limits : Limits) (c : State Hand Held) (m : State Local Value) (w : World) (h : List Moment) (mom : Moment) (t : ℕ)
        (label : Label) (held : Held) →
        image_of file ≡ Ok file → Standing file limits c m w h → mom.item ≡ Notes t (Leave label) → mom.checks ≡ [] →
        LeavesSlot (era_now limits.epochs h) t label (c.local t) (c.value desk) held →
        Standing file limits (left_with c t desk (c.local t) held) (next (watched_turn file limits.harts limits.epochs) m
        (single t desk (leaves label))) w (h ++ mom ∷ []) }
{}

/// And where an era begins, if each thread that was given something has begun.
pub fn era_law()
    ensures { (file : List ℕ) (limits : Limits) (c : State Hand Held) (m : State Local Value) (w : World) (h : List Moment) (mom : Moment) →
        Standing file limits c m w h → mom.item ≡ NewEra → ((t : ℕ) → (c.local t).given ≡ None) →
        Standing file limits (in_new_era (era_now limits.epochs h + 1) c) (era_after limits.slots m) w (h ++ mom ∷ []) }
{}

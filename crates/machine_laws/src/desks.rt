// How a desk goes on telling of the same threads as the machine.
ghost use Rattle.std.specs.Prelude.{◌≡◌, ◌≢◌, ◌≤◌, ℕ, true, None, List, fold};
ghost use Rattle.run_record.specs.declared.event.Event.{Event};
ghost use Rattle.run_record.specs.declared.event.Event.TheVariants.{Create, End};
ghost use Rattle.run_record.specs.declared.limits.Limits.{Limits};
ghost use Rattle.slot_desk.specs.declared.answers.Created.TheVariants.{Thread};
ghost use Rattle.slot_desk.specs.declared.answers.Joined.TheVariants.{Done};
ghost use Rattle.slot_desk.specs.Desks.{DeskContents, live_of, held_of};
ghost use Rattle.slot_desk.specs.Steps as desks;
ghost use Rattle.slot_desk.specs.Steps.{new_desk, created, after_attach, after_detach, after_create, after_end, after_reset, join_answer};
ghost use Rattle.bare_machine.specs.World.{World, start, lives};
ghost use Rattle.bare_machine.specs.Step.{step};
ghost use Rattle.machine_laws.specs.Threads.{Threads, living, threads_in, threads_after, is_full, AreThreads};
ghost use Rattle.machine_laws.specs.Events.{IsCreation, IsJoining, IsAllowed};
ghost use Rattle.machine_laws.specs.Agrees.{Agrees};

/// The new desk tells of the first world's threads.
pub fn new_agrees()
    ensures { (file : List ℕ) (limits : Limits) → 1 ≤ limits.harts → Agrees limits.harts (threads_in (start file limits.harts)) (new_desk limits) }
{}

/// As many threads live by the desk as by the machine, and it is full where the machine is.
pub fn full_law()
    ensures living { (harts : ℕ) (threads : Threads) (d : DeskContents) → Agrees harts threads d → live_of d ≡ living threads }
    ensures full { (harts : ℕ) (threads : Threads) (d : DeskContents) → Agrees harts threads d → desks.is_full d ≡ is_full harts threads }
{}

/// The desk creates the thread that the event names.
pub fn create_agrees()
    ensures answer { (harts : ℕ) (threads : Threads) (d : DeskContents) (n : ℕ) → Agrees harts threads d → IsCreation harts threads n → (n ≡ d.made) × (created d ≡ Thread n) }
    ensures after { (harts : ℕ) (threads : Threads) (d : DeskContents) (t n : ℕ) (rest : List Event) (clock : List ℕ) → Agrees harts threads d → IsAllowed harts threads t (Create n) rest → Agrees harts (threads_after t threads (Create n)) (after_create d clock) }
{}

/// The desk ends the thread, where it holds a slot.
pub fn end_agrees()
    ensures { (harts : ℕ) (threads : Threads) (d : DeskContents) (t : ℕ) (rest : List Event) (clock : List ℕ) → Agrees harts threads d → IsAllowed harts threads t End rest → held_of d t ≢ None → Agrees harts (threads_after t threads End) (after_end d t clock) }
{}

/// The desk lets the thread join.
pub fn join_law()
    ensures { (harts : ℕ) (threads : Threads) (d : DeskContents) (n : ℕ) → Agrees harts threads d → IsJoining threads n → join_answer d n ≡ Done }
{}

/// After every other event the desk as it was tells of the threads.
pub fn stay_agrees()
    ensures { (harts : ℕ) (threads : Threads) (d : DeskContents) (t : ℕ) (e : Event) (rest : List Event) → Agrees harts threads d → IsAllowed harts threads t e rest →
        e ≢ End → ((n : ℕ) → e ≢ Create n) → Agrees harts (threads_after t threads e) d }
{}

/// A thread takes a slot.
pub fn attach_agrees()
    ensures { (harts : ℕ) (threads : Threads) (d : DeskContents) (t : ℕ) → Agrees harts threads d → Agrees harts threads (after_attach d t) }
{}

/// A thread leaves a slot.
pub fn detach_agrees()
    ensures { (harts : ℕ) (threads : Threads) (d : DeskContents) (t : ℕ) → Agrees harts threads d → Agrees harts threads (after_detach d t) }
{}

/// An era begins.
pub fn reset_agrees()
    ensures { (harts : ℕ) (threads : Threads) (d : DeskContents) → Agrees harts threads d → Agrees harts threads (after_reset d) }
{}

/// A desk that tells of the threads after all events of a step tells of those of the world after it.
pub fn step_agrees()
    ensures { (file : List ℕ) (w : World) (t : ℕ) (d : DeskContents) → lives w t ≡ true → AreThreads w.harts (threads_in w) →
        Agrees w.harts (fold (threads_after t) (threads_in w) (step file w t).events) d → Agrees (step file w t).world.harts (threads_in (step file w t).world) d }
{}

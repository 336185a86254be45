// What each step of the bare machine does, and what its events tell of the threads.
ghost use Rattle.std.specs.Prelude.{◌≡◌, ◌≢◌, ◌≤◌, ◌==◌, ℕ, Bool, true, false, not, List, fold, length};
ghost use Rattle.std.specs.List.{list_any, list_all};
ghost use Rattle.run_record.specs.declared.event.Event.{Event};
ghost use Rattle.run_laws.specs.Labels.{raises, is_end};
ghost use Rattle.run_laws.specs.Stacks.{frames_after};
ghost use Rattle.bare_machine.specs.World.{World, start, lives};
ghost use Rattle.bare_machine.specs.Step.{step};
ghost use Rattle.bare_machine.specs.Preview.{needs_slot};
ghost use Rattle.machine_laws.specs.Threads.{Threads, threads_in, threads_after, AreThreads};
ghost use Rattle.machine_laws.specs.Events.{IsAllowed, AreAllowed, is_put, is_local};
ghost use Rattle.machine_laws.specs.Steps.{IsStep};

/// In the first world thread 0 was made and lives, and no other.
pub fn start_law()
    ensures made { (file : List ℕ) (harts : ℕ) → (threads_in (start file harts)).made ≡ 1 }
    ensures alive { (file : List ℕ) (harts u : ℕ) → lives (start file harts) u ≡ (u == 0) }
    ensures threads { (file : List ℕ) (harts : ℕ) → 1 ≤ harts → AreThreads harts (threads_in (start file harts)) }
{}

/// What is known of each step of a living thread.
pub fn step_law()
    ensures { (file : List ℕ) (w : World) (t : ℕ) → lives w t ≡ true → AreThreads w.harts (threads_in w) → IsStep w.harts (threads_in w) w.ended t (step file w t) }
{}

/// An instruction that needs no slot has no event but an output.
pub fn needs_law()
    ensures { (file : List ℕ) (w : World) (t : ℕ) → needs_slot file w t ≡ false → list_all is_put (step file w t).events ≡ true }
{}

/// A local event neither raises the thread's epoch nor ends it.
pub fn local_law()
    ensures raises { (e : Event) → is_local e ≡ true → raises e ≡ 0 }
    ensures ends { (e : Event) → is_local e ≡ true → is_end e ≡ false }
{}

/// What holds of threads at all times holds after each event that is allowed, and after all of them.
pub fn allowed_law()
    ensures one { (harts : ℕ) (threads : Threads) (t : ℕ) (e : Event) (rest : List Event) → AreThreads harts threads → IsAllowed harts threads t e rest → AreThreads harts (threads_after t threads e) }
    ensures all { (harts : ℕ) (threads : Threads) (t : ℕ) (events : List Event) → AreThreads harts threads → AreAllowed harts threads t events → AreThreads harts (fold (threads_after t) threads events) }
{}

/// It holds after each step.
pub fn kept_law()
    ensures { (file : List ℕ) (w : World) (t : ℕ) → lives w t ≡ true → AreThreads w.harts (threads_in w) → AreThreads (step file w t).world.harts (threads_in (step file w t).world) }
{}

/// A thread lives after its step unless this has an End. No step ends another thread.
pub fn alive_law()
    ensures own { (file : List ℕ) (w : World) (t : ℕ) → lives w t ≡ true → AreThreads w.harts (threads_in w) → lives (step file w t).world t ≡ not (list_any is_end (step file w t).events) }
    ensures other { (file : List ℕ) (w : World) (t u : ℕ) → lives w t ≡ true → AreThreads w.harts (threads_in w) → lives w u ≡ true → u ≢ t → lives (step file w t).world u ≡ true }
{}

/// A thread's depth is the number of its frames. Events of one thread leave that of each other one.
pub fn depth_law()
    ensures own { (t : ℕ) (threads : Threads) (e : Event) (frames : List ℕ) → length frames ≡ threads.depth t → length (frames_after frames e) ≡ (threads_after t threads e).depth t }
    ensures other { (t u : ℕ) (threads : Threads) (e : Event) → u ≢ t → (threads_after t threads e).depth u ≡ threads.depth u }
{}

//! The bare machine by threads and places: a turn of a thread touches its own state and the value of one place.
//!
//! A place is one of the 64 stripes of memory or the desk. What an instruction asks for is told by its thread alone
//! (`request`), and with it the object that it uses, if any, at whose place `bare_turn` serves it. A new thread's registers
//! stay at the desk until it arrives. The laws say that the fold of these turns is the bare machine: over any list
//! of calls each thread, each word, the reservations, the output, the first end and all events are those of
//! `bare_machine`'s step. So any list with the same turns in the same order for each thread and for each place has the same
//! run, by the laws of `turn_orders`.
//!
//! `elf_image`, `bare_machine` with what is below it, and `turn_orders` stand below this crate. Its functions do nothing: the
//! contract of each is a law. The layer above starts with `start_law`, and cites `machine_law` of the calls that its workers
//! made, or `state_law` and `told_law` of those that the bare machine allows.
#![tactic(auto)]

ghost use Rattle.std.specs.Prelude.{◌≡◌, ℕ, List, Ok, Some};
ghost use Rattle.elf_image.specs.File.{image_of};
ghost use Rattle.bare_machine.specs.declared.thread.Thread.{Thread};
ghost use Rattle.bare_machine.specs.Requests.{request, object_of};
ghost use Rattle.bare_machine.specs.Step.{step};
ghost use Rattle.turn_orders.specs.Machine.{Call, State, after, tells};
ghost use Rattle.turn_orders.specs.Splits.{AllMay, folded};
ghost use Rattle.place_turns.specs.Places.{Local, Value};
ghost use Rattle.place_turns.specs.Turns.{Act, bare_turn};
ghost use Rattle.place_turns.specs.Wholes.{Whole, May, ArePlaced, IsStateOf, whole_next, events_along, first_whole, first_state};

/// The first state is that of the bare machine's first world.
pub fn start_law()
    ensures { (file : List ℕ) (harts : ℕ) → IsStateOf file harts (first_whole file harts) (first_state file) }
{}

/// A state of the bare machine's world stays one over any calls that may be made of it.
pub fn state_law()
    ensures { (file : List ℕ) (harts : ℕ) (g : Whole) (m : State Local Value) (cs : List (Call Act)) → image_of file ≡ Ok file →
        IsStateOf file harts g m → AllMay (whole_next file) (May file) g cs →
        IsStateOf file harts (folded (whole_next file) g cs) (after (bare_turn file harts) m cs) }
{}

/// The turns tell the events of the bare machine's steps.
pub fn told_law()
    ensures { (file : List ℕ) (harts : ℕ) (g : Whole) (m : State Local Value) (cs : List (Call Act)) → image_of file ≡ Ok file →
        IsStateOf file harts g m → AllMay (whole_next file) (May file) g cs →
        tells (bare_turn file harts) m cs ≡ events_along file g cs }
{}

/// A thread's own state tells which object its next instruction uses.
pub fn object_law()
    ensures { (file : List ℕ) (harts : ℕ) (g : Whole) (m : State Local Value) (t : ℕ) (x : Thread) → image_of file ≡ Ok file →
        IsStateOf file harts g m → (m.local t).thread ≡ Some x → (step file g.world t).object ≡ object_of (request file t x) }
{}

/// Calls at the places that the threads' own states tell may be made of the bare machine. So from the first state on the
/// machine by threads and places is the bare machine, over any such calls.
pub fn machine_law()
    ensures may { (file : List ℕ) (harts : ℕ) (g : Whole) (m : State Local Value) (cs : List (Call Act)) → image_of file ≡ Ok file →
        IsStateOf file harts g m → ArePlaced file harts m cs → AllMay (whole_next file) (May file) g cs }
    ensures state { (file : List ℕ) (harts : ℕ) (cs : List (Call Act)) → image_of file ≡ Ok file → ArePlaced file harts (first_state file) cs →
        IsStateOf file harts (folded (whole_next file) (first_whole file harts) cs) (after (bare_turn file harts) (first_state file) cs) }
    ensures told { (file : List ℕ) (harts : ℕ) (cs : List (Call Act)) → image_of file ≡ Ok file → ArePlaced file harts (first_state file) cs →
        tells (bare_turn file harts) (first_state file) cs ≡ events_along file (first_whole file harts) cs }
{}

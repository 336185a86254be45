// A thread's own state.
ghost use Rattle.std.specs.Prelude.{◌≡◌, ℕ, ◌<◌, ◌≤◌, [], Bool, List, Some, length, slice_get};
ghost use Rattle.bare_machine.specs.World.{World};
ghost use Rattle.bare_machine.specs.Preview as previews;
ghost use Rattle.bare_machine.specs.Asked.{IsSound, IsShallow, IsWithin};
ghost use Rattle.place_turns.specs.Places.{Value};
ghost use Rattle.place_turns.specs.Turns.{bare_turn, arrives};
ghost use Rattle.hart_steps.specs.Asked.{Asks, IsAlone};
ghost use Rattle.bare_machine.specs.Locals.{MakesLocals};
ghost use Rattle.hart_steps.specs.Harts.{absent, local_of, turn, leaves, AreLocalTurns};
ghost use Rattle.hart_steps.specs.Desks.{desk_value};

use bare_machine::{Request, Thread, begin_thread, return_thread};
use entry_calls::CallEvents;
use guest_code::Code;
use machine_desk::MachineDesk;

/// What a thread that has arrived keeps itself: its registers and how far it is, and the granule that it reserved last,
/// where no conditional store has followed.
#[derive(Drop)]
pub struct Hart {
    pub thread: Thread,
    pub reserved: Option<u32>,
}

impl Hart {
    /// Thread `tid` arrives: it takes itself from the desk as it was made.
    pub fn arrive(desk: &MachineDesk, tid: u32) -> Hart
        requires { tid < length desk.now.made }
        ensures { (file : List ℕ) (harts : ℕ) (lives : List Bool) → bare_turn file harts tid arrives absent (desk_value desk.now lives) ≡ leaves result (desk_value desk.now lives) [] }
    {
        Hart {
            thread: desk.made.as_slice()[tid as usize],
            reserved: None,
        }
    }

    /// Makes the thread's instructions while they touch its registers alone, at most so many, from its second instruction on. It
    /// tells how many it made: each is a turn that leaves the value of the place and tells nothing.
    pub fn run_locals(&mut self, code: &Code<'_>, most: u32) -> u32
        ensures made { (harts tid : ℕ) (v : Value) → AreLocalTurns code.now harts tid v self.old result self.new }
        ensures thread { MakesLocals code.now self.old.thread result self.new.thread }
        ensures reserved { self.new.reserved ≡ self.old.reserved }
        ensures few { result ≤ most }
    {
        self.thread.run_locals(code, most)
    }

    /// What the thread's next instruction comes to. If it is done then, the thread has its registers, and else it is as it
    /// was. It takes no memory, and reads none that is written.
    pub fn ask(&mut self, code: &Code<'_>, tid: u32) -> Request
        ensures asks { Asks code.now tid self.old self.new result }
        ensures sound { IsSound result }
        ensures shallow { IsShallow result self.new.thread.depth }
        ensures within { IsWithin code.now result }
    {
        Request::of(code, tid, &mut self.thread)
    }

    /// Whether only a thread with a slot makes this instruction, which it has asked for.
    pub fn needs_slot(&self, request: &Request) -> bool
        ensures { (file : List ℕ) (tid : ℕ) (w : World) (before : Hart) → Asks file tid before self.now request.now → slice_get w.threads tid ≡ Some before.thread → result ≡ previews.needs_slot file w tid }
    {
        !self.thread.began || request.needs_slot()
    }

    /// Serves what this thread has asked for where its object, if it has one, stays as it is: whatever the value of the place.
    pub fn serve_alone(&mut self, request: &Request, events: &mut CallEvents)
        requires alone { IsAlone request.now }
        requires empty { events.old ≡ [] }
        requires sound { IsSound request.now }
        requires shallow { IsShallow request.now self.old.thread.depth }
        ensures { (file : List ℕ) (harts tid : ℕ) (v : Value) (before : Hart) → Asks file tid before self.old request.now → turn file harts tid before v ≡ leaves self.new v events.new }
    {
        match request {
            Request::Done => begin_thread(&mut self.thread, events),
            Request::Return(request) => return_thread(&mut self.thread, request, events),
            _ => unreachable!(),
        }
    }
}

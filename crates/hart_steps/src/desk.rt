// Requests that use the desk.
ghost use Rattle.std.specs.Prelude.{◌≡◌, ℕ, ◌<◌, ◌≤◌, ◌∷◌, ◌++◌, true, false, Bool, [], Some, List, length, slice_set, if◌then◌else◌, OnOk, OnErr};
ghost use Rattle.entry_calls.specs.declared.call.Outcome.{Outcome};
ghost use Rattle.entry_calls.specs.Effects.{IsAnswered};
ghost use Rattle.place_turns.specs.Places as places;
ghost use Rattle.place_turns.specs.Turns as turns;
ghost use Rattle.bare_machine.specs.Requests as requests;
ghost use Rattle.bare_machine.specs.Asked.{asked, IsSound};
ghost use Rattle.hart_steps.specs.Asked.{UsesDesk};
ghost use Rattle.hart_steps.specs.Harts.{local_of, turn, leaves};
ghost use Rattle.machine_desk.specs.Desks as desks;
ghost use Rattle.hart_steps.specs.Desks.{desk_with, desk_value, lives_after, IsToldOf, IsKnown};

use crate::Hart;
use bare_machine::{Request, begin_thread, finish_call, first_end, minus, new_thread};
use entry_calls::{Call, CallEvents};
use machine_desk::MachineDesk;
use run_record::{Event, GuestEnd, NoMemory};

// What a join of a thread answers, where it is told whether that lives.
fn join_answer(joined: Option<bool>) -> u64
    ensures value { result ≡ turns.join_answer joined }
    ensures ended { result ≡ 0 → joined ≡ Some false }
{
    match joined {
        None => minus(3),
        Some(true) => minus(16),
        Some(false) => 0,
    }
}

impl Hart {
    // A call at the desk is done, with this answer.
    fn answer(&mut self, call: &Call, answer: u64, events: &mut CallEvents)
        requires answered { (o : Outcome) → o.answer ≡ answer → IsAnswered call.now o }
        requires empty { events.old ≡ [] }
        ensures { (d : places.Desk) → turns.returns (local_of self.old) self.old.thread call.now answer d ≡ leaves self.new (places.of_desk d) events.new }
    {
        finish_call(&mut self.thread, call, false, answer, Some(answer), events);
    }

    // The low bytes of a word, so many, go to the output.
    fn put(
        &mut self,
        value: u64,
        count: u8,
        desk: &mut MachineDesk,
        events: &mut CallEvents,
    ) -> Result<(), NoMemory>
        requires count { count ≤ 8 }
        requires empty { events.old ≡ [] }
        ensures ok { OnOk result ((lives : List Bool) → turns.put_turn (local_of self.old) (desk_with desk.old lives) self.old.thread value count ≡ leaves self.new (desk_value desk.new lives) events.new) }
        ensures made { desk.new.made ≡ desk.old.made }
        ensures err { OnErr result ((self.new ≡ self.old) × (desk.new ≡ desk.old)) }
    {
        let bytes = value.to_le_bytes();
        desk.output.extend_from_slice(&bytes[..count as usize])?;
        self.answer(&Call::Put { value, count }, 0, events);
        Ok(())
    }

    // The new thread gets the next number, unless the desk is full.
    fn create(
        &mut self,
        pc: u64,
        argument: u64,
        stack: u64,
        full: bool,
        desk: &mut MachineDesk,
        events: &mut CallEvents,
    ) -> Result<(), NoMemory>
        requires room { full ≡ false → length desk.old.made < 1024 }
        requires empty { events.old ≡ [] }
        ensures ok { OnOk result ((lives : List Bool) → turns.create_turn (local_of self.old) (desk_with desk.old lives) self.old.thread pc argument stack full ≡ leaves self.new (desk_value desk.new (if full then lives else lives ++ true ∷ [])) events.new) }
        ensures few { length desk.old.made ≤ 1024 → length desk.new.made ≤ 1024 }
        ensures err { OnErr result ((self.new ≡ self.old) × (desk.new ≡ desk.old)) }
    {
        let call = Call::Create {
            pc,
            arg: argument,
            sp: stack,
        };
        if full {
            self.answer(&call, minus(11), events);
            return Ok(());
        }
        let number = desk.made.len() as u64;
        desk.made.push(new_thread(pc, argument, stack))?;
        self.answer(&call, number, events);
        Ok(())
    }

    // A thread is joined, or told why not.
    fn join(&mut self, of: u64, joined: Option<bool>, events: &mut CallEvents)
        requires known { joined ≡ Some false → of < 1024 }
        requires empty { events.old ≡ [] }
        ensures { (d : places.Desk) → turns.returns (local_of self.old) self.old.thread (Call.Join of) (turns.join_answer joined) d ≡ leaves self.new (places.of_desk d) events.new }
    {
        self.answer(&Call::Join { tid: of }, join_answer(joined), events);
    }

    // The thread ends, and with it the run where this is its first exit or fault.
    fn stop(&mut self, end: Option<GuestEnd>, desk: &mut MachineDesk, events: &mut CallEvents)
        requires { events.old ≡ [] }
        ensures turn { (tid : ℕ) (lives : List Bool) → turns.stop_turn tid (local_of self.old) (desk_with desk.old lives) self.old.thread end ≡ leaves self.new (desk_value desk.new (slice_set lives tid false)) events.new }
        ensures made { desk.new.made ≡ desk.old.made }
    {
        begin_thread(&mut self.thread, events);
        events.push(Event::End);
        self.thread.lives = false;
        desk.ended = first_end(desk.ended, end);
    }

    /// Serves a request that uses the desk, where `harts` threads may live at once and so many live. Of a thread that is to be
    /// joined it is told whether it lives, if it was made. After want of memory nothing has changed.
    pub fn serve_at_desk(
        &mut self,
        tid: u32,
        harts: u32,
        request: &Request,
        living: u32,
        joined: Option<bool>,
        desk: &mut MachineDesk,
        events: &mut CallEvents,
    ) -> Result<(), NoMemory>
        requires desk { UsesDesk request.now }
        requires sound { IsSound request.now }
        requires few { length desk.old.made ≤ 1024 }
        requires known { IsKnown request.now joined }
        requires empty { events.old ≡ [] }
        ensures ok { OnOk result ((file : List ℕ) (lives : List Bool) → asked self.old.thread.regs request.now ≡ requests.request file tid self.old.thread →
            IsToldOf request.now lives living joined →
            turn file harts tid self.old (desk_value desk.old lives)
            ≡ leaves self.new (desk_value desk.new (lives_after tid (desks.is_full harts living desk.old.made) request.now lives)) events.new) }
        ensures few { length desk.new.made ≤ 1024 }
        ensures err { OnErr result ((self.new ≡ self.old) × (desk.new ≡ desk.old)) }
    {
        match request {
            Request::Put { value, count } => self.put(*value, *count, desk, events),
            Request::Create {
                pc,
                argument,
                stack,
            } => {
                let full = desk.is_full(harts, living);
                self.create(*pc, *argument, *stack, full, desk, events)
            }
            Request::Join { of } => {
                self.join(*of, joined, events);
                Ok(())
            }
            Request::Stop(end) => {
                self.stop(*end, desk, events);
                Ok(())
            }
            _ => unreachable!(),
        }
    }
}

// What the machine makes of a request.
ghost use Rattle.std.specs.Prelude.{◌≡◌, ◌+◌, ◌-◌, ◌<◌, ◌≤◌, ◌++◌, ℕ, true, false, [], length, slice_get, Option, Some, is_some, option_map, unwrap_or, IfOk, OnOk, OnErr};
ghost use Rattle.guest_memory.specs.Fields.{with_field, IsField};
ghost use Rattle.entry_calls.specs.declared.call.Outcome.{Outcome};
ghost use Rattle.entry_calls.specs.Effects.{IsAnswered, events_by};
ghost use Rattle.bare_machine.specs.declared.thread.Thread.{Thread};
ghost use Rattle.bare_machine.specs.Memory as placing;
ghost use Rattle.bare_machine.specs.Requests.{object_of};
ghost use Rattle.bare_machine.specs.Step as step_of;
ghost use Rattle.bare_machine.specs.Step.{first_events};
ghost use Rattle.bare_machine.specs.Asked.{asked, Takes, IsRoom, IsReturn, IsTouch, IsOperation, IsSound, IsShallow, IsBelow, IsUndone};

use crate::machine::first_end;
use crate::memory::stripe;
use crate::request::{Operation, Return, Touch};
use crate::thread::new_thread;
use crate::touch::offset;
use crate::{Machine, Request, Thread};
use entry_calls::{Call, CallEvents, Outcome, atomic_answer, atomic_word, events_of};
use guest_memory::{field, with_field};
use run_record::{Event, GuestEnd, NoMemory};
use rv_exec::finish;

/// -n as a word.
pub fn minus(n: u64) -> u64
    requires { 0 < n }
    ensures { result ≡ step_of.minus n }
{
    u64::MAX - n + 1
}

/// The address of the call's instruction, whether it wrote, and its answer.
pub fn outcome(thread: &Thread, wrote: bool, answer: u64) -> Outcome
    ensures { result ≡ step_of.outcome thread.now wrote answer }
{
    Outcome {
        place: thread.regs.get(1).wrapping_sub(4),
        wrote,
        answer,
    }
}

/// The call is done: x10 gets its answer, if it has one, and the next instruction follows.
pub fn answer_thread(thread: &mut Thread, answer: Option<u64>)
    ensures { thread.new ≡ step_of.answered thread.old answer }
{
    if let Some(answer) = answer {
        thread.regs.set(10, answer);
    }
    let next = thread.regs.pc().wrapping_add(4);
    thread.regs.set_pc(next);
}

/// How many functions are entered and not left after a call.
pub fn depth_after(call: &Call, depth: u32) -> u32
    requires { IsRoom call.now depth }
    ensures { result ≡ step_of.depth_after call.now depth }
{
    match call {
        Call::Enter { .. } => depth + 1,
        Call::Leave => depth.saturating_sub(1),
        _ => depth,
    }
}

/// The word with the stored value in its place, where one is stored.
pub fn replaced(word: u64, addr: u64, size: u8, stored: Option<u64>) -> Option<u64>
    requires { IsField (placing.offset addr) size }
    ensures { result ≡ option_map (with_field word (placing.offset addr) size) stored }
{
    match stored {
        Some(value) => Some(with_field(word, offset(addr), size, value)),
        None => None,
    }
}

/// The thread's instruction is done. Its first one begins it.
pub fn begin_thread(thread: &mut Thread, events: &mut CallEvents)
    requires { events.old ≡ [] }
    ensures thread { thread.new ≡ record thread.old { began = true } }
    ensures events { events.new ≡ first_events thread.old }
    ensures few { length events.new ≤ 1 }
{
    if !thread.began {
        events.push(Event::Begin);
    }
    thread.began = true;
}

/// A call of the thread is done, with this answer, if any. It tells whether it wrote, and what is answered.
pub fn finish_call(
    thread: &mut Thread,
    call: &Call,
    wrote: bool,
    told: u64,
    answer: Option<u64>,
    events: &mut CallEvents,
)
    requires empty { events.old ≡ [] }
    requires answered { (o : Outcome) → o.answer ≡ told → IsAnswered call.now o }
    ensures thread { thread.new ≡ record (step_of.answered thread.old answer) { began = true } }
    ensures events { events.new ≡ first_events thread.old ++ events_by call.now (step_of.outcome thread.old wrote told) }
{
    let own = events_of(call, &outcome(thread, wrote, told));
    begin_thread(thread, events);
    events.append(&own);
    answer_thread(thread, answer);
}

/// A call of the thread is done, which uses no more than a stripe's name.
pub fn return_thread(thread: &mut Thread, request: &Return, events: &mut CallEvents)
    requires empty { events.old ≡ [] }
    requires sound { IsReturn request.now }
    requires shallow { IsRoom request.now.call thread.old.depth }
    ensures thread { thread.new ≡ record (step_of.answered thread.old request.now.answer) { began = true; depth = step_of.depth_after request.now.call thread.old.depth } }
    ensures events { events.new ≡ first_events thread.old ++ events_by request.now.call (step_of.outcome thread.old false (unwrap_or request.now.answer 0)) }
{
    let depth = depth_after(&request.call, thread.depth);
    let told = request.answer.unwrap_or(0);
    finish_call(thread, &request.call, false, told, request.answer, events);
    thread.depth = depth;
}

impl Machine {
    fn done(&mut self, tid: u32, events: &mut CallEvents)
        requires thread { tid < length self.old.threads }
        requires empty { events.old ≡ [] }
        ensures memory { self.new.memory ≡ self.old.memory }
        ensures step { (object : Option ℕ) → Takes self.old self.new tid events.new object (λ t. step_of.goes_on self.old tid t [] object) }
    {
        begin_thread(&mut self.threads[tid as usize], events);
    }

    fn return_call(&mut self, tid: u32, request: &Return, events: &mut CallEvents)
        requires thread { tid < length self.old.threads }
        requires empty { events.old ≡ [] }
        requires sound { IsReturn request.now }
        requires shallow { (t : Thread) → slice_get self.old.threads tid ≡ Some t → IsRoom request.now.call t.depth }
        ensures memory { self.new.memory ≡ self.old.memory }
        ensures step { Takes self.old self.new tid events.new request.now.object (λ t. step_of.returns self.old tid t request.now.call request.now.answer request.now.object) }
    {
        return_thread(&mut self.threads[tid as usize], request, events);
    }

    fn touch(&mut self, tid: u32, request: &Touch, events: &mut CallEvents) -> Result<(), NoMemory>
        requires thread { tid < length self.old.threads }
        requires granule { request.now.granule < length self.old.memory.words }
        requires sound { IsTouch request.now }
        requires empty { events.old ≡ [] }
        ensures memory { length self.new.memory.words ≡ length self.old.memory.words }
        ensures ok { OnOk result (Takes self.old self.new tid events.new (Some (placing.stripe request.now.addr)) (λ t. step_of.serve self.old tid t (asked t.regs (Request.Touch request.now)))) }
        ensures err { OnErr result (self.new ≡ self.old) }
    {
        let value = self.memory.touch(tid, request)?;
        let thread = &mut self.threads[tid as usize];
        begin_thread(thread, events);
        finish(&mut thread.regs, &request.instr, value);
        Ok(())
    }

    fn operate(&mut self, tid: u32, request: &Operation, events: &mut CallEvents)
        requires thread { tid < length self.old.threads }
        requires granule { request.now.granule < length self.old.memory.words }
        requires sound { IsOperation request.now }
        requires empty { events.old ≡ [] }
        ensures memory { length self.new.memory.words ≡ length self.old.memory.words }
        ensures step { Takes self.old self.new tid events.new (Some (placing.stripe request.now.addr)) (λ t. step_of.serve self.old tid t (asked t.regs (Request.Operate request.now))) }
    {
        let word = self.memory.word(request.granule);
        let old = field(word, offset(request.addr), request.size);
        let stored = atomic_word(&request.call, old);
        let written = replaced(word, request.addr, request.size, stored);
        self.memory.write(request.granule, written);
        let answer = atomic_answer(&request.call, old);
        let thread = &mut self.threads[tid as usize];
        finish_call(thread, &request.call, stored.is_some(), 0, answer, events);
    }

    // A call at the desk is done, with this answer.
    fn answer(&mut self, tid: u32, call: &Call, answer: u64, events: &mut CallEvents)
        requires thread { tid < length self.old.threads }
        requires empty { events.old ≡ [] }
        requires answered { (o : Outcome) → o.answer ≡ answer → IsAnswered call.now o }
        ensures memory { self.new.memory ≡ self.old.memory }
        ensures step { Takes self.old self.new tid events.new (Some step_of.desk) (λ t. step_of.desk_returns self.old tid t call.now answer) }
    {
        let thread = &mut self.threads[tid as usize];
        finish_call(thread, call, false, answer, Some(answer), events);
    }

    // The low bytes of a word, so many, go to the output.
    fn put(
        &mut self,
        tid: u32,
        value: u64,
        count: u8,
        events: &mut CallEvents,
    ) -> Result<(), NoMemory>
        requires thread { tid < length self.old.threads }
        requires empty { events.old ≡ [] }
        requires count { count ≤ 8 }
        ensures memory { self.new.memory ≡ self.old.memory }
        ensures ok { OnOk result (Takes self.old self.new tid events.new (Some step_of.desk) (λ t. step_of.serve self.old tid t (asked t.regs (Request.Put value count)))) }
        ensures err { OnErr result (self.new ≡ self.old) }
    {
        let bytes = value.to_le_bytes();
        self.output.extend_from_slice(&bytes[..count as usize])?;
        self.answer(tid, &Call::Put { value, count }, 0, events);
        Ok(())
    }

    // Whether no more threads can be made now.
    fn is_full(&self) -> bool
        ensures value { result ≡ step_of.is_full self.now }
        ensures room { result ≡ false → length self.now.threads < 1024 }
    {
        self.living >= self.harts || self.threads.len() == 1024
    }

    // The new thread gets the next number.
    fn create(
        &mut self,
        tid: u32,
        pc: u64,
        argument: u64,
        stack: u64,
        events: &mut CallEvents,
    ) -> Result<(), NoMemory>
        requires thread { tid < length self.old.threads }
        requires empty { events.old ≡ [] }
        ensures memory { self.new.memory ≡ self.old.memory }
        ensures ok { OnOk result (Takes self.old self.new tid events.new (Some step_of.desk) (λ t. step_of.serve self.old tid t (asked t.regs (Request.Create pc argument stack)))) }
        ensures err { OnErr result (self.new ≡ self.old) }
    {
        let call = Call::Create {
            pc,
            arg: argument,
            sp: stack,
        };
        if self.is_full() {
            self.answer(tid, &call, minus(11), events);
            return Ok(());
        }
        let number = self.threads.len() as u64;
        self.threads.push(new_thread(pc, argument, stack))?;
        self.living += 1;
        self.answer(tid, &call, number, events);
        Ok(())
    }

    // What a join of a thread answers.
    fn join_answer(&self, of: u64) -> u64
        ensures answer { result ≡ step_of.join_answer (slice_get self.now.threads of) }
        ensures known { result ≡ 0 → of < 1024 }
    {
        match self.threads.get(of as usize) {
            None => minus(3),
            Some(thread) if thread.lives => minus(16),
            Some(_) => 0,
        }
    }

    // Joins a thread, or tells why not.
    fn join(&mut self, tid: u32, of: u64, events: &mut CallEvents)
        requires thread { tid < length self.old.threads }
        requires empty { events.old ≡ [] }
        ensures memory { self.new.memory ≡ self.old.memory }
        ensures step { Takes self.old self.new tid events.new (Some step_of.desk) (λ t. step_of.serve self.old tid t (asked t.regs (Request.Join of))) }
    {
        let answer = self.join_answer(of);
        self.answer(tid, &Call::Join { tid: of }, answer, events);
    }

    // The thread ends, and with it the run where this is its first exit or fault.
    fn stop(&mut self, tid: u32, end: Option<GuestEnd>, events: &mut CallEvents)
        requires thread { tid < length self.old.threads }
        requires empty { events.old ≡ [] }
        ensures memory { self.new.memory ≡ self.old.memory }
        ensures step { Takes self.old self.new tid events.new (Some step_of.desk) (λ t. step_of.stops self.old tid t end) }
    {
        let thread = &mut self.threads[tid as usize];
        begin_thread(thread, events);
        if thread.lives {
            self.living -= 1;
        }
        thread.lives = false;
        events.push(Event::End);
        self.ended = first_end(self.ended, end);
    }

    /// Serves the request that its thread has made, and has its events told. After want of memory nothing has changed.
    pub fn serve(
        &mut self,
        tid: u32,
        request: &Request,
        events: &mut CallEvents,
    ) -> Result<(), NoMemory>
        requires thread { tid < length self.old.threads }
        requires empty { events.old ≡ [] }
        requires sound { IsSound request.now }
        requires shallow { (t : Thread) → slice_get self.old.threads tid ≡ Some t → IsShallow request.now t.depth }
        requires within { IsBelow (length self.old.memory.words) request.now }
        ensures memory { length self.new.memory.words ≡ length self.old.memory.words }
        ensures ok { OnOk result ((t : Thread) → slice_get self.old.threads tid ≡ Some t → step_of.serve self.old tid t (asked t.regs request.now) ≡ record { world = self.new; events = events.new; object = object_of (asked t.regs request.now) }) }
        ensures undone { OnErr result (IsUndone request.now) }
        ensures err { OnErr result (self.new ≡ self.old) }
    {
        match request {
            Request::Done => {
                self.done(tid, events);
                Ok(())
            }
            Request::Return(request) => {
                self.return_call(tid, request, events);
                Ok(())
            }
            Request::Touch(request) => self.touch(tid, request, events),
            Request::Operate(request) => {
                self.operate(tid, request, events);
                Ok(())
            }
            Request::Put { value, count } => self.put(tid, *value, *count, events),
            Request::Create {
                pc,
                argument,
                stack,
            } => self.create(tid, *pc, *argument, *stack, events),
            Request::Join { of } => {
                self.join(tid, *of, events);
                Ok(())
            }
            Request::Stop(end) => {
                self.stop(tid, *end, events);
                Ok(())
            }
        }
    }
}

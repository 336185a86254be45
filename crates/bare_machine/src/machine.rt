// The bare machine.
ghost use Rattle.std.specs.Prelude.{◌≡◌, ◌<◌, ◌≤◌, [], Some, length, slice_get, true, IfOk, OnErr};
ghost use Rattle.bare_machine.specs.declared.thread.Thread.{Thread};
ghost use Rattle.bare_machine.specs.World.{start, lives, HasMemory};
ghost use Rattle.rv_exec.specs.Faults.{number_of};
ghost use Rattle.bare_machine.specs.Preview as previews;
ghost use Rattle.bare_machine.specs.Step.{first_of, first_events, end_of};
ghost use Rattle.bare_machine.specs.Locals.{AreLocalSteps};
ghost use Rattle.bare_machine.specs.Plain.{Steps, MakesPlain};
ghost use Rattle.bare_machine.specs.Asked.{Asks, IsSound, IsShallow, IsWithin, IsUndone};

use crate::thread::new_thread;
use crate::{Memory, Plain, Request, Thread};
use elf_image::Image;
use entry_calls::CallEvents;
use guest_code::Code;
use run_record::{Event, GuestEnd, NoMemory};
use rv_exec::GuestFault;
use std::alloc::Global;
use std::marker::Model;

/// Threads that step over an image.
#[derive(Drop)]
pub struct Machine {
    pub(crate) threads: Vec<Thread>,
    // How many of them live.
    pub(crate) living: u32,
    pub(crate) harts: u32,
    pub(crate) memory: Memory,
    pub(crate) output: Vec<u8>,
    pub(crate) ended: Option<GuestEnd>,
}

impl Model for Machine {
    ghost use Rattle.std.specs.Prelude.{◌≡◌, ◌≤◌, length};
    ghost use Rattle.bare_machine.specs.World.{World, count_living};

    ghost Value = { World };

    ghost view = { λ m. record { threads = m.threads.items; harts = m.harts; memory = m.memory; output = m.output.items; ended = m.ended } };

    ghost invariant = { λ m. (length m.threads.items ≤ 1024) × (m.living ≡ count_living m.threads.items) };
}

/// The object that isn't a stripe of memory.
pub const DESK: u32 = 64;

/// The number of a fault, from 1.
pub fn fault_number(fault: GuestFault) -> u8
    ensures { result ≡ number_of fault }
{
    match fault {
        GuestFault::Illegal => 1,
        GuestFault::FetchOutside => 2,
        GuestFault::Outside => 3,
        GuestFault::ReadOnly => 4,
        GuestFault::Misaligned => 5,
        GuestFault::Break => 6,
        GuestFault::UnknownCall => 7,
        GuestFault::StackDeep => 8,
    }
}

/// The first of two ends, if any.
pub fn first_end(one: Option<GuestEnd>, other: Option<GuestEnd>) -> Option<GuestEnd>
    ensures { result ≡ first_of one other }
{
    match one {
        Some(end) => Some(end),
        None => other,
    }
}

/// What a thread's next instruction will need.
#[derive(Clone, Copy)]
pub struct Preview {
    /// Whether only a thread with a slot makes it.
    pub needs_slot: bool,
    /// Whether it uses an object that threads share.
    pub uses_object: bool,
}

/// How a thread's step went.
#[derive(Clone, Copy)]
pub enum Stepped {
    /// The instruction was made, and used this object, if any: a stripe of memory, or 64 for the desk.
    Made(Option<u32>),
    /// Only a thread with a slot makes it: nothing has changed.
    NeedsSlot,
}

/// The events that an instruction has before its own.
pub fn events_before(thread: &Thread) -> CallEvents
    ensures events { result ≡ first_events thread.now }
    ensures few { length result ≤ 1 }
{
    let mut events = CallEvents::new();
    if !thread.began {
        events.push(Event::Begin);
    }
    events
}

impl Machine {
    /// The main thread, at the first instruction of the image; `harts` threads may live at once.
    pub fn new(alloc: Global, image: &Image<'_>, harts: u32) -> Result<Machine, NoMemory>
        ensures start { IfOk result (λ machine. machine ≡ start image.now harts) }
        ensures memory { IfOk result (HasMemory image.now) }
    {
        let mut threads = Vec::new(alloc);
        threads.push(new_thread(image.entry(), 0, 0x8000_0000))?;
        Ok(Machine {
            threads,
            living: 1,
            harts,
            memory: Memory::new(alloc, image)?,
            output: Vec::new(alloc),
            ended: None,
        })
    }

    // What the thread's next instruction comes to. If it is done then, the thread has its registers.
    fn ask(&mut self, code: &Code<'_>, tid: u32) -> Request
        requires { tid < length self.old.threads }
        ensures asks { (t : Thread) → slice_get self.old.threads tid ≡ Some t → Asks code.now self.old self.new tid t result }
        ensures count { length self.new.threads ≡ length self.old.threads }
        ensures memory { self.new.memory ≡ self.old.memory }
        ensures sound { IsSound result }
        ensures within { IsWithin code.now result }
        ensures shallow { (t : Thread) → slice_get self.new.threads tid ≡ Some t → IsShallow result t.depth }
        ensures kept { IsUndone result → self.new ≡ self.old }
    {
        Request::of(code, tid, &mut self.threads[tid as usize])
    }

    // Whether a thread that lives has made an instruction.
    fn has_begun(&self, tid: u32) -> bool
        requires { lives self.now tid ≡ true }
        ensures { (t : Thread) → slice_get self.now.threads tid ≡ Some t → result ≡ t.began }
    {
        self.threads[tid as usize].began
    }

    /// One instruction of a thread that lives, with the decoded instructions of the image that the machine was made for, if it
    /// has a slot or needs none. Its events come into the list. After an error nothing has changed.
    pub fn step(
        &mut self,
        code: &Code<'_>,
        tid: u32,
        has_slot: bool,
        events: &mut CallEvents,
    ) -> Result<Stepped, NoMemory>
        requires lives { lives self.old tid ≡ true }
        requires memory { HasMemory code.now self.old }
        requires empty { events.old ≡ [] }
        ensures ok { IfOk result (λ stepped. Steps code.now tid has_slot self.old stepped self.new events.new) }
        ensures err { OnErr result (self.new ≡ self.old) }
        ensures memory { HasMemory code.now self.new }
    {
        if !has_slot && !self.has_begun(tid) {
            return Ok(Stepped::NeedsSlot);
        }
        let request = self.ask(code, tid);
        if !has_slot && request.needs_slot() {
            return Ok(Stepped::NeedsSlot);
        }
        self.serve(tid, &request, events)?;
        Ok(Stepped::Made(request.object()))
    }

    /// Makes the next instruction of a thread that lives, where it has begun and the instruction touches its registers alone, or
    /// loads or stores a word of memory that may be written. Such a step has no events and needs no slot.
    #[inline(always)]
    pub fn make_plain(&mut self, code: &Code<'_>, tid: u32) -> Plain
        requires lives { lives self.old tid ≡ true }
        requires memory { HasMemory code.now self.old }
        ensures { MakesPlain code.now tid self.old result self.new }
    {
        self.threads[tid as usize].make_plain(code, &mut self.memory)
    }

    /// Makes instructions of a thread that lives while they touch its registers alone, at most so many, from its second
    /// instruction on. It tells how many it made: each was a step without events and objects.
    pub fn run_locals(&mut self, code: &Code<'_>, tid: u32, most: u32) -> u32
        requires { lives self.old tid ≡ true }
        ensures made { AreLocalSteps code.now tid self.old result self.new }
        ensures few { result ≤ most }
    {
        self.threads[tid as usize].run_locals(code, most)
    }

    /// What the next instruction of a thread that lives will need, on the image that the machine
    /// was made for. It takes no memory.
    pub fn preview(&self, code: &Code<'_>, tid: u32) -> Preview
        requires { lives self.now tid ≡ true }
        ensures needs { result.needs_slot ≡ previews.needs_slot code.now self.now tid }
        ensures uses { result.uses_object ≡ previews.uses_object code.now self.now tid }
    {
        let mut thread = self.threads[tid as usize];
        let request = Request::of(code, tid, &mut thread);
        Preview {
            needs_slot: !thread.began || request.needs_slot(),
            uses_object: request.object().is_some(),
        }
    }

    /// Whether a thread lives.
    pub fn lives(&self, tid: u32) -> bool
        ensures { result ≡ lives self.now tid }
    {
        match self.threads.get(tid as usize) {
            Some(thread) => thread.lives,
            None => false,
        }
    }

    /// How many threads were made.
    pub fn threads(&self) -> u32
        ensures count { result ≡ length self.now.threads }
        ensures bound { result ≤ 1024 }
    {
        self.threads.len() as u32
    }

    /// The bytes that were put.
    pub fn output(&self) -> &[u8]
        ensures { result.now ≡ self.now.output }
    {
        self.output.as_slice()
    }

    /// The bytes that were put, when the machine is done with.
    pub fn into_output(self) -> Vec<u8>
        ensures { result.items ≡ self.output }
    {
        let Machine {
            threads: _,
            living: _,
            harts: _,
            memory: _,
            output,
            ended: _,
        } = self;
        output
    }

    /// Whether and how the run has ended: by the first exit or fault, or since no thread lives.
    pub fn ended(&self) -> Option<GuestEnd>
        ensures { result ≡ end_of self.now }
    {
        let last = (self.living == 0).then_some(GuestEnd::AllEnded);
        first_end(self.ended, last)
    }
}

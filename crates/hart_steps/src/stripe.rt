// Requests that use a granule.
ghost use Rattle.std.specs.Prelude.{◌≡◌, ℕ, ◌<◌, [], List, length, OnOk, OnErr};
ghost use Rattle.place_turns.specs.Places as places;
ghost use Rattle.place_turns.specs.Turns as turns;
ghost use Rattle.bare_machine.specs.Requests as requests;
ghost use Rattle.bare_machine.specs.Asked.{asked, IsSound, IsWithin, IsTouch, IsOperation};
ghost use Rattle.hart_steps.specs.Asked.{UsesGranule, granule_in};
ghost use Rattle.hart_steps.specs.Harts.{turn, leaves};
ghost use Rattle.hart_steps.specs.Stripes as stripes;
ghost use Rattle.hart_steps.specs.Stripes.{IsIndexOf, stripe_value};

use crate::Hart;
use bare_machine::touch::touch;
use bare_machine::{Operation, Request, Touch, begin_thread, finish_call, offset, replaced};
use entry_calls::{CallEvents, atomic_answer, atomic_word};
use guest_memory::{Reservations, field};
use run_record::NoMemory;
use rv_exec::{Effect, finish};
use shared_table::GuestWords;
use std::alloc::AllocError;

// The granule that the thread reserved last, after an instruction touched one.
fn reserved_after(last: Option<u32>, granule: u32, effect: Effect) -> Option<u32>
    ensures { result ≡ turns.reserved_after last granule effect }
{
    match effect {
        Effect::Reserve { .. } => Some(granule),
        Effect::Conditional { .. } => None,
        Effect::Load { .. } | Effect::Store { .. } | Effect::Amo { .. } => last,
        Effect::Local | Effect::Call | Effect::Fault(_) => last,
    }
}

fn reserves(last: Option<u32>, granule: u32) -> bool
    ensures { result ≡ places.reserves last granule }
{
    match last {
        Some(reserved) => reserved == granule,
        None => false,
    }
}

// Makes or ends the reservation that an instruction makes or ends, whatever it writes.
fn settle(
    reserved: &mut Reservations,
    tid: u32,
    granule: u32,
    effect: Effect,
) -> Result<(), AllocError>
    ensures ok { OnOk result (reserved.new ≡ stripes.settled reserved.old tid granule effect) }
    ensures err { OnErr result (reserved.new ≡ reserved.old) }
{
    match effect {
        Effect::Reserve { .. } => reserved.reserve(tid, granule),
        Effect::Conditional { .. } => {
            reserved.end_thread(tid);
            Ok(())
        }
        Effect::Load { .. } | Effect::Store { .. } | Effect::Amo { .. } => Ok(()),
        Effect::Local | Effect::Call | Effect::Fault(_) => Ok(()),
    }
}

// Keeps the word of a granule that was written, and ends its reservations.
fn write(
    words: &mut GuestWords,
    reserved: &mut Reservations,
    index: u32,
    granule: u32,
    written: Option<u64>,
)
    requires { index < length words.old }
    ensures words { words.new ≡ stripes.words_written words.old index written }
    ensures size { length words.new ≡ length words.old }
    ensures reserved { reserved.new ≡ stripes.reservations_written reserved.old granule written }
{
    if let Some(word) = written {
        words.set(index, word);
        reserved.end_granule(granule);
    }
}

impl Hart {
    // An instruction that touches a granule.
    fn touch(
        &mut self,
        tid: u32,
        request: &Touch,
        words: &mut GuestWords,
        reserved: &mut Reservations,
        index: u32,
        events: &mut CallEvents,
    ) -> Result<(), NoMemory>
        requires index { index < length words.old }
        requires sound { IsTouch request.now }
        requires empty { events.old ≡ [] }
        ensures ok { OnOk result (stripes.touches tid self.old words.old reserved.old index request.now ≡ record { hart = self.new; words = words.new; reservations = reserved.new; events = events.new }) }
        ensures err { OnErr result ((self.new ≡ self.old) × ((words.new ≡ words.old) × (reserved.new ≡ reserved.old))) }
        ensures size { length words.new ≡ length words.old }
    {
        let granule = request.granule;
        let holds = reserves(self.reserved, granule) && reserved.stands(tid, granule);
        let touched = touch(request.instr.op, request.effect, words.get(index), holds);
        settle(reserved, tid, granule, request.effect)?;
        write(words, reserved, index, granule, touched.written);
        begin_thread(&mut self.thread, events);
        finish(&mut self.thread.regs, &request.instr, touched.value);
        self.reserved = reserved_after(self.reserved, granule, request.effect);
        Ok(())
    }

    // An atomic call on a granule.
    fn operate(
        &mut self,
        request: &Operation,
        words: &mut GuestWords,
        reserved: &mut Reservations,
        index: u32,
        events: &mut CallEvents,
    )
        requires index { index < length words.old }
        requires sound { IsOperation request.now }
        requires empty { events.old ≡ [] }
        ensures value { stripes.operates self.old words.old reserved.old index request.now ≡ record { hart = self.new; words = words.new; reservations = reserved.new; events = events.new } }
        ensures size { length words.new ≡ length words.old }
    {
        let word = words.get(index);
        let old = field(word, offset(request.addr), request.size);
        let stored = atomic_word(&request.call, old);
        let written = replaced(word, request.addr, request.size, stored);
        write(words, reserved, index, request.granule, written);
        let answer = atomic_answer(&request.call, old);
        finish_call(
            &mut self.thread,
            &request.call,
            stored.is_some(),
            0,
            answer,
            events,
        );
    }

    /// Serves a request that uses a granule, which is the one of this index among the words of its stripe. After want of memory
    /// nothing has changed.
    pub fn serve_at_stripe(
        &mut self,
        tid: u32,
        request: &Request,
        words: &mut GuestWords,
        reserved: &mut Reservations,
        index: u32,
        events: &mut CallEvents,
    ) -> Result<(), NoMemory>
        requires granule { UsesGranule request.now }
        requires sound { IsSound request.now }
        requires index { index < length words.old }
        requires empty { events.old ≡ [] }
        ensures ok { OnOk result ((file : List ℕ) (harts : ℕ) → asked self.old.thread.regs request.now ≡ requests.request file tid self.old.thread → IsWithin file request.now →
            IsIndexOf file (granule_in request.now) words.old index →
            turn file harts tid self.old (stripe_value file (places.stripe_at file (granule_in request.now)) words.old reserved.old)
            ≡ leaves self.new (stripe_value file (places.stripe_at file (granule_in request.now)) words.new reserved.new) events.new) }
        ensures size { length words.new ≡ length words.old }
        ensures err { OnErr result ((self.new ≡ self.old) × ((words.new ≡ words.old) × (reserved.new ≡ reserved.old))) }
    {
        match request {
            Request::Touch(request) => self.touch(tid, request, words, reserved, index, events),
            Request::Operate(request) => {
                self.operate(request, words, reserved, index, events);
                Ok(())
            }
            _ => unreachable!(),
        }
    }
}

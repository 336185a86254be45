// One thread's watcher.
ghost use Rattle.std.specs.Prelude.{◌≡◌, ◌≢◌, ◌↔◌, ◌+◌, ◌-◌, ◌^◌, ◌<◌, ◌≤◌, ℕ, Some, None, List, length, slice_index, position, is_none, IfOk, IsOk, OnOk, OnErr, IsSome, IsSomeAnd};
ghost use Rattle.std.specs.Borrow.{sem};
ghost use Rattle.run_record.specs.declared.entry.Label.{Label};
ghost use Rattle.run_laws.specs.Accesses.{Access, access_of};
ghost use Rattle.run_laws.specs.Words.{word_of, cell_for};
ghost use Rattle.run_laws.specs.Candidates.{is_race};
ghost use Rattle.shadow_word.specs.Cells.{cell_in};
ghost use Rattle.shadow_word.specs.Decisions.{AreInClock};
ghost use Rattle.race_core.specs.Watched.{AreWatcherLimits, CanBeNoted, IsWatched, IsLabel, new_watched, with_room, with_events, noted, labelled, unlabelled, next_label, raised, in_era, side_of, cell_of};
ghost use Rattle.race_core.specs.Walk.{planned};
ghost use Rattle.run_laws.specs.Window.{Labelled};
ghost use Rattle.trace_parts.specs.Spelling.{told, IsTraceable};

#[cfg(test)]
mod tests;

use crate::Parts;
use elf_image::Image;
use run_record::{Event, Label, Limits, NoMemory, Side};
use shadow_word::{Cell, Decision, decide, pack, word_law};
use std::alloc::Global;
use std::marker::Model;
use trace_parts::{Trace, TraceEvent};
use vector_clock::Clock;

/// An access for which a check found a race: the access as it is told, and the granule and the cell
/// word of the other one.
#[derive(Drop)]
pub struct Candidate {
    pub mine: Side,
    pub granule: u32,
    pub word: u64,
}

/// What is kept of one thread: its label, its clock, its stack, the locks that it keeps, and its
/// trace. Contracts see it as `Watched`. Label and clock are of one era; where a later one has begun
/// the thread has no label and its clock is empty, and `enter_era` makes that so.
#[derive(Drop)]
pub struct Watcher {
    tid: u32,
    greatest: u16,
    era: u32,
    label: Option<Label>,
    clock: Clock,
    // Keeps the frames and the locks that stand now.
    trace: Trace,
}

impl Model for Watcher {
    ghost use Rattle.trace_parts.specs.Held.{standing_of};
    ghost use Rattle.race_core.specs.Watched.{Watched, IsWatched, watched};

    ghost Value = { Watched };

    ghost view = { λ w. watched w.tid w.greatest w.era w.label w.clock w.trace };

    ghost invariant = { λ w. IsWatched (watched w.tid w.greatest w.era w.label w.clock w.trace) };
}

impl Watcher {
    ghost use Rattle.race_core.specs.Lending.{LendsClock};
    ghost use Rattle.race_core.specs.Parts.{left_of};

    /// The watcher of a thread that did nothing yet, in the first era.
    pub fn new(alloc: Global, tid: u32, limits: &Limits) -> Result<Watcher, NoMemory>
        requires { AreWatcherLimits limits.now }
        ensures { IfOk result (λ watcher. watcher ≡ new_watched tid limits.now) }
    {
        let clock = Clock::new(alloc, limits.slots)?;
        let trace = Trace::new(alloc, limits.part_words, limits.parts)?;
        Ok(Watcher {
            tid,
            greatest: limits.epochs,
            era: 0,
            label: None,
            clock,
            trace,
        })
    }

    /// Makes room for the events and the labels of one instruction, which are four at most. After an
    /// error nothing has changed.
    pub fn room(&mut self) -> Result<(), NoMemory>
        ensures ok { OnOk result (self.new ≡ with_room self.old) }
        ensures err { OnErr result (self.new ≡ self.old) }
    {
        self.trace.room()
    }

    /// Makes room for one event at least: where there is some it changes nothing, and else it makes room for four. After an
    /// error nothing has changed.
    #[inline(always)]
    pub fn keep_room(&mut self) -> Result<(), NoMemory>
        ensures some { OnOk result (0 < self.new.trace.spare) }
        ensures rest { OnOk result (self.new ≡ with_events self.new.trace.spare self.old) }
        ensures enough { 0 < self.old.trace.spare → IsOk result × (self.new ≡ self.old) }
        ensures err { OnErr result (self.new ≡ self.old) }
    {
        if self.trace.spare() > 0 {
            return Ok(());
        }
        self.room()
    }

    /// The thread makes an event: its stack, its locks and its trace go on. It takes no memory.
    pub fn note(&mut self, event: &Event)
        requires can { CanBeNoted (length self.old.frames) event.now }
        requires spare { 0 < self.old.trace.spare }
        requires count { self.old.trace.count < 2 ^ 64 - 1 }
        ensures { self.new ≡ noted self.old event.now }
    {
        match *event {
            Event::Access {
                place,
                addr,
                size,
                read,
                atomic,
            } => self.trace.push(TraceEvent::Access {
                place,
                addr,
                size,
                read,
                atomic,
            }),
            Event::Enter(pc) => self.trace.push(TraceEvent::Enter { pc }),
            Event::Leave => self.trace.push(TraceEvent::Leave),
            Event::Lock { addr, read } => self.trace.push(TraceEvent::Lock { addr, read }),
            Event::Unlock { addr, read } => self.trace.push(TraceEvent::Unlock { addr, read }),
            _ => {}
        }
    }

    /// The thread's number.
    pub fn tid(&self) -> u32
        ensures { result ≡ self.now.tid }
    {
        self.tid
    }

    /// The era that the label and the clock are of.
    pub fn era(&self) -> u32
        ensures { result ≡ self.now.era }
    {
        self.era
    }

    /// The thread's label, if it has a slot.
    pub fn label(&self) -> Option<Label>
        ensures value { result ≡ self.now.label }
        ensures label { (l : Label) → result ≡ Some l → IsLabel self.now.greatest l }
        ensures greatest { self.now.greatest ≤ 16383 }
    {
        self.label
    }

    /// How many frames the thread's stack has: at most 4,096.
    pub fn depth(&self) -> u32
        ensures value { result ≡ length self.now.frames }
        ensures few { result ≤ 4096 }
    {
        self.trace.depth() as u32
    }

    pub fn trace(&self) -> &Trace
        ensures { result.now ≡ self.now.trace }
    {
        &self.trace
    }

    /// The clock, for a call that only reads it.
    pub fn clock_ref(&self) -> &Clock
        ensures { result.now ≡ self.now.clock }
    {
        &self.clock
    }

    /// Lends the clock, for a call that changes it, and touches nothing else.
    pub fn clock(&mut self) -> &mut Clock
        ensures* lends { sem 𝓛 (LendsClock self.entry result) }
        ensures now { result.now ≡ self.entry.now.clock }
    {
        &mut self.clock
    }

    /// The thread has taken a slot, and gets this label. It takes no memory.
    pub fn take_label(&mut self, label: Label)
        requires label { IsLabel self.old.greatest label }
        requires spare { 0 < self.old.trace.spare }
        requires count { self.old.trace.count < 2 ^ 64 - 1 }
        ensures { self.new ≡ labelled self.old label }
    {
        self.label = Some(label);
        self.trace.push(event_of(label));
    }

    /// The epoch of the label rises by one, and with it the clock's own entry; none where it is the
    /// greatest epoch, and then nothing has changed. It takes no memory.
    pub fn raise(&mut self) -> Option<Label>
        requires label { IsSomeAnd self.old.label (λ l. l.sid < length self.old.clock) }
        requires spare { 0 < self.old.trace.spare }
        requires count { self.old.trace.count < 2 ^ 64 - 1 }
        ensures value { result ≡ next_label self.old.greatest self.old.label }
        ensures none { (l : Label) → self.old.label ≡ Some l → (result ≡ None) ↔ (l.epoch ≡ self.old.greatest) }
        ensures new { self.new ≡ raised self.old }
    {
        let label = self.label?;
        if label.epoch >= self.greatest {
            return None;
        }
        let next = Label {
            epoch: label.epoch + 1,
            ..label
        };
        self.label = Some(next);
        self.clock.set(next.sid, next.epoch);
        self.trace.push(event_of(next));
        Some(next)
    }

    /// The thread has no slot any more.
    pub fn lose_label(&mut self)
        ensures { self.new ≡ unlabelled self.old }
    {
        self.label = None;
    }

    /// Where the era isn't the one of the label and the clock, the thread has no label and its clock
    /// is empty.
    pub fn enter_era(&mut self, era: u32)
        ensures { self.new ≡ in_era self.old era }
    {
        if self.era != era {
            self.era = era;
            self.label = None;
            self.clock.clear();
        }
    }

    /// The granules that the access touches, each with the mask of its bytes there, by rising
    /// granule. Bytes at or above 2^64 and bytes that can't be written are in no part.
    pub fn plan_access<'a, 'b>(&self, image: &'a Image<'b>, event: &Event) -> Parts<'a, 'b>
        requires { IsSome (access_of event.now) }
        ensures { (a : Access) → access_of event.now ≡ Some a → left_of result ≡ planned image.now a }
    {
        match *event {
            Event::Access { addr, size, .. } => Parts::all(image, addr, size),
            _ => unreachable!(),
        }
    }

    /// The check of one part of an access: the part's word, and what the words of the granule's four
    /// cells tell. `turn` is the cell that is overwritten where no other serves.
    pub fn check_part(&self, event: &Event, mask: u8, cells: [u64; 4], turn: u8) -> (u64, Decision)
        requires access { IsSome (access_of event.now) }
        requires label { IsSomeAnd self.now.label (λ l. AreInClock l.era self.now.clock cells) }
        requires some_byte { mask ≢ 0 }
        requires a_turn { turn ≤ 3 }
        ensures word { (a : Access) (l : Label) → access_of event.now ≡ Some a → self.now.label ≡ Some l →
            result.0 ≡ word_of mask l a.read a.atomic }
        ensures cell { (a : Access) (l : Label) → access_of event.now ≡ Some a → self.now.label ≡ Some l →
            cell_in result.0 ≡ Some (cell_of mask l a) }
        ensures race { result.1.race ≡ position (is_race (slice_index self.now.clock) result.0) cells }
        ensures store { result.1.store ≡ cell_for result.0 cells turn }
        ensures repeat { result.1.repeat ≡ is_none result.1.store }
    {
        let Event::Access { read, atomic, .. } = *event else {
            unreachable!()
        };
        let Some(label) = self.label else {
            unreachable!()
        };
        let cell = Cell {
            mask,
            sid: label.sid,
            epoch: label.epoch,
            read,
            atomic,
            era: label.era,
        };
        word_law(cell);
        (pack(cell), decide(cell, cells, &self.clock, turn))
    }

    /// The access that the thread makes next, as it is told.
    pub fn side_now(&self, event: &Event) -> Result<Side, NoMemory>
        requires { IsSome (access_of event.now) }
        ensures { IfOk result (λ side. (a : Access) → access_of event.now ≡ Some a → side ≡ side_of self.now a) }
    {
        let Event::Access {
            place,
            addr,
            size,
            read,
            atomic,
        } = *event
        else {
            unreachable!()
        };
        let stack = self.trace.stack_at(place)?;
        let locks = self.trace.locks()?;
        Ok(Side {
            tid: self.tid,
            read,
            atomic,
            addr,
            size,
            stack: Some(stack),
            locks,
        })
    }
}

/// What a trace keeps of a label.
fn event_of(label: Label) -> TraceEvent
    ensures value { told result ≡ Labelled label }
    ensures traceable { label.epoch ≤ 16383 → IsTraceable result }
{
    TraceEvent::Label {
        sid: label.sid,
        epoch: label.epoch,
        era: label.era,
    }
}

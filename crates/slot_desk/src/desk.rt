// The desk.
ghost use Rattle.std.specs.Prelude.{◌≡◌, ◌↔◌, ◌<◌, ◌≤◌, length, count_by, Bool, true, IfOk, IfSome, IsSomeAnd, None, slice_get, slice_index};
ghost use Rattle.slot_desk.specs.Desks.{NoneIsFree, slot_of, thread_of, live_of, lives_of, held_of, owner_at};
ghost use Rattle.slot_desk.specs.Steps.{AreDeskLimits, new_desk, attached, after_attach, clock_after_attach, after_detach, joined_told, created, after_create, after_end, join_answer, clock_after_join, after_reset};

use crate::queue::refill;
use crate::slot::{SlotState, fresh_slots, reset_slots};
use crate::thread::{THREADS, ThreadState, blank_threads, untell};
use crate::{Attached, Created, Joined};
use run_record::{Limits, NoMemory};
use std::alloc::Global;
use std::collections::VecDeque;
use std::marker::Model;
use vector_clock::Clock;

/// The desk of a run. Threads are numbered from 0, the main thread, in the order in which they are
/// made. No call but `new` takes memory. The work of a call doesn't grow with the threads made, but
/// for a `reset` at which the number of the era has come to the end of its type.
#[derive(Drop)]
pub struct Desk {
    harts: u32,
    greatest: u16,
    // Counted from 1, and anew where the numbers end.
    era: u64,
    made: u32,
    live: u32,
    threads: Vec<ThreadState>,
    slots: Vec<SlotState>,
    queue: VecDeque<u8>,
}

impl Model for Desk {
    ghost use Rattle.slot_desk.specs.Desks.{DeskContents};

    ghost Value = { DeskContents };

    ghost use Rattle.std.specs.Prelude.{◌≤◌, length};
    ghost use Rattle.std.specs.VecDeque.{deque_capacity};
    ghost use Rattle.slot_desk.specs.Kept.{contents, IsKept};

    ghost view = { λ m. contents m.harts m.greatest m.made m.era m.threads.items m.slots.items m.queue.items };

    ghost invariant = { λ m. IsKept m.live m.era m.threads.items (contents m.harts m.greatest m.made m.era m.threads.items m.slots.items m.queue.items) × (length m.slots.items ≤ deque_capacity m.queue) };
}

impl Desk {
    /// The desk of a run in which the main thread lives and each slot is free.
    pub fn new(alloc: Global, limits: &Limits) -> Result<Desk, NoMemory>
        requires { AreDeskLimits limits.now }
        ensures { IfOk result (λ desk. desk ≡ new_desk limits.now) }
    {
        let mut threads = blank_threads(alloc, limits.slots)?;
        let main = &mut threads[0];
        main.lives = true;
        let slots = fresh_slots(alloc, limits.slots)?;
        let mut queue = VecDeque::with_capacity(alloc, limits.slots as usize)?;
        refill(&mut queue, limits.slots as u8);
        Ok(Desk {
            harts: limits.harts,
            greatest: limits.epochs,
            era: 1,
            made: 1,
            live: 1,
            threads,
            slots,
            queue,
        })
    }

    /// Whether the thread was made and hasn't ended.
    pub fn lives(&self, tid: u32) -> bool
        ensures { result ≡ (thread_of self.now tid).lives }
    {
        match self.threads.get(tid as usize) {
            Some(thread) => thread.lives,
            None => false,
        }
    }

    /// How many threads live. The desk has room for 1,024 that are made.
    pub fn living(&self) -> u32
        ensures value { result ≡ live_of self.now }
        ensures counted { result ≡ count_by (λ (b : Bool). b) (lives_of self.now) }
        ensures few { result ≤ self.now.harts }
        ensures kept { length self.now.threads ≡ 1024 }
    {
        self.live
    }

    /// Whether a thread lives, if it was made.
    pub fn lives_if_made(&self, tid: u64) -> Option<bool>
        ensures { result ≡ slice_get (lives_of self.now) tid }
    {
        if tid >= self.made as u64 {
            return None;
        }
        Some(self.threads[tid as usize].lives)
    }

    /// The thread's slot, and the epoch of its attachment.
    pub fn held(&self, tid: u32) -> Option<(u8, u16)>
        ensures value { result ≡ held_of self.now tid }
        ensures within { IfSome result (λ h. h.0 < length self.now.slots) }
    {
        let Some(thread) = self.threads.get(tid as usize) else {
            return None;
        };
        let Some(owner) = self.slots[thread.slot as usize].owner() else {
            return None;
        };
        if owner.tid == tid {
            Some((thread.slot, owner.epoch))
        } else {
            None
        }
    }

    /// The thread takes the front of the queue, and takes in what the slot's last owner left.
    pub fn attach(&mut self, tid: u32, clock: &mut Clock) -> Attached
        requires live { (thread_of self.old tid).lives ≡ true }
        requires unheld { held_of self.old tid ≡ None }
        requires same_slots { length clock.old ≡ length self.old.slots }
        ensures none { (result ≡ Attached.None) ↔ NoneIsFree self.old }
        ensures answer { result ≡ attached self.old }
        ensures desk { self.new ≡ after_attach self.old tid }
        ensures clock { clock.new ≡ clock_after_attach self.old clock.old }
    {
        let Some(sid) = self.queue.pop_front() else {
            return Attached::None;
        };
        let slot = &mut self.slots[sid as usize];
        let epoch = slot.attach(tid, clock);
        clock.set(sid, epoch);
        let thread = &mut self.threads[tid as usize];
        thread.slot = sid;
        Attached::Slot(sid, epoch)
    }

    /// The thread leaves its slot, whose greatest epoch is over.
    pub fn detach(&mut self, tid: u32, clock: &Clock)
        requires live { (thread_of self.old tid).lives ≡ true }
        requires same_slots { length clock.now ≡ length self.old.slots }
        requires greatest { IsSomeAnd (held_of self.old tid) (λ h. slice_index clock.now h.0 ≡ self.old.greatest) }
        ensures { self.new ≡ after_detach self.old tid }
    {
        let Some((sid, _)) = self.held(tid) else {
            return;
        };
        let slot = &mut self.slots[sid as usize];
        slot.spend();
    }

    /// The thread takes in the clock that its creator gave it in this era.
    pub fn begin(&mut self, tid: u32, clock: &mut Clock)
        requires live { (thread_of self.old tid).lives ≡ true }
        requires same_slots { length clock.old ≡ length self.old.slots }
        ensures desk { self.new ≡ self.old }
        ensures clock { clock.new ≡ joined_told clock.old (thread_of self.old tid).told }
    {
        let thread = &self.threads[tid as usize];
        if thread.told_in == self.era {
            clock.join(&thread.told);
        }
    }

    /// Makes a thread that is given the clock.
    pub fn create(&mut self, by: u32, clock: &Clock) -> Created
        requires live { (thread_of self.old by).lives ≡ true }
        requires same_slots { length clock.now ≡ length self.old.slots }
        ensures answer { result ≡ created self.old }
        ensures desk { self.new ≡ after_create self.old clock.now }
    {
        if self.live == self.harts || self.made == THREADS {
            return Created::Full;
        }
        let tid = self.made;
        let thread = &mut self.threads[tid as usize];
        thread.tell(true, self.era, clock);
        self.made += 1;
        self.live += 1;
        Created::Thread(tid)
    }

    /// The thread ends, leaves the clock to those who join it and to the next owner of its slot, and
    /// gives the slot back.
    pub fn end(&mut self, tid: u32, clock: &Clock)
        requires live { (thread_of self.old tid).lives ≡ true }
        requires same_slots { length clock.now ≡ length self.old.slots }
        requires epoch { IsSomeAnd (held_of self.old tid) (λ h. (h.1 ≤ slice_index clock.now h.0) × (slice_index clock.now h.0 ≤ self.old.greatest)) }
        ensures { self.new ≡ after_end self.old tid clock.now }
    {
        let Some((sid, _)) = self.held(tid) else {
            return;
        };
        let epoch = clock.get(sid);
        let is_last = epoch == self.greatest;
        let slot = &mut self.slots[sid as usize];
        slot.end(epoch, is_last, clock);
        if !is_last {
            self.queue.push_back_reserved(sid);
        }
        let thread = &mut self.threads[tid as usize];
        thread.tell(false, self.era, clock);
        self.live -= 1;
    }

    /// Where the thread has ended, takes in the clock that it ended with in this era.
    pub fn join_thread(&mut self, of: u64, clock: &mut Clock) -> Joined
        requires same_slots { length clock.old ≡ length self.old.slots }
        ensures answer { result ≡ join_answer self.old of }
        ensures desk { self.new ≡ self.old }
        ensures clock { clock.new ≡ clock_after_join self.old of clock.old }
    {
        if of >= self.made as u64 {
            return Joined::NoSuch;
        }
        let thread = &self.threads[of as usize];
        if thread.lives {
            return Joined::Living;
        }
        if thread.told_in == self.era {
            clock.join(&thread.told);
        }
        Joined::Done
    }

    /// The thread of the slot's last attachment in this era whose first epoch is at most `epoch`.
    pub fn owner_of(&self, sid: u8, epoch: u16) -> Option<u32>
        ensures { result ≡ owner_at (slot_of self.now sid).journal epoch }
    {
        match self.slots.get(sid as usize) {
            Some(slot) => slot.owner_at(epoch),
            None => None,
        }
    }

    /// An era begins: clocks and journals are empty, and each slot is free.
    pub fn reset(&mut self)
        ensures { self.new ≡ after_reset self.old }
    {
        match self.era.checked_add(1) {
            Some(era) => self.era = era,
            None => {
                untell(&mut self.threads);
                self.era = 1;
            }
        }
        reset_slots(&mut self.slots);
        refill(&mut self.queue, self.slots.len() as u8);
    }
}

#[cfg(test)]
mod tests;

// One slot: its owner, its owners so far in the era, and what the last one left.
ghost use Rattle.std.specs.Prelude.{◌≡◌, ◌+◌, ◌-◌, ◌<◌, ◌≤◌, ◌^◌, length, IsSomeAnd, IfOk, true, replicate, All};
ghost use Rattle.vector_clock.specs.Clocks.{joined};
ghost use Rattle.slot_desk.specs.Desks.{is_free, fresh_slot, owner_at};
ghost use Rattle.slot_desk.specs.Steps.{attached_slot, spent_slot, ended_slot};

use run_record::NoMemory;
use std::alloc::Global;
use std::marker::Model;
use vector_clock::Clock;

/// A thread, and its first epoch in a slot.
#[derive(Clone, Copy, Debug, PartialEq, Eq)]
pub struct Attachment {
    pub epoch: u16,
    pub tid: u32,
}

/// The most attachments in one era. Each was ended by its thread's end, of which there are fewer
/// than 1,024, or by spending its slot, or goes on; so with 255 slots there are no more.
pub const ATTACHMENTS: usize = 1279;

#[derive(Drop)]
pub struct SlotState {
    owner: Option<Attachment>,
    spent: bool,
    last: u16,
    // Older than the era where `last` is 0.
    left: Clock,
    journal: Vec<Attachment>,
}

impl Model for SlotState {
    ghost use Rattle.slot_desk.specs.Desks.{SlotContents};

    ghost Value = { SlotContents };

    ghost use Rattle.std.specs.Prelude.{◌≤◌, ◌==◌, if◌then◌else◌, length, replicate, vec_capacity};
    ghost use Rattle.slot_desk.specs.Journals.{IsJournal};

    ghost view = { λ s. record { owner = s.owner; spent = s.spent; last = s.last; left = (if s.last == 0 then replicate (length s.left) 0 else s.left); journal = s.journal.items } };

    ghost invariant = { λ s. IsJournal s.owner s.spent s.last s.journal.items × (1279 ≤ vec_capacity s.journal) };
}

impl SlotState {
    pub fn new(alloc: Global, slots: u32) -> Result<SlotState, NoMemory>
        requires { (1 ≤ slots) × (slots ≤ 255) }
        ensures { IfOk result (λ s. s ≡ fresh_slot slots) }
    {
        Ok(SlotState {
            owner: None,
            spent: false,
            last: 0,
            left: Clock::new(alloc, slots)?,
            journal: Vec::with_capacity(alloc, ATTACHMENTS)?,
        })
    }

    pub fn owner(&self) -> Option<Attachment>
        ensures { result ≡ self.now.owner }
    {
        self.owner
    }

    // The thread becomes the owner, and its clock takes in what the last one left. The epoch is
    // answered, and is for the caller to put into the clock.
    pub fn attach(&mut self, tid: u32, clock: &mut Clock) -> u16
        requires free { is_free self.old ≡ true }
        requires below { self.old.last < 2 ^ 16 - 1 }
        requires room { length self.old.journal < 1279 }
        requires same_slots { length clock.old ≡ length self.old.left }
        ensures epoch { result ≡ self.old.last + 1 }
        ensures slot { self.new ≡ attached_slot tid self.old }
        ensures clock { clock.new ≡ joined clock.old self.old.left }
    {
        let epoch = self.last + 1;
        let was_left = self.last > 0;
        if was_left {
            clock.join(&self.left);
        }
        let owner = Attachment { epoch, tid };
        self.owner = Some(owner);
        self.journal.push_reserved(owner);
        epoch
    }

    // The owner leaves the slot, whose epochs are spent.
    pub fn spend(&mut self)
        ensures { self.new ≡ spent_slot self.old }
    {
        self.owner = None;
        self.spent = true;
    }

    // The owner ends in that epoch and leaves its clock.
    pub fn end(&mut self, epoch: u16, is_last: bool, clock: &Clock)
        requires owned { IsSomeAnd self.old.owner (λ a. a.epoch ≤ epoch) }
        requires same_slots { length clock.now ≡ length self.old.left }
        ensures { self.new ≡ ended_slot epoch is_last clock.now self.old }
    {
        self.owner = None;
        self.spent = is_last;
        self.last = epoch;
        self.left.copy_from(clock);
    }

    // An era begins.
    pub fn reset(&mut self)
        ensures { self.new ≡ fresh_slot (length self.old.left) }
    {
        self.owner = None;
        self.spent = false;
        self.last = 0;
        self.journal.clear();
    }

    // The thread of the last attachment whose first epoch is at most that.
    pub fn owner_at(&self, epoch: u16) -> Option<u32>
        ensures { result ≡ owner_at self.now.journal epoch }
    {
        let after = self.journal.partition_point(|a| a.epoch <= epoch);
        if after == 0 {
            None
        } else {
            Some(self.journal[after - 1].tid)
        }
    }
}

// As many slots as are asked for, which nobody has had.
pub fn fresh_slots(alloc: Global, slots: u32) -> Result<Vec<SlotState>, NoMemory>
    requires { (1 ≤ slots) × (slots ≤ 255) }
    ensures { IfOk result (λ v. v.items ≡ replicate slots (fresh_slot slots)) }
{
    let mut made = Vec::with_capacity(alloc, slots as usize)?;
    for _sid in 0..slots {
        made.push(SlotState::new(alloc, slots)?)?;
    }
    Ok(made)
}

// An era begins for each slot.
pub fn reset_slots(slots: &mut Vec<SlotState>)
    requires { All (λ s. length s.left ≡ length slots.old.items) slots.old.items }
    ensures { slots.new.items ≡ replicate (length slots.old.items) (fresh_slot (length slots.old.items)) }
{
    for sid in 0..slots.len() {
        let slot = &mut slots[sid];
        slot.reset();
    }
}

// A thread's trace.
ghost use Rattle.std.specs.Prelude.{◌≡◌, ℕ, ◌+◌, ◌-◌, ◌^◌, ◌<◌, ◌≤◌, List, [], ◌∷◌, ◌++◌, ◌↔◌, length, false, IsTrue, IsSome, IfOk, OnOk, OnErr};
ghost use Rattle.run_laws.specs.Window as window;
ghost use Rattle.trace_parts.specs.Held.{Holds, pushed, standing_of, with_spare, has_label};
ghost use Rattle.trace_parts.specs.Snapshot.{snapshot_after};
ghost use Rattle.trace_parts.specs.Sought.{restored, first_held, IsFirstOfAll};
ghost use Rattle.trace_parts.specs.Spelling.{IsTraceable, told};

#[cfg(test)]
mod tests;

use crate::restored::{Sought, stack_of};
use crate::ring::Ring;
use crate::{Restored, TraceEvent};
use run_record::{Items, Label, Locks, NoMemory, Places};
use std::alloc::Global;
use std::marker::Model;

/// The last events of a thread.
///
/// Events are kept as words in parts of at most `part_words` words. An event never straddles parts:
/// where its words don't fit into what is left of a part, it is the first of the next one. The last
/// `parts` parts are held, the one in progress among them, each with what stood before it. Memory
/// grows with the parts' words and with the depth of the stack, and no further.
#[derive(Drop)]
pub struct Trace {
    ring: Ring,
    count: u64,
}

impl Model for Trace {
    ghost use Rattle.trace_parts.specs.Held.{HeldTrace};
    ghost use Rattle.trace_parts.specs.Part.{held_in, IsRing, BeginsEmpty};

    ghost Value = { HeldTrace };

    ghost view = { λ t. record {
      part_words = t.ring.part_words;
      parts = t.ring.parts;
      held = held_in t.ring;
      count = t.count;
      spare = t.ring.spare;
    } };

    ghost invariant = { λ t. IsRing t.ring × BeginsEmpty t.ring };
}

impl Trace {
    /// The trace of a thread that did nothing yet.
    pub fn new(alloc: Global, part_words: u32, parts: u32) -> Result<Trace, NoMemory>
        requires least_words { 64 ≤ part_words }
        requires most_words { part_words ≤ 4096 }
        requires least_parts { 2 ≤ parts }
        requires most_parts { parts ≤ 64 }
        ensures part_words { IfOk result (λ trace. trace.part_words ≡ part_words) }
        ensures parts { IfOk result (λ trace. trace.parts ≡ parts) }
        ensures held { IfOk result (λ trace. trace.held ≡ []) }
        ensures count { IfOk result (λ trace. trace.count ≡ 0) }
        ensures spare { IfOk result (λ trace. trace.spare ≡ 0) }
        ensures holds { IfOk result (λ trace. Holds trace []) }
    {
        let ring = Ring::new(alloc, part_words, parts)?;
        Ok(Trace { ring, count: 0 })
    }

    /// Makes room for four events. After an error nothing has changed.
    pub fn room(&mut self) -> Result<(), NoMemory>
        ensures ok { OnOk result (self.new ≡ with_spare 4 self.old) }
        ensures err { OnErr result (self.new ≡ self.old) }
    {
        self.ring.make_room()?;
        self.ring.spare = 4;
        Ok(())
    }

    /// One more event. It takes no memory.
    #[inline(always)]
    pub fn push(&mut self, event: TraceEvent)
        requires traceable { IsTraceable event }
        requires spare { 0 < self.old.spare }
        requires count { self.old.count < 2 ^ 64 - 1 }
        ensures pushed { self.new ≡ pushed self.old (told event) }
        ensures holds { (events : List window.TraceEvent) → Holds self.old events →
            Holds self.new (events ++ told event ∷ []) }
        ensures standing { standing_of self.new.held ≡ snapshot_after (standing_of self.old.held) (told event) }
    {
        self.ring.push(&event);
        self.count += 1;
    }

    /// How many frames the thread's stack has.
    pub fn depth(&self) -> usize
        ensures { result ≡ length (standing_of self.now.held).frames }
    {
        self.ring.standing.frames.len()
    }

    /// The stack of the thread where it makes an access at `place`: that place, then the frames from
    /// the innermost outwards.
    pub fn stack_at(&self, place: u64) -> Result<Places, NoMemory>
        ensures { IfOk result (λ stack. stack ≡ place ∷ (standing_of self.now.held).frames) }
    {
        let stack = stack_of(self.ring.alloc, place, &self.ring.standing.frames)?;
        Ok(Items::from_vec(stack))
    }

    /// The locks that the thread keeps, the first taken first.
    pub fn locks(&self) -> Result<Locks, NoMemory>
        ensures { IfOk result (λ locks. locks ≡ (standing_of self.now.held).locks) }
    {
        let locks = Vec::from_slice(self.ring.alloc, &self.ring.standing.locks)?;
        Ok(Items::from_vec(locks))
    }

    /// The first access under that label whose cell word on the eight bytes from `granule_address`
    /// on is `word`, with its stack and locks.
    pub fn restore(
        &self,
        label: Label,
        granule_address: u64,
        word: u64,
    ) -> Result<Restored, NoMemory>
        requires { IsTrue (has_label self.now label) →
            IsSome (first_held self.now.held label granule_address word) }
        ensures found { IfOk result (λ found. found
            ≡ restored (first_held self.now.held label granule_address word)) }
        ensures lost { IfOk result (λ found. (found ≡ Restored.Lost) ↔ (has_label self.now label ≡ false)) }
        ensures first { IfOk result (IsFirstOfAll self.now label granule_address word) }
    {
        self.ring.restore(&Sought {
            label,
            granule_address,
            word,
        })
    }

    /// How many events may be pushed before the next call of `room`.
    #[inline(always)]
    pub fn spare(&self) -> u8
        ensures { result ≡ self.now.spare }
    {
        self.ring.spare
    }

    /// How many events were pushed.
    pub fn count(&self) -> u64
        ensures { result ≡ self.now.count }
    {
        self.count
    }
}

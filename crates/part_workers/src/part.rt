// What a worker has told of its part so far.
ghost use Rattle.std.specs.Prelude.{◌≡◌, ◌+◌, ◌++◌, [], max, length, IfOk, OnOk};
ghost use Rattle.part_growth.specs.Growth.{nothing_gathered};
ghost use Rattle.part_workers.specs.Parts.{gathered_in, gathered_also, head_of, TellsGathered, waits_at};
ghost use Rattle.part_workers.specs.Turns.{with_note};

use entry_calls::CallEvents;
use hart_turns::Findings;
use race_core::Candidate;
use run_record::{DeskNote, Entries, EventList, Head, NoMemory};
use std::alloc::Global;

/// Whose part it is, and in which round and era.
#[derive(Clone, Copy)]
pub struct Post {
    pub tid: u32,
    pub round: u32,
    pub era: u32,
}

/// An access that waits for the end of the round, with the stamp of its entry.
#[derive(Drop)]
pub struct Waiting {
    pub stamp: u64,
    pub candidate: Candidate,
}

/// What a worker has told of its part: the entries, and the accesses that wait for the end of the round. Behind the last entry
/// stand the instructions that were gathered: how many, their events, and what the checks of these found.
#[derive(Drop)]
pub struct PartSoFar {
    /// The last stamp.
    pub last: u64,
    pub entries: Entries,
    pub waiting: Vec<Waiting>,
    pub steps: u32,
    pub events: EventList,
    pub found: Findings,
}

impl Post {
    // The head of an entry.
    fn head(&self, stamp: u64, steps: u32) -> Head
        ensures { result ≡ head_of self.now stamp steps }
    {
        Head {
            round: self.round,
            era: self.era,
            stamp,
            tid: self.tid,
            steps,
        }
    }
}

// The accesses wait, each with that stamp.
fn wait_all(
    waiting: &mut Vec<Waiting>,
    stamp: u64,
    candidates: Vec<Candidate>,
) -> Result<(), NoMemory>
    ensures { OnOk result (waiting.new.items ≡ waiting.old.items ++ waits_at stamp candidates.items) }
{
    for candidate in candidates {
        waiting.push(Waiting { stamp, candidate })?;
    }
    Ok(())
}

impl PartSoFar {
    /// Nothing is told yet, and that is the last stamp.
    pub fn new(alloc: Global, last: u64) -> PartSoFar
        ensures last { result.last ≡ last }
        ensures entries { result.entries ≡ [] }
        ensures waiting { result.waiting.items ≡ [] }
        ensures gathered { gathered_in result ≡ nothing_gathered }
    {
        PartSoFar {
            last,
            entries: Entries::new(alloc),
            waiting: Vec::new(alloc),
            steps: 0,
            events: EventList::new(alloc),
            found: Findings::new(alloc),
        }
    }

    // The stamp that a turn draws which finds that one at its object. Past the last stamp there is no memory.
    pub(crate) fn next_stamp(&self, found: u64) -> Result<u64, NoMemory>
        ensures { IfOk result (λ stamp. stamp ≡ max self.now.last found + 1) }
    {
        let greatest = self.last.max(found);
        if greatest == u64::MAX {
            return Err(NoMemory);
        }
        Ok(greatest + 1)
    }

    // Tells a slot that the thread took or left.
    pub(crate) fn tell_note(
        &mut self,
        post: &Post,
        note: DeskNote,
        stamp: u64,
    ) -> Result<(), NoMemory>
        ensures { OnOk result (self.new ≡ with_note post.now note stamp self.old) }
    {
        self.entries.push(post.head(stamp, 0), note, &[], &[])?;
        self.last = stamp;
        Ok(())
    }

    // How many events were gathered. Of more than a number has room for there is no memory.
    pub(crate) fn count(&self) -> Result<u32, NoMemory>
        ensures { IfOk result (λ n. n ≡ length self.now.events) }
    {
        match u32::try_from(self.events.len()) {
            Ok(count) => Ok(count),
            Err(_) => Err(NoMemory),
        }
    }

    // One more instruction is gathered, with these events. What their checks found is there already.
    pub(crate) fn gather(&mut self, events: &CallEvents) -> Result<(), NoMemory>
        ensures { OnOk result (self.new ≡ gathered_also self.old events.now) }
    {
        if self.steps == u32::MAX {
            return Err(NoMemory);
        }
        self.events.extend_from_slice(events.as_slice())?;
        self.steps += 1;
        Ok(())
    }

    // Tells what was gathered, in one entry with that stamp. Nothing is gathered afterwards.
    pub(crate) fn tell_gathered(
        &mut self,
        alloc: Global,
        post: &Post,
        stamp: u64,
    ) -> Result<(), NoMemory>
        ensures { OnOk result (TellsGathered post.now stamp self.old self.new) }
    {
        let head = post.head(stamp, self.steps);
        let checks = self.found.checks.as_slice();
        self.entries
            .push(head, DeskNote::Nothing, self.events.as_slice(), checks)?;
        let candidates = std::mem::replace(&mut self.found.waiting, Vec::new(alloc));
        wait_all(&mut self.waiting, stamp, candidates)?;
        self.events.clear();
        self.found.checks.clear();
        self.steps = 0;
        self.last = stamp;
        Ok(())
    }
}

// The parts of a trace in memory.
ghost use Rattle.std.specs.Prelude.{◌≡◌, ℕ, ◌+◌, ◌-◌, ◌*◌, ◌<◌, ◌≤◌, [], length, take, find, None, IfOk, OnOk, vec_len, vec_capacity, if◌then◌else◌, nat_lt};
ghost use Rattle.std.specs.Option.{option_map};
ghost use Rattle.std.specs.VecDeque.{deque_len, deque_capacity};
ghost use Rattle.trace_parts.specs.Spelling.{IsTraceable, told};
ghost use Rattle.trace_parts.specs.Held.{with_pushed};
ghost use Rattle.trace_parts.specs.Part.{place_then};

use crate::label_range::LabelRange;
use crate::restored::Sought;
use crate::standing::Standing;
use crate::{Restored, TraceEvent, Words, encode};
use run_record::NoMemory;
use std::alloc::Global;
use std::collections::VecDeque;
use std::mem;

/// For so many events `make_room` makes room.
const EVENTS: usize = 4;

/// Some events in a row, what stood before them, and which labels may be among them.
#[derive(Drop)]
pub(crate) struct Part {
    pub(crate) words: Vec<u64>,
    pub(crate) before: Standing,
    pub(crate) labels: LabelRange,
}

impl Part {
    ghost use Rattle.trace_parts.specs.Snapshot.{after_all};
    ghost use Rattle.trace_parts.specs.Sought.{is_under, is_sought, told_of, seen_from};
    ghost use Rattle.trace_parts.specs.Part.{start_under, told_from, IsSpelled, IsRangeOf};

    fn new(alloc: Global) -> Part {
        Part {
            words: Vec::new(alloc),
            before: Standing::new(alloc),
            labels: LabelRange::Empty,
        }
    }

    /// The first sought access of the part, where that label stands before it. The part is walked
    /// only where its accesses may be under the sought label.
    fn seek(
        &self,
        sought: &Sought,
        alloc: Global,
        standing: &mut Standing,
    ) -> Result<Option<Restored>, NoMemory>
        requires spelled { IsSpelled 0 self.now.words.items }
        requires labels { IsRangeOf self.now.labels (told_from self.now.words.items) }
        ensures found { IfOk result (λ found. found ≡ option_map told_of (find
            (is_sought sought.now.label sought.now.granule_address sought.now.word)
            (seen_from (start_under standing.old.label self.now) (told_from self.now.words.items)))) }
        ensures passed { IfOk result (λ found. found ≡ None →
            is_under sought.now.label standing.new.label ≡ is_under sought.now.label
            (after_all (start_under standing.old.label self.now) (told_from self.now.words.items)).label) }
    {
        let label = standing.label;
        if !sought.is_under(&label) && !self.labels.contains(&sought.label) {
            return Ok(None);
        }
        standing.copy_from(&self.before)?;
        standing.label = label;
        sought.seek(alloc, &self.words, standing)
    }
}

/// The held parts, of which the current one is in progress.
#[derive(Drop)]
pub(crate) struct Ring {
    /// How many words a part has at most: 64 to 4,096.
    pub(crate) part_words: u32,
    /// How many parts are held at most: 2 to 64.
    pub(crate) parts: u32,
    /// How many events may be pushed before memory is taken.
    pub(crate) spare: u8,
    /// The parts before the current one, the newest first.
    pub(crate) older: VecDeque<Part>,
    pub(crate) current: Part,
    /// What the next part will lie in; nothing in it counts.
    pub(crate) next: Part,
    /// After the last event.
    pub(crate) standing: Standing,
    /// The place of the last access in the current part, or 0.
    pub(crate) previous: u64,
    pub(crate) alloc: Global,
}

impl Ring {
    ghost use Rattle.trace_parts.specs.Sought.{restored, first_held};
    ghost use Rattle.trace_parts.specs.Part.{snapshot_of, held_in, HasRoom, IsRing, BeginsEmpty, NextIsReady, OnlyRoomGrew, Begins, Appends};

    /// No part has begun.
    pub(crate) fn new(alloc: Global, part_words: u32, parts: u32) -> Result<Ring, NoMemory>
        requires words { 64 ≤ part_words }
        requires parts { 2 ≤ parts }
        ensures sound { IfOk result (λ ring. IsRing ring) }
        ensures empty { IfOk result (λ ring. BeginsEmpty ring) }
        ensures held { IfOk result (λ ring. held_in ring ≡ []) }
        ensures part_words { IfOk result (λ ring. ring.part_words ≡ part_words) }
        ensures parts { IfOk result (λ ring. ring.parts ≡ parts) }
        ensures spare { IfOk result (λ ring. ring.spare ≡ 0) }
    {
        let older = VecDeque::with_capacity(alloc, parts as usize - 1)?;
        let words = Vec::with_capacity(alloc, part_words as usize)?;
        Ok(Ring {
            part_words,
            parts,
            spare: 0,
            older,
            current: Part {
                words,
                before: Standing::new(alloc),
                labels: LabelRange::Empty,
            },
            next: Part::new(alloc),
            standing: Standing::new(alloc),
            previous: 0,
            alloc,
        })
    }

    /// Makes room for four events. A failure leaves some of the room, and changes nothing else.
    pub(crate) fn make_room(&mut self) -> Result<(), NoMemory>
        ensures grew { OnlyRoomGrew self.old self.new }
        ensures now { OnOk result (HasRoom 4 self.new.standing) }
        ensures next { OnOk result (NextIsReady 4 self.new) }
    {
        self.standing.reserve(EVENTS)?;
        self.next.before.reserve_copy(&self.standing, EVENTS)?;
        let part_words = self.part_words as usize;
        if self.older.len() + 1 < self.parts as usize && self.next.words.capacity() < part_words {
            self.next.words = Vec::with_capacity(self.alloc, part_words)?;
        }
        Ok(())
    }

    /// Buffers for the part after the next one. Where as many parts are held as may be, the oldest
    /// is dropped: its words become the next part's.
    fn recycled(&mut self) -> Part
        requires sound { IsRing self.old }
        requires full { self.old.part_words < vec_len self.old.current.words + 3 * self.old.spare }
        ensures part_words { self.new.part_words ≡ self.old.part_words }
        ensures parts { self.new.parts ≡ self.old.parts }
        ensures spare { self.new.spare ≡ self.old.spare }
        ensures current { self.new.current ≡ self.old.current }
        ensures now { self.new.standing ≡ self.old.standing }
        ensures before { self.new.next.before ≡ self.old.next.before }
        ensures words { self.old.part_words ≤ vec_capacity self.new.next.words }
        ensures older { self.new.older.items ≡ take (self.old.parts - 2) self.old.older.items }
        ensures fewer { deque_len self.new.older + 1 < self.old.parts }
        ensures older_room { deque_capacity self.new.older ≡ deque_capacity self.old.older }
    {
        if self.older.len() + 1 < self.parts as usize {
            return Part::new(self.alloc);
        }
        match self.older.pop_back() {
            Some(mut oldest) => {
                mem::swap(&mut oldest.words, &mut self.next.words);
                oldest
            }
            None => unreachable!(),
        }
    }

    /// The next part begins. The current one is full, so there is room for this.
    #[cold]
    #[inline(never)]
    fn begin_part(&mut self)
        requires sound { IsRing self.old }
        requires full { self.old.part_words < vec_len self.old.current.words + 3 * self.old.spare }
        ensures { Begins self.old self.new }
    {
        let buffers = self.recycled();
        let mut begun = mem::replace(&mut self.next, buffers);
        begun.words.clear();
        begun.labels = LabelRange::Empty;
        let _copied = begun.before.copy_from(&self.standing);
        let ended = mem::replace(&mut self.current, begun);
        self.older.push_front_reserved(ended);
        self.previous = 0;
    }

    /// One more event in the current part, where its words fit.
    #[inline(always)]
    fn append(&mut self, event: &TraceEvent, words: &Words)
        requires spare { 0 < self.old.spare }
        requires room { vec_len self.old.current.words + length words.now ≤ vec_capacity self.old.current.words }
        requires now_room { HasRoom 1 self.old.standing }
        ensures { Appends event.now words.now self.old self.new }
    {
        words.append_to(&mut self.current.words);
        let _noted = self.standing.note(event);
        self.current.labels.include_event(event);
        self.previous = place_after(self.previous, event);
        self.spare -= 1;
    }

    /// One more event: in the current part, or in a new one where its words don't fit there.
    #[inline(always)]
    pub(crate) fn push(&mut self, event: &TraceEvent)
        requires sound { IsRing self.old }
        requires begins { BeginsEmpty self.old }
        requires spare { 0 < self.old.spare }
        requires traceable { IsTraceable event.now }
        ensures sound { IsRing self.new }
        ensures begins { BeginsEmpty self.new }
        ensures held { held_in self.new ≡ take self.old.parts
            (with_pushed self.old.part_words (held_in self.old) (told event.now)) }
        ensures part_words { self.new.part_words ≡ self.old.part_words }
        ensures parts { self.new.parts ≡ self.old.parts }
        ensures spare { self.new.spare + 1 ≡ self.old.spare }
    {
        let words = encode(event, self.previous);
        if self.current.words.len() + usize::from(words.count()) <= self.part_words as usize {
            self.append(event, &words);
        } else {
            self.begin_part();
            self.append(event, &encode(event, 0));
        }
    }

    /// What is told of the first sought access of the held parts.
    pub(crate) fn restore(&self, sought: &Sought) -> Result<Restored, NoMemory>
        requires sound { IsRing self.now }
        requires begins { BeginsEmpty self.now }
        ensures { IfOk result (λ found. found ≡ restored
            (first_held (held_in self.now) sought.now.label sought.now.granule_address sought.now.word)) }
    {
        let mut standing = Standing::new(self.alloc);
        for i in (0..self.older.len()).rev() {
            let part = &self.older[i];
            if let Some(found) = part.seek(sought, self.alloc, &mut standing)? {
                return Ok(found);
            }
        }
        match self.current.seek(sought, self.alloc, &mut standing)? {
            Some(found) => Ok(found),
            None => Ok(Restored::Lost),
        }
    }
}

/// The place of the last access.
#[inline(always)]
pub(crate) fn place_after(previous: u64, event: &TraceEvent) -> u64
    ensures { result ≡ place_then previous event.now }
{
    match *event {
        TraceEvent::Access { place, .. } => place,
        _ => previous,
    }
}

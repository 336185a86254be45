// An earlier access, found again in a trace.
ghost use Rattle.std.specs.Prelude.{◌≡◌, ℕ, ◌+◌, ◌-◌, ◌^◌, ◌<◌, ◌≤◌, ◌==◌, ◌&&◌, ◌∷◌, List, length, reverse, min, find, Bool, None, Some, IfOk, OnOk};
ghost use Rattle.std.specs.Option.{option_map};
ghost use Rattle.run_laws.specs.Accesses.{Access, end_of};
ghost use Rattle.run_laws.specs.Words.{word_of};
ghost use Rattle.trace_parts.specs.Part.{snapshot_of};
ghost use Rattle.trace_parts.specs.Snapshot.{snapshot_after, after_all};
ghost use Rattle.trace_parts.specs.Sought as sought;
ghost use Rattle.trace_parts.specs.Sought.{access};
ghost use Rattle.trace_parts.specs.Spelling.{told, kind_of, words_of_kind, fields_at};
ghost use Rattle.trace_parts.specs.declared.event.TraceEvent.{TraceEvent as Traced};
ghost use Rattle.trace_parts.specs.declared.event.TraceEvent.TheVariants as variants;

use crate::TraceEvent;
use crate::spell::{bits, label_in, short_place};
use crate::standing::Standing;
use run_record::{Items, Label, Locks, NoMemory, Places};
use std::alloc::{AllocError, Global};

/// What is told of an earlier access.
#[derive(Drop)]
pub enum Restored {
    Found {
        place: u64,
        addr: u64,
        /// In bytes.
        size: u32,
        /// The access's place, then the frames from the innermost outwards.
        stack: Places,
        /// The locks that the thread kept, the first taken first.
        locks: Locks,
    },
    /// The event of the access's label is held no more.
    Lost,
}

/// What an access is sought by: its label, and its cell word on the eight bytes from an address on.
#[derive(Clone, Copy)]
pub(crate) struct Sought {
    pub(crate) label: Label,
    pub(crate) granule_address: u64,
    pub(crate) word: u64,
}

impl Sought {
    ghost use Rattle.trace_parts.specs.Sought.{is_under, is_sought, leaves_word, told_of, seen_from};
    ghost use Rattle.trace_parts.specs.Part.{IsSpelled, told_from};

    pub(crate) fn is_under(&self, label: &Option<Label>) -> bool
        ensures { result ≡ is_under self.now.label label.now }
    {
        match label {
            Some(label) => {
                label.sid == self.label.sid
                    && label.epoch == self.label.epoch
                    && label.era == self.label.era
            }
            None => false,
        }
    }

    /// The cell word for these bytes is the sought one.
    fn has_word(&self, mask: u64, read: bool, atomic: bool) -> bool
        requires { mask < 2 ^ 8 }
        ensures { result ≡ (word_of mask self.now.label read atomic == self.now.word) }
    {
        let Label { sid, epoch, era } = self.label;
        let low = mask
            + u64::from(sid) * 0x100
            + u64::from(epoch) * 0x1_0000
            + u64::from(read) * 0x4000_0000
            + u64::from(atomic) * 0x8000_0000;
        let high = u64::from(era) * 0x1_0000_0000;
        low <= self.word && self.word - low == high
    }

    /// Whether the access leaves the sought word, where it is known whether the label is the sought one.
    #[inline(always)]
    fn is_left_by(&self, under: bool, announced: &AccessWords) -> bool
        ensures { (place : ℕ) → result ≡ (under
            && leaves_word self.now.label self.now.granule_address self.now.word
            (access place announced.now.addr announced.now.size announced.now.read announced.now.atomic)) }
    {
        if !under {
            return false;
        }
        let mask = mask_at(announced.addr, announced.size, self.granule_address);
        mask != 0 && self.has_word(mask, announced.read, announced.atomic)
    }

    /// Goes through the events that the words spell, up to the first sought access.
    pub(crate) fn seek(
        &self,
        alloc: Global,
        words: &[u64],
        standing: &mut Standing,
    ) -> Result<Option<Restored>, NoMemory>
        requires { IsSpelled 0 words.now }
        ensures found { IfOk result (λ found. found ≡ option_map told_of (find
            (is_sought self.now.label self.now.granule_address self.now.word)
            (seen_from (snapshot_of standing.old) (told_from words.now)))) }
        ensures passed { IfOk result (λ found. found ≡ None →
            snapshot_of standing.new ≡ after_all (snapshot_of standing.old) (told_from words.now)) }
    {
        let mut rest = words;
        let mut previous = 0;
        let mut under = self.is_under(&standing.label);
        while !rest.is_empty() {
            if bits(rest[0], 0, 3) > 2 {
                let count = note_first(standing, rest)?;
                under = self.is_under(&standing.label);
                (_, rest) = rest.split_at(count);
                continue;
            }
            let access = first_access(rest, previous);
            if self.is_left_by(under, &access) {
                return Ok(Some(told_at(alloc, standing, &access)?));
            }
            previous = access.place;
            (_, rest) = rest.split_at(access.words);
        }
        Ok(None)
    }
}

/// An access as words have it, and how many words it takes.
#[derive(Drop)]
struct AccessWords {
    place: u64,
    addr: u64,
    size: u32,
    read: bool,
    atomic: bool,
    words: usize,
}

/// The access with which these words begin.
#[inline(always)]
fn first_access(words: &[u64], previous: u64) -> AccessWords
    requires some { 0 < length words.now }
    requires whole { words_of_kind (kind_of words.now) ≤ length words.now }
    requires kind { kind_of words.now ≤ 2 }
    ensures words { result.words ≡ words_of_kind (kind_of words.now) }
    ensures fields { (e : Traced) → fields_at previous words.now ≡ Some e →
        e ≡ variants.Access result.place result.addr result.size result.read result.atomic }
{
    let word = words[0];
    let read = bits(word, 3, 1) == 1;
    let atomic = bits(word, 4, 1) == 1;
    if bits(word, 0, 3) == 2 {
        return AccessWords {
            place: words[1],
            addr: words[2],
            size: bits(word, 8, 17) as u32,
            read,
            atomic,
            words: 3,
        };
    }
    AccessWords {
        place: short_place(previous, word),
        addr: word >> 23,
        size: 1 << bits(word, 5, 2),
        read,
        atomic,
        words: 1,
    }
}

/// Notes the event with which these words begin, which isn't an access. Gives how many words it takes.
#[inline(always)]
fn note_first(standing: &mut Standing, words: &[u64]) -> Result<usize, NoMemory>
    requires some { 0 < length words.now }
    requires whole { words_of_kind (kind_of words.now) ≤ length words.now }
    requires kind { 2 < kind_of words.now }
    ensures words { IfOk result (λ count. count ≡ words_of_kind (kind_of words.now)) }
    ensures noted { (previous : ℕ) (e : Traced) → fields_at previous words.now ≡ Some e →
        OnOk result (snapshot_of standing.new ≡ snapshot_after (snapshot_of standing.old) (told e)) }
{
    let word = words[0];
    let read = bits(word, 3, 1) == 1;
    let kind = bits(word, 0, 3);
    if kind == 3 {
        standing.note(&TraceEvent::Enter { pc: words[1] })?;
        return Ok(2);
    }
    if kind == 4 {
        standing.note(&TraceEvent::Leave)?;
        return Ok(1);
    }
    if kind == 5 {
        let addr = words[1];
        standing.note(&TraceEvent::Lock { addr, read })?;
        return Ok(2);
    }
    if kind == 6 {
        let addr = words[1];
        standing.note(&TraceEvent::Unlock { addr, read })?;
        return Ok(2);
    }
    standing.note(&label_in(word))?;
    Ok(1)
}

/// What is told of an access before which the thread stands so.
fn told_at(alloc: Global, standing: &Standing, access: &AccessWords) -> Result<Restored, NoMemory>
    ensures { IfOk result (λ found. found ≡ Restored.Found access.now.place access.now.addr access.now.size
        (access.now.place ∷ (snapshot_of standing.now).frames) (snapshot_of standing.now).locks) }
{
    let stack = stack_of(alloc, access.place, &standing.frames)?;
    let locks = Vec::from_slice(alloc, &standing.locks)?;
    Ok(Restored::Found {
        place: access.place,
        addr: access.addr,
        size: access.size,
        stack: Items::from_vec(stack),
        locks: Items::from_vec(locks),
    })
}

/// The bytes that an access covers among the eight from `address` on, the least bit for the first.
fn mask_at(addr: u64, size: u32, address: u64) -> u64
    ensures value { (place : ℕ) (read atomic : Bool) →
        result ≡ sought.mask_at (access place addr size read atomic) address }
    ensures small { result < 2 ^ 8 }
{
    let end = (u128::from(addr) + u128::from(size)).min(1 << 64);
    let last = end.saturating_sub(u128::from(address)).min(8) as u32;
    let first = addr.saturating_sub(address).min(8) as u32;
    (1 << last) - (1 << first)
}

/// The place, then the frames from the innermost outwards.
pub(crate) fn stack_of(alloc: Global, place: u64, frames: &[u64]) -> Result<Vec<u64>, AllocError>
    ensures { IfOk result (λ stack. stack.items ≡ place ∷ reverse frames.now) }
{
    let mut stack = Vec::from_slice(alloc, frames)?;
    stack.push(place)?;
    stack.reverse();
    Ok(stack)
}

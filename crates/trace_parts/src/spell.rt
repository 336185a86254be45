// Events as words, and words as events.
ghost use Rattle.std.specs.Prelude.{◌≡◌, ℕ, ◌+◌, ◌*◌, ◌/◌, ◌%◌, ◌^◌, ◌<◌, ◌≤◌, List, [], ◌∷◌, ◌++◌, length, vec_len, vec_capacity, IfSome, Some, IsTrue};
ghost use Rattle.run_laws.specs.Window as window;
ghost use Rattle.trace_parts.specs.Spelling as spelling;
ghost use Rattle.trace_parts.specs.Spelling.{IsTraceable, IsSpelledAt};
ghost use Rattle.trace_parts.specs.declared.event.TraceEvent.{TraceEvent as Traced};

#[cfg(test)]
mod tests;

use crate::TraceEvent;
use std::marker::Model;

/// One to three words, which contracts see as a list.
#[derive(Drop)]
pub struct Words {
    words: [u64; 3],
    count: u8,
}

/// The words of an event, where `previous` is the place of the last access in the same part, or 0
/// at its beginning.
///
/// The low three bits of the first word are the kind: 1 an access in one word, 2 an access in three,
/// 3 Enter, 4 Leave, 5 Lock, 6 Unlock, 7 Label. Of an access bit 3 says that it reads and bit 4 that
/// it is atomic. In one word, bits 5 and 6 are the size's power of 2, bits 7 to 22 the distance from
/// `previous` in units of four bytes plus 32,768, and bits 23 to 63 the address; this form is used
/// wherever it fits. In three words, bits 8 to 24 are the size, then come the place and the address.
/// A Lock or Unlock has bit 3 for a read lock, and then the address; an Enter has then its address.
/// A Label has its slot in bits 8 to 15, its epoch in bits 16 to 29 and its era in bits 32 to 63.
#[inline(always)]
#[tactic(auto, unfolding(crate::specs::Spelling::spelling))]
pub fn encode(event: &TraceEvent, previous: u64) -> Words
    requires { IsTraceable event.now }
    ensures words { result ≡ spelling.spelling previous event.now }
    ensures traceable { IsTrue (spelling.is_traceable event.now) }
{
    match *event {
        TraceEvent::Access {
            place,
            addr,
            size,
            read,
            atomic,
        } => {
            if is_short(previous, place, addr, size) {
                one(short_word(previous, place, addr, size, read, atomic))
            } else {
                three(long_word(size, read, atomic), place, addr)
            }
        }
        TraceEvent::Enter { pc } => two(3, pc),
        TraceEvent::Leave => one(4),
        TraceEvent::Lock { addr, read } => two(lock_word(5, read), addr),
        TraceEvent::Unlock { addr, read } => two(lock_word(6, read), addr),
        TraceEvent::Label { sid, epoch, era } => one(label_word(sid, epoch, era)),
    }
}

/// The event with whose words these begin, and how many words it takes; `None` exactly where the
/// words begin with those of no event. Each event has one spelling.
pub fn decode(words: &[u64], previous: u64) -> Option<(TraceEvent, u8)>
    ensures found { IfSome result (λ r. IsSpelledAt previous r.0 r.1 words.now) }
    ensures spelled { (e : Traced) (rest : List ℕ) → IsTrue (spelling.is_traceable e) →
        words.now ≡ spelling.spelling previous e ++ rest →
        result ≡ Some (e, length (spelling.spelling previous e)) }
{
    let event = fields_in(words, previous)?;
    if !is_traceable(&event) {
        return None;
    }
    let spelled = encode(&event, previous);
    if words.starts_with(spelled.as_slice()) {
        Some((event, spelled.count()))
    } else {
        None
    }
}

/// The event in the fields of the words, whatever stands in the other bits.
#[tactic(auto, unfolding(crate::specs::Spelling::fields_in))]
fn fields_in(words: &[u64], previous: u64) -> Option<TraceEvent>
    ensures { result ≡ spelling.fields_at previous words.now }
{
    let (first, rest) = words.split_first()?;
    let word = *first;
    let read = bits(word, 3, 1) == 1;
    match bits(word, 0, 3) {
        1 => Some(short_in(previous, word)),
        2 => long_in(word, rest),
        3 => Some(TraceEvent::Enter { pc: *rest.first()? }),
        4 => Some(TraceEvent::Leave),
        5 => Some(TraceEvent::Lock {
            addr: *rest.first()?,
            read,
        }),
        6 => Some(TraceEvent::Unlock {
            addr: *rest.first()?,
            read,
        }),
        7 => Some(label_in(word)),
        _ => None,
    }
}

/// The place of an access in one word.
pub(crate) fn short_place(previous: u64, word: u64) -> u64
    ensures { result ≡ spelling.place_from previous (spelling.bits word 7 16 * 4) }
{
    previous
        .wrapping_add(bits(word, 7, 16) * 4)
        .wrapping_sub(131_072)
}

fn short_in(previous: u64, word: u64) -> TraceEvent
    ensures { result ≡ spelling.short_in previous word }
{
    TraceEvent::Access {
        place: short_place(previous, word),
        addr: word >> 23,
        size: 1 << bits(word, 5, 2),
        read: bits(word, 3, 1) == 1,
        atomic: bits(word, 4, 1) == 1,
    }
}

fn long_in(word: u64, rest: &[u64]) -> Option<TraceEvent>
    ensures { result ≡ spelling.long_in word rest.now }
{
    let (place, rest) = rest.split_first()?;
    let addr = rest.first()?;
    Some(TraceEvent::Access {
        place: *place,
        addr: *addr,
        size: bits(word, 8, 17) as u32,
        read: bits(word, 3, 1) == 1,
        atomic: bits(word, 4, 1) == 1,
    })
}

#[inline(always)]
pub(crate) fn label_in(word: u64) -> TraceEvent
    ensures { result ≡ spelling.label_in word }
{
    TraceEvent::Label {
        sid: bits(word, 8, 8) as u8,
        epoch: bits(word, 16, 14) as u16,
        era: (word >> 32) as u32,
    }
}

/// Some bits of a word.
#[inline(always)]
pub(crate) fn bits(word: u64, from: u32, count: u32) -> u64
    requires from { from < 64 }
    requires count { count < 64 }
    ensures value { result ≡ spelling.bits word from count }
    ensures small { result < 2 ^ count }
{
    (word >> from) % (1 << count)
}

/// Sizes are at most 65,536, and epochs at most 16,383.
fn is_traceable(event: &TraceEvent) -> bool
    ensures value { result ≡ spelling.is_traceable event.now }
    ensures traceable { IsTrue result → IsTraceable event.now }
{
    match *event {
        TraceEvent::Access { place, size, .. } => {
            let _place = place;
            size <= 65_536
        }
        TraceEvent::Label { sid, epoch, .. } => {
            let _sid = sid;
            epoch <= 16_383
        }
        _ => true,
    }
}

impl Model for Words {
    ghost use Rattle.std.specs.Prelude.{ℕ, ◌≤◌, List, take};

    ghost Value = { List ℕ };

    ghost view = { λ w. take w.count w.words };

    ghost invariant = { λ w. w.count ≤ 3 };
}

impl Words {
    #[inline(always)]
    pub fn as_slice(&self) -> &[u64]
        ensures { result.now ≡ self.now }
    {
        &self.words[..usize::from(self.count)]
    }

    #[inline(always)]
    pub fn count(&self) -> u8
        ensures { result ≡ length self.now }
    {
        self.count
    }

    /// Appends the words, for which there is room.
    #[inline(always)]
    pub(crate) fn append_to(&self, words: &mut Vec<u64>)
        requires { vec_len words.old + length self.now ≤ vec_capacity words.old }
        ensures items { words.new.items ≡ words.old.items ++ self.now }
        ensures capacity { vec_capacity words.old ≤ vec_capacity words.new }
    {
        if self.count == 1 {
            let _written = words.push(self.words[0]);
        } else {
            let _written = words.extend_from_slice(self.as_slice());
        }
    }
}

#[inline(always)]
fn one(first: u64) -> Words
    ensures { result ≡ first ∷ [] }
{
    Words {
        words: [first, 0, 0],
        count: 1,
    }
}

#[inline(always)]
fn two(first: u64, second: u64) -> Words
    ensures { result ≡ first ∷ second ∷ [] }
{
    Words {
        words: [first, second, 0],
        count: 2,
    }
}

#[inline(always)]
fn three(first: u64, second: u64, third: u64) -> Words
    ensures { result ≡ first ∷ second ∷ third ∷ [] }
{
    Words {
        words: [first, second, third],
        count: 3,
    }
}

/// How far a place is from the previous one, as a signed number of 64 bits, plus 131,072.
#[inline(always)]
fn distance(previous: u64, place: u64) -> u64
    ensures { result ≡ window.distance previous place }
{
    place.wrapping_sub(previous).wrapping_add(131_072)
}

/// An access takes one word where its size is 1, 2, 4 or 8, its address is below 2^41, and its place
/// is a multiple of four bytes from 131,072 before the previous place to 131,068 behind it.
#[inline(always)]
fn is_short(previous: u64, place: u64, addr: u64, size: u32) -> bool
    ensures { result ≡ window.is_short previous place addr size }
{
    let far = distance(previous, place);
    (size == 1 || size == 2 || size == 4 || size == 8)
        && addr < 1 << 41
        && far % 4 == 0
        && far <= 262_140
}

#[inline(always)]
fn power_of(size: u32) -> u64
    ensures value { result ≡ spelling.power_of size }
    ensures small { result < 4 }
{
    match size {
        1 => 0,
        2 => 1,
        4 => 2,
        _ => 3,
    }
}

#[inline(always)]
fn short_word(previous: u64, place: u64, addr: u64, size: u32, read: bool, atomic: bool) -> u64
    requires { IsTrue (window.is_short previous place addr size) }
    ensures { result ≡ spelling.short_word previous place addr size read atomic }
{
    1 + u64::from(read) * 8
        + u64::from(atomic) * 16
        + power_of(size) * 32
        + distance(previous, place) / 4 * 128
        + addr * 0x80_0000
}

#[inline(always)]
fn long_word(size: u32, read: bool, atomic: bool) -> u64
    requires { size ≤ 65536 }
    ensures { result ≡ spelling.long_word size read atomic }
{
    2 + u64::from(read) * 8 + u64::from(atomic) * 16 + u64::from(size) * 256
}

#[inline(always)]
fn lock_word(kind: u64, read: bool) -> u64
    requires { kind < 8 }
    ensures { result ≡ spelling.lock_word kind read }
{
    kind + u64::from(read) * 8
}

#[inline(always)]
fn label_word(sid: u8, epoch: u16, era: u32) -> u64
    requires { epoch ≤ 16383 }
    ensures { result ≡ spelling.label_word sid epoch era }
{
    7 + u64::from(sid) * 0x100 + u64::from(epoch) * 0x1_0000 + u64::from(era) * 0x1_0000_0000
}

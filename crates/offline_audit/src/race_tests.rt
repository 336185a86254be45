// Racing pairs of small histories, and their text.
use crate::{Order, pair_texts, pairs};
use elf_image::load;
use report_text::{Pair, Pairs};
use run_record::{DeskNote, Entries, Event, Head, NoMemory, Part, Record};
use std::alloc::{AllocError, Global};
use std::test::Fail;
use symbol_lines::Unnamed;

// An instruction at 0x10000 and 1,024 bytes of data at 0x1000000.
fn file(alloc: Global) -> Result<Vec<u8>, AllocError> {
    let mut bytes = Vec::new(alloc);
    bytes.extend_from_slice(&[0x7f, 0x45, 0x4c, 0x46, 2, 1, 1, 0, 0, 0, 0, 0, 0, 0, 0, 0])?;
    bytes.extend_from_slice(&[2, 0, 243, 0, 1, 0, 0, 0])?;
    for field in [0x1_0000u64, 64, 0] {
        bytes.extend_from_slice(&field.to_le_bytes())?;
    }
    bytes.extend_from_slice(&[0, 0, 0, 0, 64, 0, 56, 0, 2, 0, 64, 0, 0, 0, 0, 0])?;
    bytes.extend_from_slice(&[1, 0, 0, 0, 5, 0, 0, 0])?;
    for field in [176u64, 0x1_0000, 0x1_0000, 4, 4, 4] {
        bytes.extend_from_slice(&field.to_le_bytes())?;
    }
    bytes.extend_from_slice(&[1, 0, 0, 0, 6, 0, 0, 0])?;
    for field in [176u64, 0x100_0000, 0x100_0000, 0, 1024, 8] {
        bytes.extend_from_slice(&field.to_le_bytes())?;
    }
    bytes.extend_from_slice(&[0x73, 0, 0, 0])?;
    Ok(bytes)
}

// An entry of the thread in that era.
fn put(entries: &mut Entries, era: u32, tid: u32, events: &[Event]) -> Result<(), NoMemory> {
    let head = Head {
        round: era,
        era,
        stamp: 0,
        tid,
        steps: 1,
    };
    entries.push(head, DeskNote::Nothing, events, &[])
}

// The entries of two threads, the first of which made the other.
fn two_threads(alloc: Global, first: &[Event], second: &[Event]) -> Result<Record, NoMemory> {
    let mut entries = Entries::new(alloc);
    put(&mut entries, 0, 0, &[Event::Create(1)])?;
    put(&mut entries, 0, 1, &[Event::Begin])?;
    put(&mut entries, 0, 0, first)?;
    put(&mut entries, 0, 1, second)?;
    Ok(Record { entries })
}

fn racing(alloc: Global, history: &Record) -> Result<Pairs, Fail> {
    let bytes = file(alloc)?;
    let image = load(alloc, bytes.as_slice())?;
    let order = Order::new(alloc, history)?;
    let found = pairs(alloc, &image, history, &order)?;
    Ok(found)
}

fn access(place: u64, addr: u64, size: u32) -> Event {
    Event::Access {
        place,
        addr,
        size,
        read: false,
        atomic: false,
    }
}

fn write_at(place: u64) -> Event {
    access(place, 0x100_0000, 8)
}

fn read_at(place: u64) -> Event {
    Event::Access {
        place,
        addr: 0x100_0000,
        size: 8,
        read: true,
        atomic: false,
    }
}

fn atomic_at(place: u64, read: bool) -> Event {
    Event::Access {
        place,
        addr: 0x100_0000,
        size: 8,
        read,
        atomic: true,
    }
}

const LOW_HIGH: [Pair; 1] = [Pair {
    low: 0x10028,
    high: 0x10054,
}];

#[test]
fn two_writes_in_no_order(rt: HostRuntime) -> Result<(), Fail> {
    let alloc = rt.alloc();
    let history = two_threads(alloc, &[write_at(0x10054)], &[write_at(0x10028)])?;
    let found = racing(alloc, &history)?;
    assert_eq!(rt; found.as_slice(), LOW_HIGH.as_slice());
    let bytes = file(alloc)?;
    let image = load(alloc, bytes.as_slice())?;
    let told = pair_texts(alloc, &image, &history, &Unnamed)?;
    assert_eq!(rt; (told.count, told.texts.len()), (1, 2));
    let line = b"race: ?? ??:0 (0x0000000000010028) / ?? ??:0 (0x0000000000010054)\n";
    assert_eq!(rt; told.texts[0].as_slice(), line.as_slice());
    assert_eq!(rt; told.texts[1].as_slice(), b"audit: 1 pairs\n".as_slice());
    Ok(())
}

// What a thread makes that takes a mutex, makes one event, and gives the mutex back.
fn locked(event: Event) -> [Event; 6] {
    let addr = 0x100_0040;
    [
        Event::Lock { addr, read: false },
        Event::Acquire {
            addr,
            part: Part::Main,
        },
        Event::Acquire {
            addr,
            part: Part::Readers,
        },
        event,
        Event::Unlock { addr, read: false },
        Event::Release {
            addr,
            part: Part::Main,
            replaces: true,
        },
    ]
}

#[test]
fn a_mutex_orders_two_writes(rt: HostRuntime) -> Result<(), Fail> {
    let alloc = rt.alloc();
    let first = locked(write_at(0x10028));
    let second = locked(write_at(0x10054));
    let history = two_threads(alloc, &first, &second)?;
    let found = racing(alloc, &history)?;
    assert!(rt; found.as_slice().is_empty());
    Ok(())
}

// The first thread's write comes after it gave the mutex back.
#[test]
fn a_write_behind_the_mutex(rt: HostRuntime) -> Result<(), Fail> {
    let alloc = rt.alloc();
    let [lock, main, readers, inside, unlock, release] = locked(write_at(0x10028));
    let first = [lock, main, readers, unlock, release, inside];
    let second = locked(write_at(0x10054));
    let history = two_threads(alloc, &first, &second)?;
    let found = racing(alloc, &history)?;
    assert_eq!(rt; found.as_slice(), LOW_HIGH.as_slice());
    Ok(())
}

#[test]
fn an_atomic_write_with_a_plain_one(rt: HostRuntime) -> Result<(), Fail> {
    let alloc = rt.alloc();
    let history = two_threads(alloc, &[atomic_at(0x10028, false)], &[write_at(0x10054)])?;
    let found = racing(alloc, &history)?;
    assert_eq!(rt; found.as_slice(), LOW_HIGH.as_slice());
    Ok(())
}

// Two atomic writes, two reads of which one is atomic, and a write of another word.
#[test]
fn accesses_that_do_not_conflict(rt: HostRuntime) -> Result<(), Fail> {
    let alloc = rt.alloc();
    let first = [atomic_at(0x10028, false)];
    let second = [atomic_at(0x10054, false), access(0x10058, 0x100_0008, 8)];
    let history = two_threads(alloc, &first, &second)?;
    let found = racing(alloc, &history)?;
    assert!(rt; found.as_slice().is_empty());
    let history = two_threads(alloc, &[atomic_at(0x10028, true)], &[read_at(0x10054)])?;
    let found = racing(alloc, &history)?;
    assert!(rt; found.as_slice().is_empty());
    Ok(())
}

#[test]
fn a_place_with_itself(rt: HostRuntime) -> Result<(), Fail> {
    let alloc = rt.alloc();
    let events = [read_at(0x1002c), write_at(0x10028)];
    let history = two_threads(alloc, &events, &events)?;
    let found = racing(alloc, &history)?;
    let expected = [
        Pair {
            low: 0x10028,
            high: 0x10028,
        },
        Pair {
            low: 0x10028,
            high: 0x1002c,
        },
    ];
    assert_eq!(rt; found.as_slice(), expected.as_slice());
    Ok(())
}

// An access in the first era, and one in each of two later ones, by other threads.
#[test]
fn accesses_of_three_eras(rt: HostRuntime) -> Result<(), Fail> {
    let alloc = rt.alloc();
    let mut entries = Entries::new(alloc);
    put(&mut entries, 0, 0, &[write_at(0x10054)])?;
    put(&mut entries, 1, 1, &[write_at(0x10028)])?;
    put(&mut entries, 3, 2, &[read_at(0x10060)])?;
    let found = racing(alloc, &Record { entries })?;
    let expected = [
        Pair {
            low: 0x10028,
            high: 0x10054,
        },
        Pair {
            low: 0x10028,
            high: 0x10060,
        },
        Pair {
            low: 0x10054,
            high: 0x10060,
        },
    ];
    assert_eq!(rt; found.as_slice(), expected.as_slice());
    Ok(())
}

// Ranges of 12 bytes: the second begins behind the first's last byte, or at it. Bytes that are no data race with none.
#[test]
fn ranges_that_touch_and_overlap(rt: HostRuntime) -> Result<(), Fail> {
    let alloc = rt.alloc();
    let first = [access(0x10028, 0x100_0000, 12)];
    let history = two_threads(alloc, &first, &[access(0x10054, 0x100_000c, 12)])?;
    let found = racing(alloc, &history)?;
    assert!(rt; found.as_slice().is_empty());
    let history = two_threads(alloc, &first, &[access(0x10054, 0x100_000b, 12)])?;
    let found = racing(alloc, &history)?;
    assert_eq!(rt; found.as_slice(), LOW_HIGH.as_slice());
    let code = [access(0x10028, 0x1_0000, 8)];
    let history = two_threads(alloc, &code, &code)?;
    let found = racing(alloc, &history)?;
    assert!(rt; found.as_slice().is_empty());
    Ok(())
}

// The first access of a thread is in order with another one's, and a later one of the same kind isn't.
#[test]
fn one_of_many_equal_accesses(rt: HostRuntime) -> Result<(), Fail> {
    let alloc = rt.alloc();
    let mut entries = Entries::new(alloc);
    put(&mut entries, 0, 0, &[write_at(0x10028)])?;
    put(&mut entries, 0, 0, &[Event::Create(1), write_at(0x10028)])?;
    put(&mut entries, 0, 1, &[Event::Begin, write_at(0x10054)])?;
    put(&mut entries, 0, 1, &[Event::End])?;
    put(&mut entries, 0, 0, &[Event::Join(1), write_at(0x10028)])?;
    let found = racing(alloc, &Record { entries })?;
    assert_eq!(rt; found.as_slice(), LOW_HIGH.as_slice());
    Ok(())
}

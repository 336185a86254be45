// Edges of small histories, and the text of a cycle.
use crate::{Cycle, Edge, Edges, cycle_text, cycles, edges, lock_text};
use run_record::{DeskNote, Entries, Event, Head, NoMemory, Record};
use std::alloc::Global;
use std::test::Fail;

fn put(entries: &mut Entries, tid: u32, events: &[Event]) -> Result<(), NoMemory> {
    let head = Head {
        round: 0,
        era: 0,
        stamp: 0,
        tid,
        steps: 1,
    };
    entries.push(head, DeskNote::Nothing, events, &[])
}

fn lock(addr: u64) -> Event {
    Event::Lock { addr, read: false }
}

fn unlock(addr: u64) -> Event {
    Event::Unlock { addr, read: false }
}

// Three threads take two of 8, 16 and 24 each, in a ring; the third does so after it gave another lock back, and takes
// one to read and one again. The first pair is taken by a second thread, too.
fn ring(alloc: Global) -> Result<Record, NoMemory> {
    let mut entries = Entries::new(alloc);
    put(&mut entries, 2, &[lock(8), unlock(8), lock(24)])?;
    put(&mut entries, 1, &[lock(8), lock(16), unlock(16), unlock(8)])?;
    put(&mut entries, 0, &[lock(8), lock(16), unlock(8)])?;
    put(&mut entries, 0, &[lock(24), unlock(24), unlock(16)])?;
    let read = Event::Lock {
        addr: 8,
        read: true,
    };
    put(&mut entries, 2, &[lock(24), read])?;
    Ok(Record { entries })
}

fn found(alloc: Global) -> Result<Edges, NoMemory> {
    let history = ring(alloc)?;
    edges(alloc, &history)
}

#[test]
fn a_ring_has_three_edges(rt: HostRuntime) -> Result<(), Fail> {
    let found = found(rt.alloc())?;
    let expected = [
        Edge {
            from: 8,
            to: 16,
            tid: 1,
        },
        Edge {
            from: 16,
            to: 24,
            tid: 0,
        },
        Edge {
            from: 24,
            to: 8,
            tid: 2,
        },
    ];
    assert_eq!(rt; found.as_slice(), expected.as_slice());
    Ok(())
}

#[test]
fn a_cycle_is_written(rt: HostRuntime) -> Result<(), Fail> {
    let mut edges = Edges::new(rt.alloc());
    edges.push(Edge {
        from: 0x1000008,
        to: 0x1000010,
        tid: 0,
    })?;
    edges.push(Edge {
        from: 0x1000010,
        to: 0x1000008,
        tid: 1,
    })?;
    let text = cycle_text(rt.alloc(), &Cycle { edges })?;
    let expected =
        b"lock cycle: 0x0000000001000008 0x0000000001000010\n  0x0000000001000008 then 0x0000000001000010 by main thread\n  0x0000000001000010 then 0x0000000001000008 by thread T1\n";
    assert_eq!(rt; text.as_slice(), expected.as_slice());
    Ok(())
}

// A thread takes the second of each pair while it keeps the first.
fn history(alloc: Global, pairs: &[(u64, u64)]) -> Result<Record, NoMemory> {
    let mut entries = Entries::new(alloc);
    for (from, to) in pairs {
        let events = [lock(*from), lock(*to), unlock(*to), unlock(*from)];
        put(&mut entries, 0, &events)?;
    }
    Ok(Record { entries })
}

fn starts(alloc: Global, pairs: &[(u64, u64)]) -> Result<Vec<Vec<u64>>, NoMemory> {
    let history = history(alloc, pairs)?;
    let edges = edges(alloc, &history)?;
    let mut all = Vec::new(alloc);
    for cycle in cycles(alloc, &edges)?.as_slice() {
        let mut one = Vec::new(alloc);
        for edge in cycle.edges.as_slice() {
            one.push(edge.from)?;
        }
        all.push(one)?;
    }
    Ok(all)
}

// Two rings through 8, of three and of two; behind it a ring of two at 40, and a way that leads
// nowhere.
#[test]
fn shortest_first_cycles(rt: HostRuntime) -> Result<(), Fail> {
    let pairs = [
        (8, 16),
        (8, 32),
        (16, 24),
        (24, 8),
        (32, 8),
        (32, 40),
        (40, 48),
        (48, 40),
        (48, 56),
    ];
    let found = starts(rt.alloc(), &pairs)?;
    assert_eq!(rt; found.len(), 2);
    assert_eq!(rt; found[0].as_slice(), [8, 32].as_slice());
    assert_eq!(rt; found[1].as_slice(), [40, 48].as_slice());
    Ok(())
}

// Two ways round of the same length: the first by addresses.
#[test]
fn the_first_of_two_ways(rt: HostRuntime) -> Result<(), Fail> {
    let pairs = [(8, 24), (8, 32), (16, 8), (24, 40), (32, 16), (40, 8)];
    let found = starts(rt.alloc(), &pairs)?;
    assert_eq!(rt; found.len(), 1);
    assert_eq!(rt; found[0].as_slice(), [8, 24, 40].as_slice());
    Ok(())
}

// Three mutexes in a ring.
#[test]
fn a_ring_of_three(rt: HostRuntime) -> Result<(), Fail> {
    let pairs = [(8, 16), (16, 24), (24, 8)];
    let found = starts(rt.alloc(), &pairs)?;
    assert_eq!(rt; found.len(), 1);
    assert_eq!(rt; found[0].as_slice(), [8, 16, 24].as_slice());
    Ok(())
}

// What two threads that each take two mutexes tell.
fn told(alloc: Global, first: &[Event], second: &[Event]) -> Result<Vec<u8>, NoMemory> {
    let mut entries = Entries::new(alloc);
    put(&mut entries, 0, first)?;
    put(&mut entries, 1, second)?;
    let history = Record { entries };
    let mut text = Vec::new(alloc);
    for piece in &lock_text(alloc, &history)?.texts {
        text.extend_from_slice(piece.as_slice())?;
    }
    Ok(text)
}

#[test]
fn two_orders_are_a_cycle(rt: HostRuntime) -> Result<(), Fail> {
    let (low, high) = (0x1000008, 0x1000010);
    let first = [lock(low), lock(high), unlock(high), unlock(low)];
    let second = [lock(high), lock(low), unlock(low), unlock(high)];
    let text = told(rt.alloc(), &first, &second)?;
    let expected =
        b"lock cycle: 0x0000000001000008 0x0000000001000010\n  0x0000000001000008 then 0x0000000001000010 by main thread\n  0x0000000001000010 then 0x0000000001000008 by thread T1\nlocks: 1 cycles\n";
    assert_eq!(rt; text.as_slice(), expected.as_slice());
    Ok(())
}

// Two pairs of mutexes, each taken in both orders; the one pair has nothing to do with the other. The addresses of one stand
// between those of the other.
#[test]
fn two_knots_apart(rt: HostRuntime) -> Result<(), Fail> {
    let first = [
        lock(0x1000008),
        lock(0x1000020),
        unlock(0x1000020),
        unlock(0x1000008),
        lock(0x1000018),
        lock(0x1000010),
        unlock(0x1000010),
        unlock(0x1000018),
    ];
    let second = [
        lock(0x1000020),
        lock(0x1000008),
        unlock(0x1000008),
        unlock(0x1000020),
        lock(0x1000010),
        lock(0x1000018),
        unlock(0x1000018),
        unlock(0x1000010),
    ];
    let text = told(rt.alloc(), &first, &second)?;
    let expected =
        b"lock cycle: 0x0000000001000008 0x0000000001000020\n  0x0000000001000008 then 0x0000000001000020 by main thread\n  0x0000000001000020 then 0x0000000001000008 by thread T1\nlock cycle: 0x0000000001000010 0x0000000001000018\n  0x0000000001000010 then 0x0000000001000018 by thread T1\n  0x0000000001000018 then 0x0000000001000010 by main thread\nlocks: 2 cycles\n";
    assert_eq!(rt; text.as_slice(), expected.as_slice());
    Ok(())
}

#[test]
fn one_order_is_none(rt: HostRuntime) -> Result<(), Fail> {
    let (low, high) = (0x1000008, 0x1000010);
    let first = [lock(low), lock(high), unlock(high), unlock(low)];
    let text = told(rt.alloc(), &first, &first)?;
    assert_eq!(rt; text.as_slice(), b"locks: 0 cycles\n".as_slice());
    Ok(())
}

// The locks of small histories.
use crate::{Held, locks_of, note};
use run_record::{Event, KeptLock};
use std::test::Fail;

fn lock(addr: u64, read: bool) -> Event {
    Event::Lock { addr, read }
}

fn unlock(addr: u64, read: bool) -> Event {
    Event::Unlock { addr, read }
}

fn kept(addr: u64, read: bool) -> KeptLock {
    KeptLock { addr, read }
}

// A lock that was taken twice is given back once, the last taken first, and only the way in which it was taken.
#[test]
fn the_last_one_is_given_back(rt: HostRuntime) -> Result<(), Fail> {
    let mut held: Vec<Held> = Vec::new(rt.alloc());
    note(&mut held, 1, &lock(8, false))?;
    note(&mut held, 2, &lock(8, true))?;
    note(&mut held, 1, &lock(16, true))?;
    note(&mut held, 1, &lock(8, false))?;
    note(&mut held, 1, &unlock(8, false))?;
    note(&mut held, 1, &unlock(16, false))?;
    note(&mut held, 1, &Event::Begin)?;
    let mine = locks_of(rt.alloc(), held.as_slice(), 1)?;
    let expected = [kept(8, false), kept(16, true)];
    assert_eq!(rt; mine.as_slice(), expected.as_slice());
    let other = locks_of(rt.alloc(), held.as_slice(), 2)?;
    assert_eq!(rt; other.as_slice(), [kept(8, true)].as_slice());
    Ok(())
}

// A thread keeps 64 locks at most.
#[test]
fn one_more_than_64_is_not_kept(rt: HostRuntime) -> Result<(), Fail> {
    let mut held: Vec<Held> = Vec::new(rt.alloc());
    for addr in 0..65 {
        note(&mut held, 1, &lock(addr, false))?;
    }
    let mine = locks_of(rt.alloc(), held.as_slice(), 1)?;
    assert_eq!(rt; mine.len(), 64);
    assert_eq!(rt; mine.last().copied(), Some(kept(63, false)));
    Ok(())
}

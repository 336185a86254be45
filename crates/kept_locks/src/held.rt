// The locks that all threads keep.
ghost use Rattle.std.specs.Prelude.{◌≡◌, ◌==◌, length, filter, IfOk, OnOk};
ghost use Rattle.run_record.specs.declared.event.Event.TheVariants.{Lock, Unlock};
ghost use Rattle.kept_locks.specs.Held.{locks_by, GoOnBy, is_held};

use run_record::{Event, KeptLock, NoMemory};
use std::alloc::{AllocError, Global};

/// How many locks of a thread are kept.
const MOST_LOCKS: usize = 64;

/// A lock that a thread keeps.
#[derive(Clone, Copy)]
pub struct Held {
    pub tid: u32,
    pub lock: KeptLock,
}

/// How many locks the thread keeps.
fn count(held: &[Held], tid: u32) -> usize
    ensures { result ≡ length (filter (λ h. h.tid == tid) held.now) }
{
    held.iter().filter(|h| h.tid == tid).count()
}

/// The thread takes a lock, which is kept where fewer than 64 are.
fn take(held: &mut Vec<Held>, tid: u32, addr: u64, read: bool) -> Result<(), NoMemory>
    ensures { OnOk result (GoOnBy tid (Lock addr read) held.old.items held.new.items) }
{
    if count(held, tid) < MOST_LOCKS {
        held.push(Held {
            tid,
            lock: KeptLock { addr, read },
        })?;
    }
    Ok(())
}

/// Whether it is a lock of the thread, of that address and kind.
fn is_it(held: &Held, tid: u32, addr: u64, read: bool) -> bool
    ensures { result ≡ is_held tid addr read held.now }
{
    held.tid == tid && held.lock.addr == addr && held.lock.read == read
}

/// The thread gives back the last lock of that address and kind, if it keeps one.
fn give_back(held: &mut Vec<Held>, tid: u32, addr: u64, read: bool)
    ensures { GoOnBy tid (Unlock addr read) held.old.items held.new.items }
{
    for i in (0..held.len()).rev() {
        if is_it(&held[i], tid, addr, read) {
            held.remove(i);
            return;
        }
    }
}

/// One more event of the thread: a lock is kept, or given back, or all stay.
pub fn note(held: &mut Vec<Held>, tid: u32, event: &Event) -> Result<(), NoMemory>
    ensures { OnOk result (GoOnBy tid event.now held.old.items held.new.items) }
{
    match *event {
        Event::Lock { addr, read } => take(held, tid, addr, read)?,
        Event::Unlock { addr, read } => give_back(held, tid, addr, read),
        _ => {}
    }
    Ok(())
}

/// The locks that the thread keeps, the first taken first.
pub fn locks_of(alloc: Global, held: &[Held], tid: u32) -> Result<Vec<KeptLock>, AllocError>
    ensures { IfOk result (λ locks. locks.items ≡ locks_by held.now tid) }
{
    held.iter()
        .filter(|h| h.tid == tid)
        .map(|h| h.lock)
        .collect(alloc)
}

// What stands after a thread's events so far.
ghost use Rattle.std.specs.Prelude.{◌≡◌, ℕ, ◌+◌, ◌<◌, ◌≤◌, [], ◌∷◌, ◌++◌, reverse, drop, length, OnOk, OnErr, IsOk, vec_len, vec_capacity, nat_lt, if◌then◌else◌};
ghost use Rattle.run_laws.specs.Stacks.{without_last, is_lock};
ghost use Rattle.trace_parts.specs.Snapshot.{nothing_yet, snapshot_after};
ghost use Rattle.trace_parts.specs.Spelling.{told};

use crate::TraceEvent;
use run_record::{KeptLock, Label, NoMemory};
use std::alloc::{AllocError, Global};

/// How many locks of a thread are kept.
const MOST_LOCKS: usize = 64;

/// A thread's label, its stack and the locks that it keeps.
#[derive(Drop)]
pub(crate) struct Standing {
    /// The label of the last Label event.
    pub(crate) label: Option<Label>,
    /// The innermost frame last.
    pub(crate) frames: Vec<u64>,
    /// The first taken first.
    pub(crate) locks: Vec<KeptLock>,
}

impl Standing {
    ghost use Rattle.trace_parts.specs.Part.{snapshot_of, HasRoom};

    /// Before the first event.
    pub(crate) fn new(alloc: Global) -> Standing
        ensures { snapshot_of result ≡ nothing_yet }
    {
        Standing {
            label: None,
            frames: Vec::new(alloc),
            locks: Vec::new(alloc),
        }
    }

    /// Makes room for so many more events. A failure leaves some of the room, and changes nothing else.
    pub(crate) fn reserve(&mut self, events: usize) -> Result<(), AllocError>
        ensures snapshot { snapshot_of self.new ≡ snapshot_of self.old }
        ensures frames_len { vec_len self.new.frames ≡ vec_len self.old.frames }
        ensures locks_len { vec_len self.new.locks ≡ vec_len self.old.locks }
        ensures frames { vec_capacity self.old.frames ≤ vec_capacity self.new.frames }
        ensures locks { vec_capacity self.old.locks ≤ vec_capacity self.new.locks }
        ensures ok { OnOk result (HasRoom events self.new) }
    {
        self.frames.reserve(events)?;
        self.locks.reserve(events)
    }

    /// Makes room for a copy of the other and so many more events. Nothing of this one counts.
    pub(crate) fn reserve_copy(&mut self, other: &Standing, events: usize) -> Result<(), AllocError>
        requires { events ≤ 4 }
        ensures frames { vec_capacity self.old.frames ≤ vec_capacity self.new.frames }
        ensures locks { vec_capacity self.old.locks ≤ vec_capacity self.new.locks }
        ensures ok_frames { OnOk result (vec_len other.now.frames + events ≤ vec_capacity self.new.frames) }
        ensures ok_locks { OnOk result (vec_len other.now.locks + events ≤ vec_capacity self.new.locks) }
    {
        self.frames.clear();
        self.locks.clear();
        self.frames.reserve(other.frames.len() + events)?;
        self.locks.reserve(other.locks.len() + events)
    }

    /// One more event. Without room it may fail, and then nothing has changed.
    #[inline(always)]
    pub(crate) fn note(&mut self, event: &TraceEvent) -> Result<(), NoMemory>
        ensures ok { OnOk result (snapshot_of self.new ≡ snapshot_after (snapshot_of self.old) (told event.now)) }
        ensures err { OnErr result (snapshot_of self.new ≡ snapshot_of self.old) }
        ensures succeeds { HasRoom 1 self.old → IsOk result }
        ensures room { (spare : ℕ) → HasRoom (spare + 1) self.old → HasRoom spare self.new }
        ensures frames_grow { vec_len self.new.frames ≤ vec_len self.old.frames + 1 }
        ensures locks_grow { vec_len self.new.locks ≤ vec_len self.old.locks + 1 }
    {
        match *event {
            TraceEvent::Access { .. } => {}
            TraceEvent::Enter { pc } => self.frames.push(pc)?,
            TraceEvent::Leave => {
                let _left = self.frames.pop();
            }
            TraceEvent::Lock { addr, read } => {
                if self.locks.len() < MOST_LOCKS {
                    self.locks.push(KeptLock { addr, read })?;
                }
            }
            TraceEvent::Unlock { addr, read } => give_back(&mut self.locks, addr, read),
            TraceEvent::Label { sid, epoch, era } => self.label = Some(Label { sid, epoch, era }),
        }
        Ok(())
    }

    /// Makes this what the other is. Without room it may fail, and then it is neither.
    pub(crate) fn copy_from(&mut self, other: &Standing) -> Result<(), AllocError>
        ensures ok { OnOk result (snapshot_of self.new ≡ snapshot_of other.now) }
        ensures frames_room { vec_capacity self.old.frames ≤ vec_capacity self.new.frames }
        ensures locks_room { vec_capacity self.old.locks ≤ vec_capacity self.new.locks }
        ensures succeeds { vec_len other.now.frames ≤ vec_capacity self.old.frames →
            vec_len other.now.locks ≤ vec_capacity self.old.locks → IsOk result }
    {
        self.label = other.label;
        self.frames.clear();
        self.frames.extend_from_slice(&other.frames)?;
        self.locks.clear();
        self.locks.extend_from_slice(&other.locks)
    }
}

/// Takes away the last lock of that address and kind, if one is kept.
fn give_back(locks: &mut Vec<KeptLock>, addr: u64, read: bool)
    ensures items { locks.new.items ≡ without_last (is_lock addr read) locks.old.items }
    ensures capacity { vec_capacity locks.new ≡ vec_capacity locks.old }
    ensures shrinks { vec_len locks.new ≤ vec_len locks.old }
{
    for i in (0..locks.len()).rev() {
        let lock = locks[i];
        if lock.addr == addr && lock.read == read {
            locks.remove(i);
            return;
        }
    }
}

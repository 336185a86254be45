// What is traced of a thread.

/// Something that a trace keeps.
#[derive(Clone, Copy, Debug, PartialEq, Eq)]
pub enum TraceEvent {
    /// The thread announced an access of `size` bytes, at the code address `place`.
    Access {
        place: u64,
        addr: u64,
        size: u32,
        read: bool,
        atomic: bool,
    },
    /// The thread entered a function, which was called at that address.
    Enter {
        pc: u64,
    },
    /// The thread left a function.
    Leave,
    /// The thread took a lock, to read or to write.
    Lock {
        addr: u64,
        read: bool,
    },
    /// The thread gave a lock back.
    Unlock {
        addr: u64,
        read: bool,
    },
    /// From here on the thread's accesses are known by this slot, epoch and era.
    Label {
        sid: u8,
        epoch: u16,
        era: u32,
    },
}

// What a thread does that the detector hears of.

/// One of the two synchronisation objects of an address.
#[derive(Clone, Copy, Debug, PartialEq, Eq)]
pub enum Part {
    /// The one that atomics, writers' unlocks and plain releases use.
    Main,
    /// The one that readers' unlocks release and a writer's lock acquires.
    Readers,
}

/// Something that one instruction of a thread does.
#[derive(Clone, Copy, Debug, PartialEq, Eq)]
pub enum Event {
    /// The thread's first instruction.
    Begin,
    /// The thread made the thread of that number.
    Create(u32),
    /// The thread ended: by its exit, by the run's exit, or by a fault.
    End,
    /// The thread joined the ended thread of that number.
    Join(u32),
    /// The thread entered a function, which was called at that address.
    Enter(u64),
    /// The thread left a function.
    Leave,
    /// The thread took a lock, to read or to write.
    Lock {
        addr: u64,
        read: bool,
    },
    /// The thread gave a lock back.
    Unlock {
        addr: u64,
        read: bool,
    },
    /// The thread's clock took in the object's clock.
    Acquire {
        addr: u64,
        part: Part,
    },
    /// The object's clock took in the thread's clock, or became it.
    Release {
        addr: u64,
        part: Part,
        replaces: bool,
    },
    /// Both objects of the address ended.
    Destroy {
        addr: u64,
    },
    /// The thread announced an access of `size` bytes, at the code address `place`.
    Access {
        place: u64,
        addr: u64,
        size: u32,
        read: bool,
        atomic: bool,
    },
    /// The thread put the low `count` bytes of the value on the output, the least first.
    Put {
        value: u64,
        count: u8,
    },
    /// The main object of the address ended: an atomic store put its value there and released nothing.
    Clear {
        addr: u64,
    },
}

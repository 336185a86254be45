// The calls of a guest.

/// What an atomic call does with the word in memory.
#[derive(Clone, Copy)]
pub enum AtomicOp {
    Load,
    Store,
    Exchange,
    Add,
    Sub,
    And,
    Or,
    Xor,
    /// A compare exchange.
    Compare,
}

/// What an ECALL asks for: a service of the machine, or one of the `__tsan_` entry functions of
/// compiler-rt, by which an instrumented program announces what it does.
#[derive(Clone, Copy)]
pub enum Call {
    /// Puts the low `count` bytes of the value on the output, the least first.
    Put {
        value: u64,
        count: u8,
    },
    /// Ends the run.
    Exit {
        status: u8,
    },
    /// Makes a thread that begins at `pc`.
    Create {
        pc: u64,
        arg: u64,
        sp: u64,
    },
    /// Ends the thread.
    ThreadExit,
    /// Joins a thread that has ended.
    Join {
        tid: u64,
    },
    Yield,
    /// Announces an access of `size` bytes.
    Access {
        addr: u64,
        size: u32,
        read: bool,
    },
    /// Announces that a function was entered, which was called at `pc`.
    Enter {
        pc: u64,
    },
    /// Announces that a function was left.
    Leave,
    /// An atomic operation on `size` bytes. A field that the operation lacks is 0; the value and
    /// what is expected are below 2^(8 size), and orders are from 0 (relaxed) to 5 (seq_cst).
    Atomic {
        op: AtomicOp,
        size: u8,
        addr: u64,
        value: u64,
        expected: u64,
        order: u8,
        fail_order: u8,
    },
    Fence,
    Acquire {
        addr: u64,
    },
    Release {
        addr: u64,
    },
    MutexCreate,
    MutexDestroy {
        addr: u64,
    },
    /// Announces that a lock was taken.
    PostLock {
        addr: u64,
        read: bool,
    },
    /// Announces that a lock will be given back.
    PreUnlock {
        addr: u64,
        read: bool,
    },
}

/// What came of a call.
#[derive(Clone, Copy)]
pub struct Outcome {
    /// The address of the call's instruction.
    pub place: u64,
    /// Whether an atomic call wrote.
    pub wrote: bool,
    /// What x10 gets.
    pub answer: u64,
}

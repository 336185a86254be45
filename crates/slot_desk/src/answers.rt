// What the calls of a desk answer.

/// Whether a thread got a slot.
#[derive(Clone, Copy, Debug, PartialEq, Eq)]
pub enum Attached {
    /// The slot, and its first epoch under the thread.
    Slot(u8, u16),
    /// Each slot is owned or spent.
    None,
}

/// Whether a thread was made.
#[derive(Clone, Copy, Debug, PartialEq, Eq)]
pub enum Created {
    /// The new thread's number.
    Thread(u32),
    /// As many threads live as may, or 1,024 were made.
    Full,
}

/// Whether a thread was joined.
#[derive(Clone, Copy, Debug, PartialEq, Eq)]
pub enum Joined {
    /// It has ended.
    Done,
    /// It lives.
    Living,
    /// No such thread was made.
    NoSuch,
}

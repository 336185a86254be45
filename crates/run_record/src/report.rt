// What is told of a race.
use crate::{Locks, Places};

/// A lock that a thread keeps: its address, and whether it was taken to read.
#[derive(Clone, Copy, Debug, PartialEq, Eq)]
pub struct KeptLock {
    pub addr: u64,
    pub read: bool,
}

/// One of the two accesses of a report, as it is told.
#[derive(Drop)]
pub struct Side {
    pub tid: u32,
    pub read: bool,
    pub atomic: bool,
    pub addr: u64,
    /// In bytes.
    pub size: u32,
    /// The access's place, then the frames from the innermost outwards; none where the traces
    /// hold the access no more.
    pub stack: Option<Places>,
    /// The locks that the thread kept, the first taken first.
    pub locks: Locks,
}

/// A race: the access at which it was found, and the one before.
#[derive(Drop)]
pub struct Report {
    pub mine: Side,
    pub previous: Side,
}

// What a run leaves.
use crate::{Bytes, Record, Reports};

/// How a run ended.
#[derive(Clone, Copy, Debug, PartialEq, Eq)]
pub enum GuestEnd {
    /// A thread made the call `exit` with this status.
    Exit(u8),
    /// A thread's instruction at `pc` had the fault of this number, from 1.
    Fault { fault: u8, pc: u64, tid: u32 },
    /// Each thread ended.
    AllEnded,
    /// The budget of instructions was spent.
    Budget,
}

/// How far a run came.
#[derive(Clone, Copy, Debug, PartialEq, Eq)]
pub struct LastState {
    /// How many threads were made, the main one among them.
    pub threads: u32,
    /// How many rounds there were.
    pub rounds: u32,
    /// The era of the last round.
    pub era: u32,
    pub end: GuestEnd,
}

/// A whole run: its history, and all that is told of it.
#[derive(Drop)]
pub struct Finished {
    pub history: Record,
    /// The reports that are printed, in order.
    pub reports: Reports,
    /// How many reports a rule suppressed.
    pub suppressed: u32,
    /// How many reports had the same two stacks as an earlier one.
    pub equal: u32,
    /// What the guest put.
    pub output: Bytes,
    pub last: LastState,
}

// What is left of a run that wasn't finished.
use run_record::{Bytes, Record, Reports};

// The clauses `IsPartial`, `IsPartPut`, `IsCutShort`, `IsStopped` and `LeavesRun` speak of these types.

/// A run up to the end of one of its rounds, or before the first.
#[derive(Drop)]
pub struct Partial {
    /// What was done in whole rounds.
    pub history: Record,
    /// The reports of these rounds that are printed, in order.
    pub reports: Reports,
    /// What the guest put in these rounds.
    pub output: Bytes,
}

/// Why a run that began wasn't finished, and how far it came.
#[derive(Drop)]
pub enum RunFault {
    /// A put failed.
    Write(Partial),
    /// Memory ran out.
    NoMemory(Partial),
}

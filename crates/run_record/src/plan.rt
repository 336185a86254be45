// The order in which threads are stepped one at a time.
use crate::Items;

/// At most `steps` instructions of thread `tid`.
#[derive(Clone, Copy, Debug, PartialEq, Eq)]
pub struct Turn {
    /// At most 1,023.
    pub tid: u32,
    /// 1 to 8,000,000.
    pub steps: u32,
}

/// The turns of a run, the first first: at most 4,096.
pub type Plan = Items<Turn>;

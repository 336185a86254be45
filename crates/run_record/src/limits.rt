// The limits of a run.

/// The limits of a run. Numbers are in these ranges, and `slots` is at least `harts`.
#[derive(Clone, Copy, Debug, PartialEq, Eq)]
pub struct Limits {
    /// How many threads may live at once: 1 to 64.
    pub harts: u32,
    /// How many slots there are: 1 to 255.
    pub slots: u32,
    /// The greatest epoch of a slot: 2 to 16,383.
    pub epochs: u16,
    /// How many instructions all threads together may make: 1 to 8,000,000.
    pub steps: u32,
    /// The instructions of a thread in one round: 1 to 10,000.
    pub quantum: u32,
    /// How many parts of a thread's trace are held: 2 to 64.
    pub parts: u32,
    /// The words of one part: 64 to 4,096.
    pub part_words: u32,
}

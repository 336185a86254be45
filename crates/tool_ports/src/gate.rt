// Where workers tell how far they are.

/// A moment in the part of a round that a worker makes for its thread.
#[derive(Clone, Copy, Debug, PartialEq, Eq)]
pub enum Point {
    /// It begins the part of the thread of this number.
    Quantum(u32),
    /// It holds the object of this number: a stripe of memory from 0 to 63, or the desk, which is 64.
    Holding(u32),
}

/// What the workers of a run of many threads at once tell how far they are, so that a test can hold them back. It changes
/// nothing that a contract sees.
pub trait Gate {
    fn at(&self, point: Point);
}

/// A gate that holds nobody back.
#[derive(Clone, Copy, Drop)]
pub struct OpenGate;

impl Gate for OpenGate {
    fn at(&self, _point: Point) {}
}

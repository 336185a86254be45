// Why a guest's instruction can't be executed.

#[derive(Clone, Copy)]
pub enum GuestFault {
    /// The word is no instruction.
    Illegal,
    /// No executable memory holds the instruction.
    FetchOutside,
    /// No memory holds the address.
    Outside,
    /// The memory at the address can't be written.
    ReadOnly,
    /// An address isn't a multiple of the size, or of four for an instruction.
    Misaligned,
    /// A breakpoint.
    Break,
    /// There is no call of that number.
    UnknownCall,
    /// The stack of entered functions is full.
    StackDeep,
}

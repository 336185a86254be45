// Why a text is no program.
use std::alloc::{AllocError, AllocFailed};

#[derive(Clone, Copy, Debug, PartialEq, Eq)]
pub enum AssemblyError {
    /// A word is no label, block or mnemonic.
    UnknownWord,
    /// The operands are not those of the instruction or block.
    BadOperands,
    /// A number is out of form, or doesn't fit where it stands.
    BadNumber,
    /// No call has the name.
    UnknownCall,
    /// No label has the name.
    UnknownLabel,
    /// The code or a section is too long.
    TooLong,
    NoMemory,
}

impl From<AllocError> for AssemblyError {
    fn from(_: AllocError) -> Self {
        AssemblyError::NoMemory
    }
}

impl<T: Drop> From<AllocFailed<T>> for AssemblyError {
    fn from(_: AllocFailed<T>) -> Self {
        AssemblyError::NoMemory
    }
}

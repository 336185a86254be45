// Why a file is refused.
ghost use Rattle.std.specs.Prelude.{◌≡◌};
ghost use Rattle.elf_image.specs.declared.fault.ElfFault.TheVariants.{NoMemory};

use std::alloc::{AllocError, AllocFailed};

/// The first fault of a file, in the order in which they are looked for, or want of memory.
#[derive(Clone, Copy, Debug, PartialEq, Eq)]
pub enum ElfFault {
    /// Fewer than 64 bytes, or another magic number.
    NotElf,
    /// Not of 64 bits, or not little-endian.
    NotLittle64,
    /// `e_type` isn't ET_EXEC.
    NotExecutable,
    /// `e_machine` isn't EM_RISCV.
    NotRiscv,
    /// `e_flags` has EF_RISCV_RVC.
    Compressed,
    /// Program headers whose size isn't 56, or that reach past the file.
    BadTable,
    /// No PT_LOAD header that takes memory. The faults below speak of those that do.
    NoSegments,
    /// A segment's bytes reach past the file.
    SegmentOutside,
    /// More bytes in the file than in memory, or memory above 2^40.
    SegmentSizes,
    /// Two segments, or a segment and the stack, share an address once widened to multiples of eight.
    Overlap,
    /// Writable segments of more than 4,194,304 bytes together, or others of more than 16,777,216.
    TooMuchMemory,
    /// `e_entry` isn't a multiple of 4 with its four bytes in an executable segment.
    EntryOutside,
    NoMemory,
}

impl From<AllocError> for ElfFault {
    ghost from_gives = { λ _ fault. fault ≡ NoMemory };

    fn from(_error: AllocError) -> ElfFault {
        ElfFault::NoMemory
    }
}

impl<T: Drop> From<AllocFailed<T>> for ElfFault {
    ghost from_gives = { λ _ fault. fault ≡ NoMemory };

    fn from(_error: AllocFailed<T>) -> ElfFault {
        ElfFault::NoMemory
    }
}

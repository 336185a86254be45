// Why a file of rules is refused.
ghost use Rattle.std.specs.Prelude.{◌≡◌};
ghost use Rattle.suppress_rules.specs.declared.fault.RuleFault.TheVariants.{NoMemory};

use std::alloc::{AllocError, AllocFailed};

/// The first fault of a file of rules, or want of memory.
#[derive(Clone, Copy, Debug, PartialEq, Eq)]
pub enum RuleFault {
    /// The line of this number, from 1, has no `:`.
    NoColon(u64),
    /// What stands before the first `:` of the line of this number, from 1, is no type of rules.
    UnknownType(u64),
    /// The file isn't UTF-8.
    NotUtf8,
    NoMemory,
}

impl From<AllocError> for RuleFault {
    ghost from_gives = { λ _ fault. fault ≡ NoMemory };

    fn from(_error: AllocError) -> RuleFault {
        RuleFault::NoMemory
    }
}

impl<T: Drop> From<AllocFailed<T>> for RuleFault {
    ghost from_gives = { λ _ fault. fault ≡ NoMemory };

    fn from(_error: AllocFailed<T>) -> RuleFault {
        RuleFault::NoMemory
    }
}

ghost use Rattle.std.specs.Prelude.{◌≡◌};
ghost use Rattle.kom_calls.specs.declared.fault.ArgumentFault.TheVariants as fault;

use kom_types::Memory;
use std::alloc::{AllocError, AllocFailed};

/// Why tokens make no arguments.
#[derive(Clone, Copy, Debug, PartialEq, Eq)]
pub enum ArgumentFault {
    /// They depart from the pattern.
    Malformed,
    /// An integer that is neither 0 nor 1 stands in place of a truth value.
    BadBool,
    /// An array is too long.
    LongArray,
    /// Memory ran out.
    Memory,
}

impl From<Memory> for ArgumentFault {
    ghost from_gives = { λ _ found. found ≡ fault.Memory };

    fn from(_error: Memory) -> ArgumentFault {
        ArgumentFault::Memory
    }
}

impl From<AllocError> for ArgumentFault {
    ghost from_gives = { λ _ found. found ≡ fault.Memory };

    fn from(_error: AllocError) -> ArgumentFault {
        ArgumentFault::Memory
    }
}

impl<T: Drop> From<AllocFailed<T>> for ArgumentFault {
    ghost from_gives = { λ _ found. found ≡ fault.Memory };

    fn from(_error: AllocFailed<T>) -> ArgumentFault {
        ArgumentFault::Memory
    }
}

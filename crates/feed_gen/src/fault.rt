ghost use Rattle.std.specs.Prelude.{◌≡◌};

use otp_base::Memory;
use std::alloc::{AllocError, AllocFailed};

/// Why a file is not made.
#[derive(Clone, Copy, Debug, PartialEq, Eq)]
pub enum GenFault {
    /// No file has the name.
    UnknownName,
    /// Memory ran out.
    Memory,
}

impl From<Memory> for GenFault {
    ghost use Rattle.feed_gen.specs.declared.fault.GenFault.TheVariants as faults;

    ghost from_gives = { λ _ e. e ≡ faults.Memory };

    fn from(_error: Memory) -> GenFault {
        GenFault::Memory
    }
}

impl From<AllocError> for GenFault {
    ghost use Rattle.feed_gen.specs.declared.fault.GenFault.TheVariants as faults;

    ghost from_gives = { λ _ e. e ≡ faults.Memory };

    fn from(_error: AllocError) -> GenFault {
        GenFault::Memory
    }
}

impl<T: Drop> From<AllocFailed<T>> for GenFault {
    ghost use Rattle.feed_gen.specs.declared.fault.GenFault.TheVariants as faults;

    ghost from_gives = { λ _ e. e ≡ faults.Memory };

    fn from(_error: AllocFailed<T>) -> GenFault {
        GenFault::Memory
    }
}

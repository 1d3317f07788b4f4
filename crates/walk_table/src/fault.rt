ghost use Rattle.std.specs.Prelude.{◌≡◌};
ghost use Rattle.walk_table.specs.declared.fault.EdgesFault.TheVariants as faults;

use otp_base::Memory;
use std::alloc::AllocFailed;

/// Why there are no edges.
#[derive(Clone, Copy, Debug, PartialEq, Eq)]
pub enum EdgesFault {
    /// There would be more than 100,000,000 edges.
    TooMany,
    /// Memory ran out.
    Memory,
}

impl From<Memory> for EdgesFault {
    ghost from_gives = { λ _ e. e ≡ faults.Memory };

    fn from(_error: Memory) -> EdgesFault {
        EdgesFault::Memory
    }
}

impl<T: Drop> From<AllocFailed<T>> for EdgesFault {
    ghost from_gives = { λ _ e. e ≡ faults.Memory };

    fn from(_error: AllocFailed<T>) -> EdgesFault {
        EdgesFault::Memory
    }
}

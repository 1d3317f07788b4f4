ghost use Rattle.std.specs.Prelude.{◌≡◌};
ghost use Rattle.gtfs_records.specs.declared.fault.TableFault.TheVariants as faults;

use otp_base::Memory;
use otp_model::FeedCause;
use std::alloc::AllocFailed;

/// The first fault of a table. The header is row 0, the record under it row 1, and a column goes by its
/// place among the columns of the kind of row, counted from 0.
#[derive(Clone, Copy, Debug, PartialEq, Eq)]
pub struct Fault {
    pub cause: FeedCause,
    pub row: u64,
    pub column: usize,
}

/// Why a table was not read.
#[derive(Clone, Copy, Debug, PartialEq, Eq)]
pub enum TableFault {
    /// Memory ran out.
    Memory,
    /// The first fault.
    Fault(Fault),
}

impl From<Memory> for TableFault {
    ghost from_gives = { λ _ e. e ≡ faults.Memory };

    fn from(_error: Memory) -> TableFault {
        TableFault::Memory
    }
}

impl<T: Drop> From<AllocFailed<T>> for TableFault {
    ghost from_gives = { λ _ e. e ≡ faults.Memory };

    fn from(_error: AllocFailed<T>) -> TableFault {
        TableFault::Memory
    }
}

ghost use Rattle.std.specs.Prelude.{◌≡◌};
ghost use Rattle.pb_wire.specs.declared.field.WireFault.TheVariants as fault;

use std::alloc::{AllocError, AllocFailed};

/// The value of a field, by its wire type: 0, 1, 2 and 5 in this order. Of wire type 2 it is the range of
/// its bytes, without the length before them.
#[derive(Clone, Copy, Debug, PartialEq, Eq)]
pub enum FieldValue {
    Varint(u64),
    Eight(u64),
    Bytes { from: usize, to: usize },
    Four(u32),
}

/// A field with its number, from 1 on, and the offset of its tag.
#[derive(Clone, Copy, Debug, PartialEq, Eq)]
pub struct Field {
    pub number: u64,
    pub at: usize,
    pub value: FieldValue,
}

/// Why bytes are no fields: `at` is the offset of the tag of the first field that can't be read.
#[derive(Clone, Copy, Debug, PartialEq, Eq)]
pub enum WireFault {
    /// The bytes end before the field does.
    Cut { at: usize },
    /// Ten bytes of a varint all go on.
    LongVarint { at: usize },
    /// The wire type is 3, 4, 6 or 7: a group, or none that is known.
    Group { at: usize },
    /// The field number is 0.
    ZeroField { at: usize },
    /// Memory ran out.
    Memory,
}

impl From<AllocError> for WireFault {
    ghost from_gives = { λ _ e. e ≡ fault.Memory };

    fn from(_error: AllocError) -> WireFault {
        WireFault::Memory
    }
}

impl<T: Drop> From<AllocFailed<T>> for WireFault {
    ghost from_gives = { λ _ e. e ≡ fault.Memory };

    fn from(_error: AllocFailed<T>) -> WireFault {
        WireFault::Memory
    }
}

ghost use Rattle.std.specs.Prelude.{◌≡◌};
ghost use Rattle.rt_reader.specs.Faults.{fault_of};
ghost use Rattle.rt_reader.specs.declared.fault.MessageFault.TheVariants as fault;

use otp_base::Memory;
use pb_wire::WireFault;
use std::alloc::AllocFailed;

/// Why bytes are no message: `at` is the offset of the field's tag, from the start of the whole body.
#[derive(Clone, Copy, Debug, PartialEq, Eq)]
pub enum MessageFault {
    /// Some bytes are no fields.
    Wire(WireFault),
    /// There is no header.
    NoHeader,
    /// The header's incrementality is 1, DIFFERENTIAL.
    Differential,
    /// A text isn't UTF-8.
    NotText { at: usize },
    /// A second value of an embedded message that stands at most once.
    Repeated { at: usize },
    /// A field that is read has another wire type than its own.
    WrongType { at: usize },
    /// Memory ran out.
    Memory,
}

impl From<WireFault> for MessageFault {
    ghost from_gives = { λ w e. e ≡ fault_of w };

    fn from(fault: WireFault) -> MessageFault {
        match fault {
            WireFault::Memory => MessageFault::Memory,
            wire => MessageFault::Wire(wire),
        }
    }
}

impl From<Memory> for MessageFault {
    ghost from_gives = { λ _ e. e ≡ fault.Memory };

    fn from(_error: Memory) -> MessageFault {
        MessageFault::Memory
    }
}

impl<T: Drop> From<AllocFailed<T>> for MessageFault {
    ghost from_gives = { λ _ e. e ≡ fault.Memory };

    fn from(_error: AllocFailed<T>) -> MessageFault {
        MessageFault::Memory
    }
}

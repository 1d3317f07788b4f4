ghost use Rattle.std.specs.Prelude.{◌≡◌};
ghost use Rattle.reply_bodies.specs.Names.{cause_name, fault_name, fault_offset, head_name};

use http_read::HeadFault;
use pb_wire::WireFault;
use query_form::QueryFault;
use rt_reader::MessageFault;

/// The name of a parameter's fault.
pub fn cause_name(cause: QueryFault) -> &'static str
    ensures { result.now ≡ cause_name cause }
{
    match cause {
        QueryFault::Missing => "missing",
        QueryFault::Bad => "bad",
        QueryFault::Twice => "twice",
        QueryFault::UnknownPlace => "unknown",
    }
}

/// The name of a message's fault.
pub fn fault_name(fault: MessageFault) -> &'static str
    ensures { result.now ≡ fault_name fault }
{
    match fault {
        MessageFault::Wire(WireFault::Cut { .. }) => "cut",
        MessageFault::Wire(WireFault::LongVarint { .. }) => "varint",
        MessageFault::Wire(WireFault::Group { .. }) => "group",
        MessageFault::Wire(WireFault::ZeroField { .. }) => "zero",
        MessageFault::NoHeader => "header",
        MessageFault::Differential => "differential",
        MessageFault::NotText { .. } => "text",
        MessageFault::Repeated { .. } => "repeated",
        MessageFault::WrongType { .. } => "type",
        MessageFault::Wire(WireFault::Memory) | MessageFault::Memory => "memory",
    }
}

/// The offset of a message's fault in its bytes, if it has one.
pub fn fault_offset(fault: MessageFault) -> Option<u64>
    ensures { result ≡ fault_offset fault }
{
    match fault {
        MessageFault::Wire(WireFault::Cut { at })
        | MessageFault::Wire(WireFault::LongVarint { at })
        | MessageFault::Wire(WireFault::Group { at })
        | MessageFault::Wire(WireFault::ZeroField { at })
        | MessageFault::NotText { at }
        | MessageFault::Repeated { at }
        | MessageFault::WrongType { at } => Some(at as u64),
        MessageFault::Wire(WireFault::Memory)
        | MessageFault::NoHeader
        | MessageFault::Differential
        | MessageFault::Memory => None,
    }
}

/// The name of a head's fault.
pub fn head_name(fault: HeadFault) -> &'static str
    ensures { result.now ≡ head_name fault }
{
    match fault {
        HeadFault::Head => "head",
        HeadFault::Headers => "headers",
        HeadFault::Coding => "coding",
        HeadFault::Length => "length",
        HeadFault::Large => "large",
        HeadFault::NoLength => "nolength",
    }
}

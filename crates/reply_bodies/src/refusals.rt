ghost use Rattle.std.specs.Prelude.{◌≡◌};
ghost use Rattle.reply_bodies.specs.Names.{cause_name};
ghost use Rattle.reply_bodies.specs.Refusals.{IsOrMemory, head_refusal, head_status, message_refusal, older_refusal, refused, spent_refusal, target_refusal, target_status, turned_refusal, unread};

use crate::names::{cause_name, fault_name, fault_offset, head_name};
use crate::reply::Reply;
use http_read::HeadFault;
use otp_base::Text;
use pb_wire::WireFault;
use plan_json::Body;
use query_form::{QueryFault, TargetFault};
use rt_reader::MessageFault;
use std::alloc::Global;

/// How many messages a real-time feed may accept, and how many commits there may be.
const MOST: u64 = 1 << 40;

/// A refusal by its name alone.
fn refused(alloc: Global, status: u16, name: &str) -> Reply
    ensures { IsOrMemory (refused status name.now) result }
{
    match Text::from_str(alloc, name) {
        Ok(name) => Reply::Answer {
            status,
            body: Body::Refused { name },
        },
        Err(_) => Reply::Memory,
    }
}

/// The reply to a head that is refused.
pub fn head_refusal(alloc: Global, fault: HeadFault) -> Reply
    ensures { IsOrMemory (head_refusal fault) result }
{
    refused(alloc, head_status(fault), head_name(fault))
}

/// The status of a head that is refused (RFC 9110, section 15; RFC 6585, section 5).
fn head_status(fault: HeadFault) -> u16
    ensures { result ≡ head_status fault }
{
    match fault {
        HeadFault::Head | HeadFault::Length => 400,
        HeadFault::NoLength => 411,
        HeadFault::Large => 413,
        HeadFault::Headers => 431,
        HeadFault::Coding => 501,
    }
}

/// The reply to a request whose target is at fault.
pub fn target_refusal(alloc: Global, fault: TargetFault) -> Reply
    ensures { IsOrMemory (target_refusal fault) result }
{
    match fault {
        TargetFault::Path => refused(alloc, 404, "path"),
        TargetFault::FeedNumber => refused(alloc, 404, "feed"),
        TargetFault::Method => refused(alloc, 405, "method"),
        TargetFault::Query { cause, parameter } => parameter_refusal(alloc, cause, parameter),
        TargetFault::Memory => Reply::Memory,
    }
}

fn parameter_refusal(alloc: Global, cause: QueryFault, parameter: Text) -> Reply
    ensures { IsOrMemory (Reply.Answer (target_status cause) (Body.Parameter (cause_name cause) parameter)) result }
{
    match Text::from_str(alloc, cause_name(cause)) {
        Ok(name) => Reply::Answer {
            status: target_status(cause),
            body: Body::Parameter { name, parameter },
        },
        Err(_) => Reply::Memory,
    }
}

fn target_status(cause: QueryFault) -> u16
    ensures { result ≡ target_status cause }
{
    match cause {
        QueryFault::UnknownPlace => 404,
        QueryFault::Missing | QueryFault::Bad | QueryFault::Twice => 400,
    }
}

/// The reply to an update whose body is no message.
pub fn message_refusal(alloc: Global, fault: MessageFault) -> Reply
    ensures { IsOrMemory (message_refusal fault) result }
{
    match fault {
        MessageFault::Wire(WireFault::Memory) | MessageFault::Memory => Reply::Memory,
        fault => unread(alloc, fault),
    }
}

fn unread(alloc: Global, fault: MessageFault) -> Reply
    ensures { IsOrMemory (unread fault) result }
{
    match Text::from_str(alloc, fault_name(fault)) {
        Ok(name) => Reply::Answer {
            status: 422,
            body: Body::Offset {
                name,
                at: fault_offset(fault),
            },
        },
        Err(_) => Reply::Memory,
    }
}

/// The reply to a message that is older than the kept timestamp of its feed.
pub fn older_refusal(alloc: Global, have: u64) -> Reply
    ensures { IsOrMemory (older_refusal have) result }
{
    kept(alloc, "older", have)
}

/// The reply where as many messages were accepted, or as many commits made, as may be counted.
pub fn spent_refusal(alloc: Global) -> Reply
    ensures { IsOrMemory spent_refusal result }
{
    kept(alloc, "spent", MOST)
}

fn kept(alloc: Global, name: &str, have: u64) -> Reply
    ensures { IsOrMemory (Reply.Answer 422 (Body.Kept name.now have)) result }
{
    match Text::from_str(alloc, name) {
        Ok(name) => Reply::Answer {
            status: 422,
            body: Body::Kept { name, have },
        },
        Err(_) => Reply::Memory,
    }
}

/// The reply where the session's reader was handed back.
pub fn turned_refusal(alloc: Global) -> Reply
    ensures { IsOrMemory turned_refusal result }
{
    refused(alloc, 503, "turned")
}

//! The bytes of replies.
ghost use Rattle.std.specs.Prelude.{◌≡◌, IfOk, true};
ghost use Rattle.plan_json.specs.Body.{IsBodyOf, body_text};
ghost use Rattle.plan_json.specs.Reply.{is_status, reply_text};
ghost use Rattle.otp_session.specs.Replied.{IsReplied, refusal_text};
ghost use Rattle.otp_session.specs.Steps.{IsSendable};

use crate::base::Ground;
use http_read::HeadFault;
use link_stream::Replied;
use otp_base::{List, Memory};
use otp_model::Feed;
use plan_json::{Body, body_bytes, reply_bytes};
use reply_bodies::{Reply, head_refusal};
use std::alloc::Global;

/// The bytes of a reply, and whether the connection closes behind it for another cause than being the last of a call.
pub fn replied(alloc: Global, feed: &Feed, reply: Reply, close: bool, last: bool) -> Replied
    requires { IsSendable feed.now reply }
    ensures { IsReplied feed.now reply close last result }
{
    let Reply::Answer { status, body } = reply else {
        return Replied::Memory;
    };
    let closes = close || status == 503;
    match text_of(alloc, feed, status, closes || last, &body) {
        Ok(bytes) => Replied::Bytes { bytes, closes },
        Err(_) => Replied::Memory,
    }
}

/// The bytes of a reply with a body.
fn text_of(
    alloc: Global,
    feed: &Feed,
    status: u16,
    close: bool,
    body: &Body,
) -> Result<List<u8>, Memory>
    requires status { is_status status ≡ true }
    requires body { IsBodyOf feed.now body.now }
    ensures { IfOk result (λ bytes. bytes ≡ reply_text status close (body_text feed.now body.now)) }
{
    let text = body_bytes(alloc, feed, body)?;
    reply_bytes(alloc, status, close, text.as_slice())
}

/// The bytes of the reply to a head that is refused.
pub fn refusal(alloc: Global, base: &Ground, fault: HeadFault) -> Result<List<u8>, Memory>
    ensures { IfOk result (λ bytes. bytes ≡ refusal_text fault) }
{
    match head_refusal(alloc, fault) {
        Reply::Answer { status, body } => text_of(alloc, &base.feed, status, true, &body),
        Reply::Memory => Err(Memory),
    }
}

//! Replies byte for byte: their bodies as JSON, pages of journeys among them, and the bytes of HTTP/1.1 around
//! a body.
#![tactic(auto)]

mod body;
mod clock;
mod date;
mod journeys;
mod replies;
mod reply;

pub use body::{Body, body_bytes};
pub use reply::{MEMORY_REPLY, memory_reply, reply_bytes};

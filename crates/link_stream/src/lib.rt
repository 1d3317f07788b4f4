//! One connection: its requests are read, each is served, and its reply is written, in order.
//!
//! How a request is served is the caller's. Whatever relation a service has between a request, its reply and
//! the state before and after, a whole connection is a transcript of it: the requests are those that stand at
//! the front of the bytes one after the other, and what was written is their replies joined.
#![tactic(auto)]

mod laws;
mod service;
mod stream;

pub use laws::one_end;
pub use service::{Replied, Service};
pub use stream::{StreamEnd, serve_stream};

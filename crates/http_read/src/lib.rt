//! Reads the requests of HTTP/1.1 (RFC 9112) off a source of bytes, whatever the sizes of its reads.
//!
//! `next_request` answers what stands at the front of the bytes that a buffer holds and the source has
//! left: a request, the end, one of six refusals, or a request that is cut short. Only the bytes decide
//! it. After a request the buffer holds exactly the bytes behind it that were read; after any other
//! answer it is given up.
#![tactic(auto)]

mod ahead;
mod body;
mod buffered;
mod fields;
mod head;
mod laws;
mod request;
mod scan;
mod stream;
mod text;

pub use buffered::Buffer;
pub use laws::one_item;
pub use request::{HeadFault, HttpRequest, Method, Next};
pub use stream::{buffer, next_request};

#[cfg(test)]
mod tests;

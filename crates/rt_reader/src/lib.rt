//! GTFS Realtime feeds with trip updates, read from the bytes of a FeedMessage: the message, or the first
//! fault with its offset.
#![tactic(auto)]

mod draft;
mod event;
mod fault;
mod feed;
mod reading;
mod slots;
mod trip;

pub use fault::MessageFault;
pub use reading::{one_message, read_message};

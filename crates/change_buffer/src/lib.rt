//! The messages of real-time feeds between two commits: of each feed the last message that was accepted is
//! pending, until what is pending is committed; and what a commit of the pending ones changes in the schedule.
#![tactic(auto)]

mod buffer;
mod difference;
mod feed_changes;
mod feed_state;
mod forms;
mod laws;
mod named;
mod names_changed;
mod offer_fault;
mod pending;
mod prepared;

pub use buffer::Buffer;
pub use laws::schedules_rise;
pub use offer_fault::OfferFault;
pub use prepared::Prepared;

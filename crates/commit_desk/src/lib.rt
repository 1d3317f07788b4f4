//! The desk: what is pending of each real-time feed, and the writer of the one history. It takes messages in, and publishes what is
//! pending as one commit, with the snapshot after it.
#![tactic(auto)]

mod desk;
mod done;
mod meeting;

pub use change_buffer::OfferFault as DeskFault;
pub use desk::Desk;
pub use done::Done;
pub use meeting::meet;

fn is_send<T: Send>() {}

/// A desk may go to another thread. It does nothing when it runs.
pub fn crosses() {
    is_send::<Desk>();
}

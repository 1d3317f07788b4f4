//! The views that a connection keeps, so that later pages are answered over the commit that an earlier page was answered over: those
//! of the last eight commits that it asked for.
#![tactic(auto)]

mod pin;
mod pins;

pub use pins::Pins;

fn is_send<T: Send>() {}

/// Kept views may go to other threads. It does nothing when it runs.
pub fn crosses() {
    is_send::<Pins>();
}

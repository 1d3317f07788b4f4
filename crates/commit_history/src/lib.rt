//! One history of commits, published as snapshots to readers that never wait. A writer publishes a commit at one step; each reader
//! takes the snapshot after some beginning of the history, which never falls behind what it took before or was told of.
#![tactic(auto)]

mod cell;
mod commits;
mod counting;
mod entering;
mod known;
mod log;
mod note;
mod pass;
mod rule;
mod showing;
mod writer;

pub use note::Note;
pub use pass::{Pass, TakeFault, View};
pub use writer::{Writer, open};

fn is_send<T: Send>() {}

/// A pass, a note and a writer may go to other threads. It does nothing when it runs.
pub fn crosses() {
    is_send::<Pass>();
    is_send::<Note>();
    is_send::<Writer>();
}

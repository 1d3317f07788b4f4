//! The sample feeds and messages that tests share, small enough to be computed by hand.
//!
//! `files_of` gives a feed's files as a folder in memory holds them, with some of them changed; the messages are
//! constants of bytes.
#![tactic(auto)]

mod feeds;
mod messages;

pub use feeds::{AFTER_MIDNIGHT, SampleFile, TWO_WAYS, WALK_OR_RIDE, files_of};
pub use messages::{
    ADDED_TRIP, CANCELED, CANCELED_START, EARLY_BY_660, EMPTY, LATE_BY_61, LATE_BY_62, SKIPPED,
};

#[cfg(test)]
mod tests;

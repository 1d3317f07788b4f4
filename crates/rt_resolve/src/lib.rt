//! What a GTFS Realtime message says of the runs of a feed: the changes that it makes, and how many of its entities
//! are ignored for each reason.
#![tactic(auto)]

mod added;
mod course;
mod delay;
mod ids;
mod judging;
mod lookup;
mod meaning;
mod moving;
mod name_key;
mod reason;
mod resolving;
mod tally;

pub use lookup::{FeedIndex, Lookup};
pub use resolving::{Resolved, resolve};

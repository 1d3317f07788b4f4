//! The timetable that a search reads, as blocks of lanes which snapshots share: a change of the schedule makes anew the
//! blocks that it touches, and no others.
#![tactic(auto)]

mod changed;
mod grouping;
mod order;
mod places;
mod renewing;
mod rows;
mod shaping;
mod snapshot;
mod touching;

pub use snapshot::Snapshot;

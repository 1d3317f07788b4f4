//! The least seconds and points to the destination of a request, by the number of rides that are left: from each stop, and from
//! each position of a pattern. They are bounds from below, by which a search leaves out what can't be among the best.
#![tactic(auto)]

mod bounds;
mod exits;
mod far;
mod layout;
mod level;
mod points;
mod scan;
mod seconds;
mod table;

pub use bounds::{EndBounds, end_bounds};
pub use far::FAR;

//! Fronts of finals: of the journeys that were found, when they arrive and at which cost. By them a sequence of rides is
//! lost, to which nothing can be added that is better.
#![tactic(auto)]

mod front;
mod lost;
mod search;
mod standing;
mod step;

pub use front::Front;
pub use lost::{FAR, is_lost};
pub use standing::Standing;
pub use step::Step;

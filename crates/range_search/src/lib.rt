//! The best journeys of a request over a timetable: rounds for each moment at which journeys depart, the last one first, and of
//! what they find the best.
#![tactic(auto)]

mod offers;
mod search;

pub use search::best;

//! Every best journey of a list of runs, by enumeration: all rides, all ends of journeys from a ride on,
//! all journeys that depart in the window, and of these the best. It is slow and plain, and says what
//! each faster search has to find.
#![tactic(auto)]

mod best;
mod offers;
mod rides;
mod tails;

pub use best::all_best;

//! The best of some journeys: those whose values none of the others dominates, one for each value, in
//! the order of values. Each search ends in it.
#![tactic(auto)]

mod front;

pub use front::front_of;

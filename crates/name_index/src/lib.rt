//! Identifiers as numbers: names in the order of their first sight, with an index to find each by.
#![tactic(auto)]

mod names;

pub use names::Names;

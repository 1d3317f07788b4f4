//! Searches of columns of numbers by vectors of lanes, each equal to its plain definition at every length.
//!
//! `first_at_least` finds the first entry that is at least a number, `any_covers` tells whether a place of two columns lies
//! under two limits, and `within` marks the points that are within reach of another. The module `plain` has the same three, one
//! entry at a time, under the same contracts. Nothing is allocated and nothing is refused.
//!
//! Vectors of two lanes are joined four at a time: on x86-64-v2 a 64-bit comparison takes two lanes, and a mask of more lanes
//! would be packed before it could be tested. `bench/kernels.sh` measures each kernel beside its plain loop.
#![tactic(auto)]

mod covers;
mod disc;
mod first;
mod lanes;
pub mod plain;

pub use covers::any_covers;
pub use disc::within;
pub use first::first_at_least;

#[cfg(test)]
mod tests;

//! Walking: the edges between stops, which stops are reached on foot from a place and in how many seconds,
//! and the walk from one place to another.
#![tactic(auto)]

mod all_edges;
mod copies;
mod direct_walk;
mod fault;
mod ground;
mod near;
mod passed;
mod reach;
mod rows;
mod walks;

pub use all_edges::{Walks, edges};
pub use direct_walk::direct;
pub use fault::EdgesFault;
pub use reach::{Reach, reach_of};

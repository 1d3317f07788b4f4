//! Tests of the crates that serve peers: each public call once with ample memory, and what no clause says,
//! as the bytes that a far end receives, and that workers serve at once. They stand apart from those crates, so
//! that none of them is proved a second time for its tests.
#![tactic(auto)]

#[cfg(test)]
mod doors;
#[cfg(test)]
mod network;
#[cfg(test)]
mod streams;
#[cfg(test)]
mod workers;

//! Tests of the crates that read real-time messages and change the schedule: each public call once with ample memory,
//! and worked values of what no clause says. They stand apart from those crates, so that none of them is proved a
//! second time for its tests.
#![tactic(auto)]

#[cfg(test)]
mod bags;
#[cfg(test)]
mod buffers;
#[cfg(test)]
mod fields;
#[cfg(test)]
mod lanes;
#[cfg(test)]
mod messages;
#[cfg(test)]
mod resolving;
#[cfg(test)]
mod sample;
#[cfg(test)]
mod snapshots;

//! Workers that serve the links of a door's ports, all at once, each with a seat of its own.
//!
//! `run_workers` serves each link that a port gives once, in order, with the seat of the port's worker,
//! until the port gives no more or fails. What a seat is, and what a link makes of it, is the job's.
#![tactic(auto)]

mod gate;
mod job;
mod worker;

pub use gate::Gate;
pub use job::Job;
pub use worker::{Worker, run_workers};

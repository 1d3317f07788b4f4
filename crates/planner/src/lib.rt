//! What a request asks for, over runs and edges: a page of its best journeys, and the direct walk.
#![tactic(auto)]

mod pages;

pub use pages::{plan, plan_runs};

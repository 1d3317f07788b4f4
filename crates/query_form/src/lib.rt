//! What the target of a request asks for: a plan, the status, an update or a commit, or its first fault. The
//! path is looked at first, then the number of an RT feed, the method, and the parameters of the query in a
//! fixed order, each with its range and its default; unknown ones are passed over.
#![tactic(auto)]

mod asked;
mod fault;
mod laws;
mod pairs;
mod parameter;
mod place;
mod query;
mod resource;
mod target;

pub use asked::Asked;
pub use fault::{QueryFault, TargetFault};
pub use laws::next_leads_on;
pub use query::read_query;
pub use target::read_target;

//! What replies say: the page of journeys that a request asks for, and for each refusal its status and its body.
#![tactic(auto)]

mod names;
mod plan;
mod refusals;
mod reply;

pub use names::{cause_name, fault_name, fault_offset};
pub use plan::plan_body;
pub use refusals::{
    head_refusal, message_refusal, older_refusal, spent_refusal, target_refusal, turned_refusal,
};
pub use reply::Reply;

//! Bags of labels: when and at what penalty something is reached. A bag keeps the labels that none of its others covers, which
//! is all that a search has to go on from.
#![tactic(auto)]

mod bag;
mod label;

pub use bag::Bag;
pub use label::Label;

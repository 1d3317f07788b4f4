//! A feed of a city of lines, real-time messages of its trips and queries over it, all made from a number. The same number
//! gives the same bytes always: what is drawn is a sequence of numbers, and each file is said by its draws.
#![tactic(auto)]

mod calls;
mod draws;
mod entities;
mod fault;
mod files;
mod lines;
mod messages;
mod names;
mod queries;
mod tables;
mod texts;
mod wire;

pub use fault::GenFault;
pub use files::generated;
pub use messages::message;
pub use names::message_name;
pub use queries::query;

#[cfg(test)]
mod tests;

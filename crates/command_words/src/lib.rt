//! The words of the program's command line, read exactly: which command they ask for, on what, and with
//! which options.
#![tactic(auto)]

mod app;
mod command;
mod messages;
mod serving;
mod values;
mod words;

pub use command::{Command, WordsFault, read_words};
pub use messages::MessageWord;
pub use serving::Serving;

//! What the program stands on: the outside as traits (a folder of files, a source and a sink of bytes,
//! a door whose ports give links to peers), the first three with forms in memory and on the machine, and
//! the small types over `Vec` and `String` that contracts see as lists.
//!
//! A trait of the outside counts its faults. Each call that can fail answers so only where the count
//! of its object rose, and an object may tell its contents, from which each other answer follows.
#![tactic(auto)]

mod adding;
mod copied;
mod digits;
mod disk_folder;
mod door;
mod folder;
mod list;
mod memory;
mod memory_folder;
mod memory_sink;
mod memory_source;
mod port;
mod sink;
mod source;
mod std_sink;
mod std_source;
mod steps;
mod text;

pub use adding::push_some;
pub use copied::Copied;
pub use digits::{number, number_in, number_of_bytes};
pub use disk_folder::DiskFolder;
pub use door::{Door, ListenFault};
pub use folder::{FileEntry, FileFault, FileGot, Folder, read_file};
pub use list::List;
pub use memory::Memory;
pub use memory_folder::{MemoryFolder, SteadyFolder};
pub use memory_sink::{MemorySink, SteadySink};
pub use memory_source::{MemorySource, SteadySource};
pub use port::{Accepted, Port};
pub use sink::{Put, Sink, WriteFault, put_all};
pub use source::{Got, Source};
pub use std_sink::StdSink;
pub use std_source::StdSource;
pub use steps::Steps;
pub use text::Text;

#[cfg(test)]
mod tests;

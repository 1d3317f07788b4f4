//! The program over the feed of a folder: `check FOLDER` counts what is in it, and `plan FOLDER QUERY N=NAME ..` writes
//! the best journeys of a query once the messages of these files are committed.
#![tactic(auto)]

mod commands;
mod committed;
mod counts;
mod messages;
mod offline;
mod refusal;
mod reply;
mod status;

use offline::run_offline;
use otp_base::{DiskFolder, StdSink};
use status::Status;
use std::env;
use std::io::{self, ErrorKind};
use std::process::ExitCode;

fn main(rt: HostRuntime) -> ExitCode {
    let alloc = rt.alloc();
    let words = match arguments(&rt) {
        Ok(words) => words,
        Err(error) if error.kind() == ErrorKind::OutOfMemory => {
            return ExitCode::from(Status::Memory.number());
        }
        // Words that are no text are no command.
        Err(_) => Vec::new(alloc),
    };
    let mut folder = DiskFolder::new(&rt);
    let mut out = StdSink::new(io::writer(&rt));
    ExitCode::from(run_offline(alloc, &words, &mut folder, &mut out).number())
}

/// The words after the program's own name.
fn arguments(rt: &HostRuntime) -> io::Result<Vec<String>> {
    let words = env::args(rt)?.skip(1).collect(rt.alloc())?;
    Ok(words)
}

#[cfg(test)]
mod tests;

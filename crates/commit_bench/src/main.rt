//! Commits messages over a feed, by the words of `plan FOLDER QUERY 1=NAME ..`: it says how many runs each changes, and with
//! the word `time` for the query also how long each part took and how much memory was then held.
#![tactic(auto)]

mod commits;
mod measure;
mod resident;
mod stop;

use command_words::{Command, read_words};
use measure::run;
use std::env;
use stop::Stop;

fn main(rt: HostRuntime) -> anyhow::Result<()> {
    let words: Vec<String> = env::args(&rt)?.skip(1).collect(rt.alloc())?;
    carry_out(&rt, &words)?;
    Ok(())
}

/// Takes the measure that the words ask for.
fn carry_out(rt: &HostRuntime, words: &[String]) -> Result<(), Stop> {
    match read_words(rt.alloc(), words) {
        Ok(
            Command::Plan {
                folder,
                query,
                messages,
                options,
            },
        ) => run(rt, folder, query == "time", &messages, &options),
        Ok(
            Command::Check {
                folder: _folder,
                options: _options,
            },
        ) => Err(Stop::Words),
        Ok(
            Command::Serve {
                folder: _folder,
                options: _options,
                serving: _serving,
            },
        ) => Err(Stop::Words),
        Err(_fault) => Err(Stop::Words),
    }
}

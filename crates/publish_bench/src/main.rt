//! What publishing costs: one writer publishes without pause, and 1, 2 and 4 readers take views by passes; beside them the same
//! readers clone a snapshot behind a lock that a writer replaces without pause. By the words of `plan FOLDER QUERY ..`: it says how
//! many views were taken, and with the word `time` for the query also how long that took.
#![tactic(auto)]

mod measure;
mod publishing;
mod race;
mod replacing;
mod source;
mod stop;
mod times;

use command_words::{Command, read_words};
use feed_load::{Loaded, load};
use measure::measure_all;
use otp_base::DiskFolder;
use std::env;
use stop::Stop;

fn main(rt: HostRuntime) -> anyhow::Result<()> {
    let words: Vec<String> = env::args(&rt)?.skip(1).collect(rt.alloc())?;
    let (timed, loaded) = loaded(&rt, &words)?;
    println!(rt; "feed runs={}", loaded.feed.runs.len())?;
    measure_all(&rt, rt.alloc(), &loaded.feed, timed)?;
    Ok(())
}

/// Whether times are asked for, and the feed that the words name.
fn loaded(rt: &HostRuntime, words: &[String]) -> Result<(bool, Loaded), Stop> {
    match read_words(rt.alloc(), words) {
        Ok(
            Command::Plan {
                folder: path,
                query,
                messages: _messages,
                options,
            },
        ) => {
            let mut folder = DiskFolder::new(rt);
            let loaded = load(rt.alloc(), &mut folder, path, &options)?;
            Ok((query == "time", loaded))
        }
        Ok(
            Command::Check {
                folder: _folder,
                options: _options,
            },
        ) => Err(Stop::Words),
        Ok(
            Command::Serve {
                folder: _folder,
                options: _options,
                serving: _serving,
            },
        ) => Err(Stop::Words),
        Err(_fault) => Err(Stop::Words),
    }
}

//! What plans cost: it plans each query of a file N times over the snapshot of a feed, by the words of `plan FOLDER WORD N=QUERIES ..`
//! (`--feeds` bounds N). It says how many journeys and rides there are and what they cost together; with the word `time` also how long
//! loading, building and planning took, with `values` each journey's value, and with `compare` whether enumeration gives the same values.
#![tactic(auto)]

mod held;
mod measure;
mod plans;
mod stop;
mod sums;

use command_words::{Command, read_words};
use measure::run;
use plans::Telling;
use std::env;
use stop::Stop;

fn main(rt: HostRuntime) -> anyhow::Result<()> {
    let words: Vec<String> = env::args(&rt)?.skip(1).collect(rt.alloc())?;
    carry_out(&rt, &words)?;
    Ok(())
}

/// Takes the measure that the words ask for.
fn carry_out(rt: &HostRuntime, words: &[String]) -> Result<(), Stop> {
    match read_words(rt.alloc(), words) {
        Ok(
            Command::Plan {
                folder,
                query,
                messages,
                options,
            },
        ) => run(rt, folder, telling(query), &messages, &options),
        Ok(
            Command::Check {
                folder: _folder,
                options: _options,
            },
        ) => Err(Stop::Words),
        Ok(
            Command::Serve {
                folder: _folder,
                options: _options,
                serving: _serving,
            },
        ) => Err(Stop::Words),
        Err(_fault) => Err(Stop::Words),
    }
}

/// What a word asks to be told; sums are told in any case.
fn telling(word: &str) -> Telling {
    Telling {
        times: word == "time",
        values: word == "values",
        compares: word == "compare",
    }
}

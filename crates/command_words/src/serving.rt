ghost use Rattle.std.specs.Prelude.{◌≡◌, IfSome};
ghost use Rattle.command_words.specs.App.{found_text};
ghost use Rattle.command_words.specs.Serving.{IsInRange, given_of, none_given, serving_given, serving_in};

use crate::values::{count_or, number_or};
use clap::ArgMatches;

/// The most connections.
const MOST_CONNECTIONS: u64 = 1 << 40;

/// How a feed is served.
#[derive(Clone, Copy, Debug, PartialEq, Eq)]
pub struct Serving {
    /// The port that is listened on; 0 leaves the choice to the system.
    pub port: u16,
    /// How many workers there are, 1 to 64.
    pub workers: u32,
    /// After how many connections no more are taken, 1 to 2^40.
    pub connections: u64,
}

/// The texts of the options that `serve` alone has.
#[derive(Clone, Copy, Debug)]
pub struct ServingTexts<'a> {
    port: Option<&'a str>,
    workers: Option<&'a str>,
    connections: Option<&'a str>,
}

/// Those that clap found.
pub fn serving_texts<'a>(found: &'a ArgMatches<'_>) -> ServingTexts<'a>
    ensures { given_of result ≡ serving_given (found_text found.now) }
{
    ServingTexts {
        port: found.get_str("port"),
        workers: found.get_str("workers"),
        connections: found.get_str("connections"),
    }
}

impl ServingTexts<'_> {
    /// Whether none of them is given.
    pub fn are_none(&self) -> bool
        ensures { result ≡ none_given (given_of self.now) }
    {
        self.port.is_none() && self.workers.is_none() && self.connections.is_none()
    }

    /// What they ask for, if each is a number in its range.
    #[tactic(auto, unfolding(crate::specs::Serving::serving_in))]
    pub fn serving(&self) -> Option<Serving>
        ensures serving { result ≡ serving_in (given_of self.now) }
        ensures range { IfSome result IsInRange }
    {
        let port = number_or(8_080, 0, 65_535, self.port)?;
        let workers = number_or(8, 1, 64, self.workers)?;
        let connections = count_or(MOST_CONNECTIONS, 1, MOST_CONNECTIONS, self.connections)?;
        Some(Serving {
            port: port as u16,
            workers,
            connections,
        })
    }
}

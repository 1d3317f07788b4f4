ghost use Rattle.std.specs.Prelude.{◌≡◌, IfErr, IfOk, IsSomeAnd, map, string_bytes};
ghost use Rattle.otp_model.specs.Ranges.{AreOptionsInRange};
ghost use Rattle.command_words.specs.Commands.{HasRanges, IsCommandOf, IsServeOf, IsTask, Refuses, task_of};
ghost use Rattle.command_words.specs.Serving.{given_of};

use crate::app::matches_in;
use crate::messages::{MessageWord, messages_in};
use crate::serving::{Serving, ServingTexts, serving_texts};
use crate::values::options_in;
use crate::words::{are_once, has_form};
use otp_base::Memory;
use otp_model::Options;
use std::alloc::{AllocError, AllocFailed, Global};

/// The most words that name messages.
const MOST_MESSAGES: usize = 1_000;

/// What the words ask for.
#[derive(Debug, Drop)]
pub enum Command<'a> {
    /// `check FOLDER`: read the feed of a folder and count what is in it.
    Check {
        folder: &'a str,
        options: Options,
    },
    /// `plan FOLDER QUERY N=NAME ..`: plan journeys over the feed of a folder once these messages are committed, by the
    /// query of a plan's target.
    Plan {
        folder: &'a str,
        query: &'a str,
        messages: Vec<MessageWord<'a>>,
        options: Options,
    },
    /// `serve FOLDER`: serve the feed of a folder.
    Serve {
        folder: &'a str,
        options: Options,
        serving: Serving,
    },
}

/// Why words gave no command.
#[derive(Clone, Copy, Debug, PartialEq, Eq)]
pub enum WordsFault {
    /// They are none.
    Words,
    /// Memory ran out.
    Memory,
}

impl From<Memory> for WordsFault {
    ghost use Rattle.command_words.specs.declared.command.WordsFault.TheVariants as faults;

    ghost from_gives = { λ _ e. e ≡ faults.Memory };

    fn from(_error: Memory) -> WordsFault {
        WordsFault::Memory
    }
}

impl From<AllocError> for WordsFault {
    ghost use Rattle.command_words.specs.declared.command.WordsFault.TheVariants as faults;

    ghost from_gives = { λ _ e. e ≡ faults.Memory };

    fn from(_error: AllocError) -> WordsFault {
        WordsFault::Memory
    }
}

impl<T: Drop> From<AllocFailed<T>> for WordsFault {
    ghost use Rattle.command_words.specs.declared.command.WordsFault.TheVariants as faults;

    ghost from_gives = { λ _ e. e ≡ faults.Memory };

    fn from(_error: AllocFailed<T>) -> WordsFault {
        WordsFault::Memory
    }
}

/// Reads the words behind the program's name: `check FOLDER`, `plan FOLDER QUERY` with up to 1,000 words N=NAME
/// behind it, each a file of a message of the real-time feed N, or `serve FOLDER`; with options before, between and
/// behind the positional words.
///
/// `--zone NAME=RULE` (a POSIX rule) and `--from YYYYMMDD` (of the years 1970 to 2998) are needed. `--days` goes
/// from 1 to 31 and is 7 where it isn't given, `--feeds` from 1 to 16 (1), `--speed` from 100 to 10,000 mm/s
/// (1,330), `--reach` from 0 to 5,000,000 mm (1,000,000), `--scale` from 0 to 111,195 (111,195). `serve` alone has
/// `--port` from 0 to 65,535 (8,080), `--workers` from 1 to 64 (8), and `--connections` from 1 to 2^40 (2^40). Each
/// stands at most once.
pub fn read_words(alloc: Global, words: &[String]) -> Result<Command<'_>, WordsFault>
    ensures reads { IfOk result (λ command. IsSomeAnd (task_of (map string_bytes words.now)) (IsTask command)) }
    ensures refuses { IfErr result (Refuses (task_of (map string_bytes words.now))) }
    ensures ranges { IfOk result HasRanges }
{
    let Some((name, behind)) = words.split_first() else {
        return Err(WordsFault::Words);
    };
    if !has_form(behind) || !are_once(behind) {
        return Err(WordsFault::Words);
    }
    let matches = matches_in(alloc, words)?;
    let options = options_in(alloc, &matches)?;
    let serving = serving_texts(&matches);
    let positionals = matches.get_strs("words").unwrap_or(&[]);
    command_of(alloc, name.as_str(), positionals, options, &serving)
}

/// The command of a name and positional words, if they are one's.
fn command_of<'a>(
    alloc: Global,
    name: &str,
    positionals: &[&'a str],
    options: Options,
    serving: &ServingTexts<'_>,
) -> Result<Command<'a>, WordsFault>
    requires { AreOptionsInRange options }
    ensures command { IsCommandOf name.now (map (λ word. word.now) positionals.now) (given_of serving.now) options result }
    ensures ranges { IfOk result HasRanges }
{
    match positionals {
        [folder] if name == "serve" => serve_of(folder, options, serving),
        [folder] if name == "check" && serving.are_none() => Ok(Command::Check { folder, options }),
        [folder, query, words @ ..]
            if name == "plan" && serving.are_none() && words.len() <= MOST_MESSAGES => {
            let messages = messages_in(alloc, options.feeds, words)?;
            Ok(Command::Plan {
                folder,
                query,
                messages,
                options,
            })
        }
        _ => Err(WordsFault::Words),
    }
}

/// The command to serve a folder with these options.
fn serve_of<'a>(
    folder: &'a str,
    options: Options,
    serving: &ServingTexts<'_>,
) -> Result<Command<'a>, WordsFault>
    requires { AreOptionsInRange options }
    ensures command { IsServeOf folder.now (given_of serving.now) options result }
    ensures ranges { IfOk result HasRanges }
{
    match serving.serving() {
        Some(serving) => Ok(Command::Serve {
            folder,
            options,
            serving,
        }),
        None => Err(WordsFault::Words),
    }
}

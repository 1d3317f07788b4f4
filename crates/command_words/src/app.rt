ghost use Rattle.std.specs.Prelude.{◌≡◌, IfErr, IfOk, true, false, map, string_bytes};
ghost use Rattle.clap.specs.Words.{HasMatchesOf, app_of, kind_of, rule_of, takes};
ghost use Rattle.command_words.specs.App.{option_rule, positional_rule, words_app};
ghost use Rattle.command_words.specs.declared.command.WordsFault.TheVariants as faults;

use crate::command::WordsFault;
use crate::words::OPTION_NAMES;
use clap::error::ErrorKind;
use clap::{Arg, ArgAction, ArgMatches, Command, Error};
use std::alloc::Global;

/// What clap finds in a line of words that it takes.
pub fn matches_in<'a>(alloc: Global, words: &'a [String]) -> Result<ArgMatches<'a>, WordsFault>
    requires { takes words_app (map string_bytes words.now) ≡ true }
    ensures ok { IfOk result (HasMatchesOf words_app (map string_bytes words.now)) }
    ensures err { IfErr result (λ e. e ≡ faults.Memory) }
{
    let command = words_app(alloc)?;
    match command.try_get_matches_from(words) {
        Ok(matches) => Ok(matches),
        Err(error) => Err(fault_of(&error)),
    }
}

/// The options and the positional words of a line, behind its first word.
fn words_app<'a>(alloc: Global) -> Result<Command<'a>, WordsFault>
    ensures ok { IfOk result (λ command. app_of command ≡ words_app) }
    ensures err { IfErr result (λ e. e ≡ faults.Memory) }
{
    let mut command = Command::new(alloc, "kegqova");
    for name in &OPTION_NAMES {
        command = command.arg(option(alloc, name))?;
    }
    let command = command.arg(positionals(alloc))?;
    Ok(command)
}

/// An option of one value, whose long name is its id.
fn option<'a>(alloc: Global, name: &'a str) -> Arg<'a>
    ensures rule { rule_of result ≡ option_rule name.now }
    ensures local { result.global ≡ false }
{
    Arg::new(alloc, name).long(name).action(ArgAction::Set)
}

fn positionals<'a>(alloc: Global) -> Arg<'a>
    ensures rule { rule_of result ≡ positional_rule }
    ensures local { result.global ≡ false }
{
    Arg::new(alloc, "words").action(ArgAction::Append)
}

fn fault_of(error: &Error) -> WordsFault
    ensures { kind_of error.now ≡ ErrorKind.OutOfMemory → result ≡ faults.Memory }
{
    match error.kind() {
        ErrorKind::OutOfMemory => WordsFault::Memory,
        _ => WordsFault::Words,
    }
}

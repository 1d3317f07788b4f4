ghost use Rattle.std.specs.Prelude.{◌≡◌, ◌≤◌, IfErr, IfOk, IfSome, IsNone, IsSomeAnd, None, pos, ◌≤ℤ◌};
ghost use Rattle.otp_model.specs.Limits.{last_first_day};
ghost use Rattle.otp_model.specs.Ranges.{AreOptionsInRange};
ghost use Rattle.command_words.specs.App.{found_text};
ghost use Rattle.command_words.specs.Commands.{Refuses};
ghost use Rattle.command_words.specs.Values.{AreAsked, IsNamed, first_day_given, number_or, options_in, text_given, zone_given};

use crate::command::WordsFault;
use clap::ArgMatches;
use otp_base::{Text, number_in};
use otp_model::{DayNo, Options, Profile, Zone, parse_day};
use service_days::zone_of;
use std::alloc::Global;

/// A zone under the name that the feed has for it.
#[derive(Clone, Copy, Debug)]
pub struct NamedZone<'a> {
    pub name: &'a str,
    pub zone: Zone,
}

/// The options that clap found, by name.
#[tactic(auto, unfolding(crate::specs::Values::options_in))]
pub fn options_in(alloc: Global, found: &ArgMatches<'_>) -> Result<Options, WordsFault>
    ensures reads { IfOk result (λ options. IsSomeAnd (options_in (found_text found.now)) (λ asked. AreAsked asked options)) }
    ensures refuses { IfErr result (Refuses (options_in (found_text found.now))) }
    ensures ranges { IfOk result AreOptionsInRange }
{
    let zone = zone_in(found.get_str("zone")).ok_or(WordsFault::Words)?;
    let first_day = first_day_in(found.get_str("from")).ok_or(WordsFault::Words)?;
    let days = number_or(7, 1, 31, found.get_str("days")).ok_or(WordsFault::Words)?;
    let feeds = number_or(1, 1, 16, found.get_str("feeds")).ok_or(WordsFault::Words)?;
    let speed = number_or(1_330, 100, 10_000, found.get_str("speed")).ok_or(WordsFault::Words)?;
    let reach = number_or(1_000_000, 0, 5_000_000, found.get_str("reach")).ok_or(
        WordsFault::Words,
    )?;
    let scale = number_or(111_195, 0, 111_195, found.get_str("scale")).ok_or(WordsFault::Words)?;
    Ok(Options {
        zone: zone.zone,
        zone_name: Text::from_str(alloc, zone.name)?,
        first_day,
        days,
        feeds,
        profile: Profile {
            speed,
            reach,
            scale,
        },
    })
}

/// The zone of NAME=RULE, cut at the first `=`.
fn zone_in(text: Option<&str>) -> Option<NamedZone<'_>>
    ensures zone { IfSome result (λ zone. IsSomeAnd (zone_given (text_given text.entry)) (λ named. IsNamed named zone)) }
    ensures none { IsNone result → zone_given (text_given text.entry) ≡ None }
{
    let (name, rule) = text?.split_once('=')?;
    if name.len() == 0 || rule.len() == 0 {
        return None;
    }
    match zone_of(rule) {
        Ok(zone) => Some(NamedZone { name, zone }),
        Err(_) => None,
    }
}

/// A day of the years 1970 to 2998.
fn first_day_in(text: Option<&str>) -> Option<DayNo>
    ensures day { result ≡ first_day_given (text_given text.entry) }
    ensures range { IfSome result (λ day. (pos 0 ≤ℤ day) × (day ≤ℤ pos last_first_day)) }
{
    let day = parse_day(text?)?;
    if day < 0 || day > 375_834 {
        return None;
    }
    Some(day)
}

/// A number from `low` to `high`, or `usual` where none is given.
pub fn number_or(usual: u32, low: u32, high: u32, text: Option<&str>) -> Option<u32>
    requires range { (low ≤ usual) × (usual ≤ high) }
    ensures number { result ≡ number_or usual low high (text_given text.entry) }
    ensures range { IfSome result (λ n. (low ≤ n) × (n ≤ high)) }
{
    match count_or(u64::from(usual), u64::from(low), u64::from(high), text) {
        Some(number) => Some(number as u32),
        None => None,
    }
}

/// A greater number from `low` to `high`, or `usual` where none is given.
pub fn count_or(usual: u64, low: u64, high: u64, text: Option<&str>) -> Option<u64>
    requires range { (low ≤ usual) × (usual ≤ high) }
    ensures number { result ≡ number_or usual low high (text_given text.entry) }
    ensures range { IfSome result (λ n. (low ≤ n) × (n ≤ high)) }
{
    let Some(text) = text else {
        return Some(usual);
    };
    number_in(low, high, text)
}

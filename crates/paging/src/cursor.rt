ghost use Rattle.std.specs.Prelude.{◌≡◌, ◌≤◌, ◌<◌, ◌^◌, IfOk, IfSome, IsTrue, ◌↔◌, Some, pos, string_bytes, codes, ◌++◌};
ghost use Rattle.std.specs.Option.{option_map};
ghost use Rattle.otp_base.specs.Cut.{cut};
ghost use Rattle.paging.specs.Text.{FitsText, FitsTime, IsCursorOf, cursor_of, cursor_text_of, has_leading_zero, number_then, numbers_in, numbers_text, plain_number_of};

use otp_base::{Memory, Text, number};
use otp_model::{Cursor, Time, Value};
use std::alloc::{AllocError, Global};

/// Whether a cursor's numbers have the digits that its text may have: none is negative, RIDES has at most
/// 9 digits and each other number 18.
pub fn fits_text(cursor: &Cursor) -> bool
    ensures { IsTrue result ↔ FitsText cursor.now }
{
    let Cursor { commit, value } = *cursor;
    is_short(commit)
        && is_short_time(value.departure)
        && is_short_time(value.arrival)
        && value.rides < 1_000_000_000
        && is_short(value.cost)
}

fn is_short(number: u64) -> bool
    ensures { IsTrue result ↔ (number < 10 ^ 18) }
{
    number < 1_000_000_000_000_000_000
}

fn is_short_time(time: Time) -> bool
    ensures { IsTrue result ↔ FitsTime time }
{
    time >= 0 && time < 1_000_000_000_000_000_000
}

/// The text of a cursor: `v1-COMMIT-DEPARTURE-ARRIVAL-RIDES-COST`, with decimal numbers. The cursor's
/// numbers have the digits that it may have (`fits_text`).
pub fn cursor_text(alloc: Global, cursor: &Cursor) -> Result<Text, Memory>
    requires { FitsText cursor.now }
    ensures text { IfOk result (λ text. text ≡ cursor_text_of cursor.now) }
    ensures reads_back { IfOk result (λ text. cursor_of text ≡ Some cursor.now) }
{
    let Cursor { commit, value } = *cursor;
    let text = text_of(
        alloc,
        commit,
        value.departure,
        value.arrival,
        value.rides,
        value.cost,
    )?;
    Ok(Text::from_string(text))
}

fn text_of(
    alloc: Global,
    commit: u64,
    departure: Time,
    arrival: Time,
    rides: u32,
    cost: u64,
) -> Result<String, AllocError>
    ensures { IfOk result (λ text. string_bytes text ≡ codes "v1-" ++ numbers_text commit departure arrival rides cost) }
{
    format!(in alloc; "v1-{commit}-{departure}-{arrival}-{rides}-{cost}")
}

/// The cursor whose text this is: `None` exactly where it is no cursor's. No number has a sign or a
/// leading zero, RIDES has 1 to 9 digits and each other number 1 to 18.
pub fn read_cursor(text: &str) -> Option<Cursor>
    ensures value { result ≡ cursor_of text.now }
    ensures exact { IsCursorOf text.now result }
{
    cursor_in(text)
}

#[tactic(auto, unfolding(crate::specs::Text::cursor_of))]
fn cursor_in(text: &str) -> Option<Cursor>
    ensures { result ≡ cursor_of text.now }
{
    let (version, numbers) = cut(text)?;
    if version == "v1" {
        numbers_in(numbers)
    } else {
        None
    }
}

/// The cursor of these five numbers.
#[tactic(auto, unfolding(crate::specs::Text::numbers_in))]
fn numbers_in(text: &str) -> Option<Cursor>
    ensures { result ≡ numbers_in text.now }
{
    let (commit, rest) = number_then(18, text)?;
    let (departure, rest) = number_then(18, rest)?;
    let (arrival, rest) = number_then(18, rest)?;
    let (rides, rest) = number_then(9, rest)?;
    let cost = plain_number(18, rest)?;
    Some(Cursor {
        commit,
        value: Value {
            departure: time(departure),
            arrival: time(arrival),
            rides: rides as u32,
            cost,
        },
    })
}

fn time(seconds: u64) -> Time
    requires { seconds < 10 ^ 18 }
    ensures { result ≡ pos seconds }
{
    seconds as i64
}

/// The number of at most `most` digits before the first hyphen, and what stands behind it.
#[tactic(auto, unfolding(crate::specs::Text::number_then))]
fn number_then(most: usize, text: &str) -> Option<(u64, &str)>
    requires { most ≤ 18 }
    ensures value { option_map (λ p. (p.0, p.1.now)) result ≡ number_then most text.now }
    ensures small { IfSome result (λ p. p.0 < 10 ^ most) }
{
    let (digits, rest) = cut(text)?;
    let number = plain_number(most, digits)?;
    Some((number, rest))
}

/// The text up to the first hyphen, and what stands behind it.
fn cut(text: &str) -> Option<(&str, &str)>
    ensures { option_map (λ p. (p.0.now, p.1.now)) result ≡ cut 45 text.now }
{
    text.split_once('-')
}

/// The number that 1 to `most` digits without a leading zero spell.
#[tactic(auto, unfolding(crate::specs::Text::plain_number_of))]
fn plain_number(most: usize, text: &str) -> Option<u64>
    requires { most ≤ 18 }
    ensures value { result ≡ plain_number_of most text.now }
    ensures small { IfSome result (λ n. n < 10 ^ most) }
{
    if text.len() > most || has_leading_zero(text.as_bytes()) {
        return None;
    }
    number(text)
}

fn has_leading_zero(text: &[u8]) -> bool
    ensures { result ≡ has_leading_zero text.now }
{
    match text {
        [b'0', _, ..] => true,
        _ => false,
    }
}

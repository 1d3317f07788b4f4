ghost use Rattle.std.specs.Prelude.{◌≡◌, ◌<◌, IfSome};
ghost use Rattle.otp_model.specs.Clock.{below_sixty, clock_of, seconds_of, three_digits};
ghost use Rattle.otp_model.specs.Day.{number_of_two};
ghost use Rattle.otp_model.specs.Limits.{clock_end};

use crate::day::two_digits;

/// The number below 60 that two digits spell.
fn sixty(tens: u8, ones: u8) -> Option<u32>
    ensures number { result ≡ below_sixty (number_of_two tens ones) }
    ensures small { IfSome result (λ n. n < 60) }
{
    match two_digits(tens, ones) {
        Some(number) if number < 60 => Some(number),
        _ => None,
    }
}

/// The number that three digits spell.
fn three_digits(hundreds: u8, tens: u8, ones: u8) -> Option<u32>
    ensures number { result ≡ three_digits (number_of_two 48 hundreds) (number_of_two tens ones) }
    ensures small { IfSome result (λ n. n < 1000) }
{
    let hundreds = digit(hundreds)?;
    let rest = two_digits(tens, ones)?;
    Some(100 * hundreds + rest)
}

/// The number that a digit spells.
fn digit(ones: u8) -> Option<u32>
    ensures number { result ≡ number_of_two 48 ones }
    ensures small { IfSome result (λ n. n < 10) }
{
    if ones >= b'0' && ones <= b'9' {
        Some(u32::from(ones - b'0'))
    } else {
        None
    }
}

/// The seconds of so many hours, minutes and seconds.
fn seconds_of(hours: Option<u32>, minutes: Option<u32>, seconds: Option<u32>) -> Option<u32>
    requires hours { IfSome hours (λ n. n < 1000) }
    requires minutes { IfSome minutes (λ n. n < 60) }
    requires seconds { IfSome seconds (λ n. n < 60) }
    ensures time { result ≡ seconds_of hours minutes seconds }
    ensures small { IfSome result (λ n. n < clock_end) }
{
    let hours = hours?;
    let minutes = minutes?;
    let seconds = seconds?;
    Some(3600 * hours + (60 * minutes + seconds))
}

/// The seconds of a time of day, H:MM:SS with one to three digits of hours (GTFS Schedule reference, "Time"):
/// `None` exactly where the text isn't of this form.
#[tactic(auto, unfolding(crate::specs::Clock::clock_of))]
pub fn parse_clock(text: &[u8]) -> Option<u32>
    ensures time { result ≡ clock_of text.now }
    ensures small { IfSome result (λ n. n < clock_end) }
{
    match text {
        [h, b':', a, b, b':', c, d] => seconds_of(digit(*h), sixty(*a, *b), sixty(*c, *d)),
        [g, h, b':', a, b, b':', c, d] => {
            seconds_of(two_digits(*g, *h), sixty(*a, *b), sixty(*c, *d))
        }
        [f, g, h, b':', a, b, b':', c, d] => {
            seconds_of(three_digits(*f, *g, *h), sixty(*a, *b), sixty(*c, *d))
        }
        _ => None,
    }
}

ghost use Rattle.std.specs.Prelude.{◌≡◌, ◌<◌, IfSome};
ghost use Rattle.jiff_core.specs.Calendar.{IsEpochDay};
ghost use Rattle.otp_model.specs.Day.{day_in, day_of, number_of_two};

use crate::timetable::DayNo;
use jiff::civil::Date;

/// The number that two digits spell.
pub(crate) fn two_digits(tens: u8, ones: u8) -> Option<u32>
    ensures number { result ≡ number_of_two tens ones }
    ensures small { IfSome result (λ n. n < 100) }
{
    if tens >= b'0' && tens <= b'9' && ones >= b'0' && ones <= b'9' {
        Some(10 * u32::from(tens - b'0') + u32::from(ones - b'0'))
    } else {
        None
    }
}

/// The day of this date, if the calendar has it.
fn day_at(year: u32, month: u32, day: u32) -> Option<DayNo>
    requires year { year < 10000 }
    requires month { month < 100 }
    requires day { day < 100 }
    ensures day { result ≡ day_in year month day }
    ensures range { IfSome result IsEpochDay }
{
    if year == 0 {
        return None;
    }
    match Date::new(year as i16, month as i8, day as i8) {
        Ok(date) => Some(date.to_plain().to_unix_epoch_day()),
        Err(_) => None,
    }
}

/// The day of a text of eight digits, YYYYMMDD (GTFS Schedule reference, "Date"): `None` exactly where
/// it isn't a date of the years 0001 to 9999.
#[tactic(auto, unfolding(crate::specs::Day::day_of))]
pub fn parse_day(text: &str) -> Option<DayNo>
    ensures day { result ≡ day_of text.now }
    ensures range { IfSome result IsEpochDay }
{
    match text.as_bytes() {
        [a, b, c, d, e, f, g, h] => {
            let century = two_digits(*a, *b)?;
            let year = two_digits(*c, *d)?;
            let month = two_digits(*e, *f)?;
            let day = two_digits(*g, *h)?;
            day_at(100 * century + year, month, day)
        }
        _ => None,
    }
}

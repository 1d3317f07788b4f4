ghost use Rattle.std.specs.Prelude.{◌≡◌, ◌+◌, ◌<◌, ◌++◌, IfOk, OnOk, string_bytes};
ghost use Rattle.otp_model.specs.Ranges.{IsServiceDay};
ghost use Rattle.plan_json.specs.Date.{date_text, digits_of, two_digits};

use jiff_core::civil::Date;
use otp_model::DayNo;
use std::alloc::{AllocError, Global};

/// The text of a day, YYYYMMDD.
pub fn date_text(alloc: Global, day: DayNo) -> Result<String, AllocError>
    requires { IsServiceDay day }
    ensures { IfOk result (λ text. string_bytes text ≡ date_text day) }
{
    let date = Date::from_unix_epoch_day(i64::from(day)).unwrap();
    digits_of(alloc, date.year.unsigned_abs(), date.month, date.day)
}

/// The text of a date.
fn digits_of(alloc: Global, year: u16, month: u8, day: u8) -> Result<String, AllocError>
    requires year { year < 10000 }
    requires month { month < 100 }
    requires day { day < 100 }
    ensures { IfOk result (λ text. string_bytes text ≡ digits_of year month day) }
{
    let mut text = String::new(alloc);
    push_two(&mut text, (year / 100) as u8)?;
    push_two(&mut text, (year % 100) as u8)?;
    push_two(&mut text, month)?;
    push_two(&mut text, day)?;
    Ok(text)
}

/// Writes two digits.
pub fn push_two(text: &mut String, number: u8) -> Result<(), AllocError>
    requires { number < 100 }
    ensures { OnOk result (string_bytes text.new ≡ string_bytes text.old ++ two_digits number) }
{
    text.push(char::from(b'0' + number / 10))?;
    text.push(char::from(b'0' + number % 10))?;
    Ok(())
}

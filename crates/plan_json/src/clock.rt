ghost use Rattle.std.specs.Prelude.{◌≡◌, ◌++◌, IfOk, codes, decimal, string_bytes};
ghost use Rattle.plan_json.specs.Clock.{clock_text, hours_text};

use crate::date::push_two;
use std::alloc::{AllocError, Global};

/// The text of so many seconds of a day of service, HH:MM:SS.
pub fn clock_text(alloc: Global, seconds: u32) -> Result<String, AllocError>
    ensures { IfOk result (λ text. string_bytes text ≡ clock_text seconds) }
{
    let mut text = hours_text(alloc, seconds / 3_600)?;
    text.push(':')?;
    push_two(&mut text, (seconds / 60 % 60) as u8)?;
    text.push(':')?;
    push_two(&mut text, (seconds % 60) as u8)?;
    Ok(text)
}

/// Hours in at least two digits.
fn hours_text(alloc: Global, hours: u32) -> Result<String, AllocError>
    ensures { IfOk result (λ text. string_bytes text ≡ hours_text hours) }
{
    if hours < 10 {
        one_digit(alloc, hours)
    } else {
        digits(alloc, hours)
    }
}

fn one_digit(alloc: Global, hours: u32) -> Result<String, AllocError>
    ensures { IfOk result (λ text. string_bytes text ≡ codes "0" ++ decimal hours) }
{
    format!(in alloc; "0{hours}")
}

fn digits(alloc: Global, hours: u32) -> Result<String, AllocError>
    ensures { IfOk result (λ text. string_bytes text ≡ decimal hours) }
{
    format!(in alloc; "{hours}")
}

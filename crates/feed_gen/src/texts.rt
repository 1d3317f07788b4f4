ghost use Rattle.std.specs.Prelude.{◌≡◌, ◌<◌, ◌++◌, IfOk, decimal, codes, string_bytes};
ghost use Rattle.feed_gen.specs.Texts.{clock, millionths, trip_id, two_digits};

use std::alloc::{AllocError, Global};

/// Seconds of a day as `HH:MM:SS`.
pub fn clock(alloc: Global, time: u32) -> Result<String, AllocError>
    ensures { IfOk result (λ text. string_bytes text ≡ clock time) }
{
    let hours = two_digits(alloc, time / 3_600)?;
    let minutes = two_digits(alloc, time / 60 % 60)?;
    let seconds = two_digits(alloc, time % 60)?;
    with_colons(alloc, &hours, &minutes, &seconds)
}

fn with_colons(
    alloc: Global,
    hours: &str,
    minutes: &str,
    seconds: &str,
) -> Result<String, AllocError>
    ensures { IfOk result (λ text. string_bytes text ≡ hours.now ++ (codes ":" ++ (minutes.now ++ (codes ":" ++ seconds.now)))) }
{
    format!(in alloc; "{hours}:{minutes}:{seconds}")
}

/// A number below 100.
fn two_digits(alloc: Global, number: u32) -> Result<String, AllocError>
    ensures { IfOk result (λ text. string_bytes text ≡ two_digits number) }
{
    side_by_side(alloc, number / 10, number % 10)
}

fn side_by_side(alloc: Global, tens: u32, ones: u32) -> Result<String, AllocError>
    ensures { IfOk result (λ text. string_bytes text ≡ decimal tens ++ decimal ones) }
{
    format!(in alloc; "{tens}{ones}")
}

/// Millionths below one whole, as `0.` and six digits.
pub fn millionths(alloc: Global, number: u32) -> Result<String, AllocError>
    ensures { IfOk result (λ text. string_bytes text ≡ millionths number) }
{
    fraction(
        alloc,
        number / 100_000 % 10,
        number / 10_000 % 10,
        number / 1_000 % 10,
        number / 100 % 10,
        number / 10 % 10,
        number % 10,
    )
}

fn fraction(
    alloc: Global,
    first: u32,
    second: u32,
    third: u32,
    fourth: u32,
    fifth: u32,
    sixth: u32,
) -> Result<String, AllocError>
    ensures { IfOk result (λ text. string_bytes text ≡ codes "0." ++ (decimal first ++ (decimal second ++ (decimal third ++ (decimal fourth ++ (decimal fifth ++ decimal sixth)))))) }
{
    format!(in alloc; "0.{first}{second}{third}{fourth}{fifth}{sixth}")
}

/// The id of a trip of a line.
pub fn trip_id(alloc: Global, line: u32, trip: u32) -> Result<String, AllocError>
    ensures { IfOk result (λ text. string_bytes text ≡ trip_id line trip) }
{
    format!(in alloc; "T{line}-{trip}")
}

/// A header and the rows behind it.
pub fn with_header(alloc: Global, header: &str, rows: &str) -> Result<String, AllocError>
    ensures { IfOk result (λ text. string_bytes text ≡ header.now ++ rows.now) }
{
    format!(in alloc; "{header}{rows}")
}

ghost use Rattle.std.specs.Prelude.{◌≡◌, ◌⊎◌, ◌≤ℤ◌};
ghost use Rattle.trip_patterns.specs.Spans.{IsSpanOf, IsWithinSpan};

use crate::lane::Lane;
use otp_model::{Call, Time};

/// When lanes depart: no timely run of theirs leaves a call before `first` or after `last`.
#[derive(Clone, Copy, Debug, PartialEq, Eq)]
pub struct Span {
    pub first: Time,
    pub last: Time,
}

impl Span {
    /// The span of no runs, in which no time is.
    pub fn of_none() -> Span {
        Span {
            first: Time::MAX,
            last: Time::MIN,
        }
    }

    /// From the departure from one call to that from another.
    pub(crate) fn between(first: &Call, last: &Call) -> Span
        ensures first { result.first ≡ first.now.departure }
        ensures last { result.last ≡ last.now.departure }
    {
        Span {
            first: first.departure,
            last: last.departure,
        }
    }

    /// The least span with both.
    fn joined(&self, other: &Span) -> Span
        ensures own { (time : _) → IsWithinSpan self.now time → IsWithinSpan result time }
        ensures others { (time : _) → IsWithinSpan other.now time → IsWithinSpan result time }
    {
        Span {
            first: earlier(&self.first, &other.first),
            last: later(&self.last, &other.last),
        }
    }
}

/// When lanes depart, at a cost that doesn't grow with their rows.
pub fn span_of(lanes: &[Lane]) -> Span
    ensures { IsSpanOf lanes.now result }
{
    let mut span = Span::of_none();
    for lane in lanes {
        span = span.joined(&lane.span());
    }
    span
}

fn earlier(time: &Time, other: &Time) -> Time
    ensures own { result ≤ℤ time.now }
    ensures others { result ≤ℤ other.now }
    ensures either { (result ≡ time.now) ⊎ (result ≡ other.now) }
{
    if *time < *other {
        return *time;
    }
    *other
}

fn later(time: &Time, other: &Time) -> Time
    ensures own { time.now ≤ℤ result }
    ensures others { other.now ≤ℤ result }
    ensures either { (result ≡ time.now) ⊎ (result ≡ other.now) }
{
    if *time < *other {
        return *other;
    }
    *time
}

ghost use Rattle.std.specs.Prelude.{◌≡◌, ◌^◌, ◌<◌, ◌≤◌, IfSome, MatchOption};
ghost use Rattle.otp_model.specs.Limits.{clock_end};
ghost use Rattle.feed_load.specs.Anchors.{AreSmall, HasClocks};
ghost use Rattle.feed_load.specs.Calls.{GivesTimes, IsUntimed, time_in_gap};

use otp_model::{Time, TimeRow};

/// The times of a row, in seconds of the service day.
#[derive(Clone, Copy, Debug, PartialEq, Eq)]
pub struct Times {
    pub arrival: u32,
    pub departure: u32,
}

/// The times that a row gives: one that is given serves as the other one too.
pub fn given_times(row: &TimeRow) -> Option<Times>
    ensures given { MatchOption result (IsUntimed row.now) (λ times. GivesTimes row.now times.arrival times.departure) }
    ensures small { HasClocks row.now → IfSome result AreSmall }
{
    match (row.arrival, row.departure) {
        (Some(arrival), Some(departure)) => Some(Times { arrival, departure }),
        (Some(time), None) => Some(Times {
            arrival: time,
            departure: time,
        }),
        (None, Some(time)) => Some(Times {
            arrival: time,
            departure: time,
        }),
        (None, None) => None,
    }
}

/// A row that gives times, by its place, and the one of them that matters.
#[derive(Clone, Copy, Debug, PartialEq, Eq)]
pub struct Anchor {
    pub place: usize,
    pub time: u32,
}

/// The time at a place between two rows that give times, of which the first is left at its time and the
/// second arrived at: in equal steps, rounded down.
pub fn time_between(left: Anchor, reached: Anchor, place: usize) -> Time
    requires after { left.place < place }
    requires before { place < reached.place }
    requires few { reached.place < 2 ^ 32 }
    requires leaves { left.time < clock_end }
    requires arrives { reached.time < clock_end }
    ensures { result ≡ time_in_gap left.place reached.place left.time reached.time place }
{
    let steps = (place - left.place) as i64;
    let apart = (reached.place - left.place) as i64;
    let rise = i64::from(reached.time) - i64::from(left.time);
    i64::from(left.time) + (rise * steps).div_euclid(apart)
}

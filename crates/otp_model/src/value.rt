ghost use Rattle.std.specs.Prelude.{◌≡◌, ◌+◌, ◌-◌, ◌*◌, ◌^◌, ◌≤◌, pos, neg_ℤ, ◌≤ℤ◌, length};
ghost use Rattle.std.specs.List.{All};
ghost use Rattle.otp_model.specs.Journeys.{HasValue, arrival_of, departure_of, rides_of, walked_of};
ghost use Rattle.otp_model.specs.Limits.{least_walk_points, most_board_points, most_walk_points};
ghost use Rattle.otp_model.specs.Ranges.{IsLegInRange};

use crate::journey::{Journey, Leg, Request, Value};
use crate::timetable::Time;

/// What is counted along the legs of a journey.
#[derive(Clone, Copy, Debug)]
struct Totals {
    arrival: Time,
    walked: u64,
    rides: u32,
}

fn departure(legs: &[Leg]) -> Time
    requires { All IsLegInRange legs.now }
    ensures departure { result ≡ departure_of legs.now }
    ensures low { neg_ℤ (pos (2 ^ 43)) ≤ℤ result }
    ensures high { result ≤ℤ pos (2 ^ 43) }
{
    match legs {
        [Leg::Walk { seconds }, Leg::Ride { board, .. }, ..] => {
            board.departure - i64::from(*seconds)
        }
        _ => 0,
    }
}

fn count_totals(legs: &[Leg]) -> Totals
    requires few { length legs.now ≤ 17 }
    requires in_range { All IsLegInRange legs.now }
    ensures arrival { result.arrival ≡ arrival_of legs.now }
    ensures walked { result.walked ≡ walked_of legs.now }
    ensures rides { result.rides ≡ rides_of legs.now }
    ensures low { neg_ℤ (pos (2 ^ 43)) ≤ℤ result.arrival }
    ensures high { result.arrival ≤ℤ pos (2 ^ 43) }
    ensures little { result.walked ≤ 2 ^ 37 }
    ensures few { result.rides ≤ 17 }
{
    let mut arrival: Time = 0;
    let mut walked: u64 = 0;
    let mut rides: u32 = 0;
    for leg in legs {
        match leg {
            Leg::Walk { seconds } => {
                arrival += i64::from(*seconds);
                walked += u64::from(*seconds);
            }
            Leg::Ride { alight, .. } => {
                arrival = alight.arrival;
                rides += 1;
            }
        }
    }
    Totals {
        arrival,
        walked,
        rides,
    }
}

fn cost(request: &Request, elapsed: u64, walked: u64, rides: u32) -> u64
    requires walk_points { least_walk_points ≤ request.now.walk_points }
    requires most_points { request.now.walk_points ≤ most_walk_points }
    requires board_points { request.now.board_points ≤ most_board_points }
    requires elapsed { elapsed ≤ 2 ^ 44 }
    requires little { walked ≤ 2 ^ 37 }
    requires few { rides ≤ 17 }
    ensures { result ≡ 100 * elapsed + (request.now.walk_points - 100) * walked + request.now.board_points * rides }
{
    let walking = u64::from(request.walk_points - 100) * walked;
    let boarding = u64::from(request.board_points) * u64::from(rides);
    100 * elapsed + walking + boarding
}

/// The value of a journey of at most 17 legs that arrives no earlier than it departs. It takes no memory.
pub fn value_of(journey: &Journey, request: &Request) -> Value
    requires few { length journey.now.legs ≤ 17 }
    requires in_range { All IsLegInRange journey.now.legs }
    requires forward { departure_of journey.now.legs ≤ℤ arrival_of journey.now.legs }
    requires walk_points { least_walk_points ≤ request.now.walk_points }
    requires most_points { request.now.walk_points ≤ most_walk_points }
    requires board_points { request.now.board_points ≤ most_board_points }
    ensures { HasValue request.now journey.now.legs result }
{
    let legs = journey.legs.as_slice();
    let departure = departure(legs);
    let totals = count_totals(legs);
    let elapsed = totals.arrival.abs_diff(departure);
    Value {
        departure,
        arrival: totals.arrival,
        rides: totals.rides,
        cost: cost(request, elapsed, totals.walked, totals.rides),
    }
}

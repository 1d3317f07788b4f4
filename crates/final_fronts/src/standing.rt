ghost use Rattle.std.specs.Prelude.{◌≡◌, ◌^◌, ◌+◌, ◌-ℤ◌, ◌+ℤ◌, ◌*ℤ◌, pos};
ghost use Rattle.otp_model.specs.Rows.{IsWithin};
ghost use Rattle.final_fronts.specs.Fronts.{IsStandingInRange, step_after};

use crate::step::Step;
use otp_model::{StopNo, Time};

/// Where a sequence of rides stands: at a stop since a time, after so many rides, with the points of its cost beyond 100 for
/// each second since the departure.
#[derive(Clone, Copy, Debug)]
pub struct Standing {
    pub stop: StopNo,
    pub departure: Time,
    pub rides: u32,
    pub time: Time,
    pub penalty: u64,
}

impl Standing {
    /// Arrival and cost, if it goes on for so many seconds and points.
    pub(crate) fn after(&self, seconds: u32, points: u32) -> Step
        requires { IsStandingInRange self.now }
        ensures { result ≡ step_after self.now seconds points }
    {
        let arrival = arrival_after(self, seconds);
        let elapsed = elapsed_until(self, arrival);
        let points = points_after(self, points);
        Step {
            arrival,
            cost: cost_of(elapsed, points),
        }
    }
}

fn arrival_after(at: &Standing, seconds: u32) -> Time
    requires { IsStandingInRange at.now }
    ensures value { result ≡ at.now.time +ℤ pos seconds }
    ensures range { IsWithin (2 ^ 46) result }
{
    at.time + i64::from(seconds)
}

fn elapsed_until(at: &Standing, arrival: Time) -> i64
    requires at { IsStandingInRange at.now }
    requires range { IsWithin (2 ^ 46) arrival }
    ensures value { result ≡ arrival -ℤ at.now.departure }
    ensures range { IsWithin (2 ^ 47) result }
{
    arrival - at.departure
}

fn points_after(at: &Standing, points: u32) -> i64
    requires { IsStandingInRange at.now }
    ensures value { result ≡ pos (at.now.penalty + points) }
    ensures range { IsWithin (2 ^ 51) result }
{
    at.penalty as i64 + i64::from(points)
}

fn cost_of(elapsed: i64, points: i64) -> i64
    requires elapsed { IsWithin (2 ^ 47) elapsed }
    requires points { IsWithin (2 ^ 51) points }
    ensures { result ≡ (pos 100 *ℤ elapsed) +ℤ points }
{
    100 * elapsed + points
}

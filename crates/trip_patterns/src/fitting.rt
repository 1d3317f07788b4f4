ghost use Rattle.std.specs.Prelude.{◌≡◌, ◌↔◌, IsTrue, length};
ghost use Rattle.std.specs.List.{All};
ghost use Rattle.trip_patterns.specs.Lanes.{IsLane, with_run};
ghost use Rattle.trip_patterns.specs.Rows.{AreRows, IsLastBefore, IsRow, lane_of};

use crate::row::{Row, has_pattern};
use crate::spot::Spot;
use otp_model::{Call, DayNo, Run};

/// Whether a run may stand behind the rows of a lane of this day and pattern.
pub fn fits_behind(day: &DayNo, pattern: &[Spot], rows: &[Row], run: &Run) -> bool
    requires { AreRows day.now pattern.now rows.now }
    ensures { IsTrue result ↔ IsLane (with_run (lane_of day.now pattern.now rows.now) run.now) }
{
    let calls = run.calls.as_slice();
    if !is_same_day(&run.name.day, day) {
        return false;
    }
    if !has_pattern(pattern, calls) {
        return false;
    }
    is_last_before(rows, calls)
}

pub fn is_same_day(day: &DayNo, other: &DayNo) -> bool
    ensures { IsTrue result ↔ (day.now ≡ other.now) }
{
    *day == *other
}

/// Whether the last of the rows, if there is one, stands nowhere behind these calls.
fn is_last_before(rows: &[Row], calls: &[Call]) -> bool
    requires { All (IsRow (length calls.now)) rows.now }
    ensures { IsTrue result ↔ IsLastBefore rows.now calls.now }
{
    let Some(last) = rows.last() else {
        return true;
    };
    last.is_before(calls)
}

ghost use Rattle.std.specs.Prelude.{◌≡◌, ◌↔◌, IsTrue, map};
ghost use Rattle.std.specs.List.{All};
ghost use Rattle.otp_model.specs.Patterns.{spot_of};
ghost use Rattle.trip_patterns.specs.FirstFit.{AreOfOneBlock, IsOfLane};
ghost use Rattle.trip_patterns.specs.Lanes.{empty_lane};

use crate::fitting::is_same_day;
use crate::spot::Spot;
use otp_model::{Call, Run};

/// Whether all runs are of one pattern and day.
pub fn are_of_one_block(runs: &[Run]) -> bool
    ensures { IsTrue result ↔ AreOfOneBlock runs.now }
{
    let Some(first) = runs.first() else {
        return true;
    };
    are_of_block(first, runs)
}

fn are_of_block(first: &Run, runs: &[Run]) -> bool
    ensures { IsTrue result ↔ All (IsOfLane (empty_lane first.now)) runs.now }
{
    for run in runs {
        if !is_of_block(first, run) {
            return false;
        }
    }
    true
}

/// Whether a run is of the pattern and day of another.
pub fn is_of_block(first: &Run, run: &Run) -> bool
    ensures { IsTrue result ↔ IsOfLane (empty_lane first.now) run.now }
{
    if !is_same_day(&run.name.day, &first.name.day) {
        return false;
    }
    is_same_pattern(first.calls.as_slice(), run.calls.as_slice())
}

fn is_same_pattern(calls: &[Call], others: &[Call]) -> bool
    ensures { IsTrue result ↔ (map spot_of others.now ≡ map spot_of calls.now) }
{
    if others.len() != calls.len() {
        return false;
    }
    for position in 0..calls.len() {
        if !Spot::of(&calls[position]).is_of(&others[position]) {
            return false;
        }
    }
    true
}

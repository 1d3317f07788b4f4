ghost use Rattle.std.specs.Prelude.{◌≡◌, ◌⊎◌, ◌+◌, ◌<◌, ◌≤◌, ◌≤ℤ◌, ℤ, false, pos, Some, length, slice_get, OnOk};
ghost use Rattle.std.specs.List.{All};
ghost use Rattle.otp_base.specs.Adds.{FromBelow};
ghost use Rattle.otp_model.specs.Ranges.{IsTimely};
ghost use Rattle.trip_patterns.specs.Spans.{IsWithinSpan};
ghost use Rattle.trip_patterns.specs.Timetables.{IsPlaceOf};
ghost use Rattle.raptor_rounds.specs.Rides.{Boards, CatchesAt, CatchesIn, IsInTime, IsReadyInRange, IsRidden, IsRiddenInBlock, IsTimelyLane, StopsAt, most_departure};
ghost use Rattle.raptor_rounds.specs.RunBounds.{AreRideBounds, IsLaneBound};
ghost use Rattle.raptor_rounds.specs.States.{IsOpenAt, Settles, bounds_of};

use crate::lost::is_lost_from;
use crate::ready::{LanePlace, MOST_DEPARTURE, Ready};
use crate::ride::{board_lane, is_until};
use crate::state::RoundState;
use otp_base::Memory;
use otp_model::{Request, Time};
use std::alloc::Global;
use trip_patterns::{BlockStop, Lane, Span, Timetable};

/// Takes each ride from a stop that is in time, but for those that an earlier run of a lane makes needless.
pub fn board<T: Timetable>(
    alloc: Global,
    timetable: &T,
    request: &Request,
    ready: &Ready,
    state: &mut RoundState,
) -> Result<(), Memory>
    requires timely { All IsTimely (T.runs timetable.now) }
    requires ready { IsReadyInRange request.now ready.now }
    requires open { IsOpenAt request.now ready.now.departure state.old }
    requires bounds { AreRideBounds (T.blocks timetable.now) request.now (bounds_of state.old) }
    ensures { OnOk result (Settles request.now ready.now.departure (Boards (T.runs timetable.now) ready.now) (IsRidden (T.blocks timetable.now) ready.now) state.old state.new) }
{
    for place in timetable.blocks_at(ready.stop) {
        board_place(alloc, timetable, request, ready, place, state)?;
    }
    Ok(())
}

/// Takes each ride that is boarded at a place of the stop.
fn board_place<T: Timetable>(
    alloc: Global,
    timetable: &T,
    request: &Request,
    ready: &Ready,
    place: &BlockStop,
    state: &mut RoundState,
) -> Result<(), Memory>
    requires timely { All IsTimely (T.runs timetable.now) }
    requires place { IsPlaceOf (T.blocks timetable.now) ready.now.stop place.now }
    requires ready { IsReadyInRange request.now ready.now }
    requires open { IsOpenAt request.now ready.now.departure state.old }
    requires bounds { AreRideBounds (T.blocks timetable.now) request.now (bounds_of state.old) }
    ensures { OnOk result (Settles request.now ready.now.departure (CatchesAt (T.blocks timetable.now) ready.now place.now) (IsRidden (T.blocks timetable.now) ready.now) state.old state.new) }
{
    let span = timetable.span(place.block);
    if !may_depart(ready, &span) {
        return Ok(());
    }
    let time = earliest(ready, &span);
    if is_lost_from(request, ready, place.block, place.position, &time, state) {
        return Ok(());
    }
    let lanes = timetable.block(place.block);
    board_lanes(alloc, request, lanes, ready, place, state)?;
    Ok(())
}

/// Whether some row may depart in time.
fn may_depart(ready: &Ready, span: &Span) -> bool
    ensures { result ≡ false → (time : ℤ) → IsInTime ready.now time → IsWithinSpan span.now time → ⊥ }
{
    if span.last < ready.time {
        return false;
    }
    is_until(ready, &span.first)
}

/// When the first row may depart.
fn earliest(ready: &Ready, span: &Span) -> Time
    requires { ready.now.time ≤ℤ pos most_departure }
    ensures after { ready.now.time ≤ℤ result }
    ensures soon { result ≤ℤ pos most_departure }
    ensures either { (result ≡ ready.now.time) ⊎ (result ≡ span.now.first) }
{
    if span.first < ready.time {
        return ready.time;
    }
    if span.first > MOST_DEPARTURE {
        return ready.time;
    }
    span.first
}

/// Takes each ride on the lanes of a block that is boarded at a position.
fn board_lanes(
    alloc: Global,
    request: &Request,
    lanes: &[Lane],
    ready: &Ready,
    place: &BlockStop,
    state: &mut RoundState,
) -> Result<(), Memory>
    requires lanes { All IsTimelyLane lanes.now }
    requires stops { All (StopsAt place.now.position ready.now.stop) lanes.now }
    requires ready { IsReadyInRange request.now ready.now }
    requires open { IsOpenAt request.now ready.now.departure state.old }
    requires bounds { All (IsLaneBound request.now (bounds_of state.old) place.now.block) lanes.now }
    ensures { OnOk result (Settles request.now ready.now.departure (FromBelow (CatchesIn lanes.now ready.now place.now.position) (length lanes.now)) (IsRiddenInBlock lanes.now ready.now place.now.block) state.old state.new) }
{
    for number in 0..lanes.len() {
        let at = LanePlace {
            block: place.block,
            lane: number,
            position: place.position,
        };
        board_lane(alloc, request, &lanes[number], ready, &at, state)?;
    }
    Ok(())
}

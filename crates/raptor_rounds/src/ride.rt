ghost use Rattle.std.specs.Prelude.{◌≡◌, ◌↔◌, ◌+◌, ◌<◌, ◌≤◌, length, IsTrue, OnOk};
ghost use Rattle.otp_base.specs.Adds.{FromBelow};
ghost use Rattle.trip_patterns.specs.Lanes.{IsFirstCatch};
ghost use Rattle.raptor_rounds.specs.Rides.{AlightsAt, Catches, IsBoarded, IsReadyInRange, IsRiddenOn, IsTimelyLane, IsUntil, StopsAt, node_at as node_of};
ghost use Rattle.raptor_rounds.specs.RunBounds.{IsLaneBound};
ghost use Rattle.raptor_rounds.specs.States.{IsOpenAt, Settles, bounds_of};

use crate::lost::is_lost_from;
use crate::node::Node;
use crate::offer::offer;
use crate::ready::{LanePlace, Ready};
use crate::state::RoundState;
use otp_base::Memory;
use otp_model::{Call, Request, Time};
use std::alloc::Global;
use trip_patterns::Lane;

/// Boards the first row of the lane that is in time, and alights wherever that is allowed.
pub fn board_lane(
    alloc: Global,
    request: &Request,
    lane: &Lane,
    ready: &Ready,
    at: &LanePlace,
    state: &mut RoundState,
) -> Result<(), Memory>
    requires lane { IsTimelyLane lane.now }
    requires stops { StopsAt at.now.position ready.now.stop lane.now }
    requires ready { IsReadyInRange request.now ready.now }
    requires open { IsOpenAt request.now ready.now.departure state.old }
    requires bounds { IsLaneBound request.now (bounds_of state.old) at.now.block lane.now }
    ensures { OnOk result (Settles request.now ready.now.departure (Catches lane.now ready.now at.now.position) (IsRiddenOn lane.now ready.now at.now.block at.now.lane) state.old state.new) }
{
    if !lane.may_board(at.position) {
        return Ok(());
    }
    let row = first_in_time(lane, ready, at.position);
    if row >= lane.rows() {
        return Ok(());
    }
    let board = lane.call(row, at.position);
    if !is_until(ready, &board.departure) {
        return Ok(());
    }
    if is_lost_from(
        request,
        ready,
        at.block,
        at.position,
        &board.departure,
        state,
    ) {
        return Ok(());
    }
    ride(alloc, request, lane, ready, at, row, state)?;
    Ok(())
}

/// The first row that departs from the position when the traveller is ready, or later.
fn first_in_time(lane: &Lane, ready: &Ready, position: usize) -> usize
    requires { position < length lane.now.pattern }
    ensures { IsFirstCatch lane.now.runs position ready.now.time result }
{
    lane.first_catch(position, ready.time)
}

/// Whether the time is no later than the latest moment.
pub fn is_until(ready: &Ready, time: &Time) -> bool
    ensures { IsTrue result ↔ IsUntil ready.now.latest time.now }
{
    match ready.latest {
        None => true,
        Some(latest) => *time <= latest,
    }
}

/// Alights from a row at each position behind the boarding where that is allowed.
fn ride(
    alloc: Global,
    request: &Request,
    lane: &Lane,
    ready: &Ready,
    at: &LanePlace,
    row: usize,
    state: &mut RoundState,
) -> Result<(), Memory>
    requires lane { IsTimelyLane lane.now }
    requires boarded { IsBoarded lane.now ready.now at.now.position row }
    requires ready { IsReadyInRange request.now ready.now }
    requires open { IsOpenAt request.now ready.now.departure state.old }
    ensures { OnOk result (Settles request.now ready.now.departure (FromBelow (AlightsAt lane.now ready.now at.now.position row) (length lane.now.pattern)) (IsRiddenOn lane.now ready.now at.now.block at.now.lane) state.old state.new) }
{
    let positions = lane.positions();
    for to in at.position + 1..positions {
        alight(alloc, request, lane, ready, at, row, to, state)?;
    }
    Ok(())
}

/// Alights from a row at a position, where that is allowed.
fn alight(
    alloc: Global,
    request: &Request,
    lane: &Lane,
    ready: &Ready,
    at: &LanePlace,
    row: usize,
    to: usize,
    state: &mut RoundState,
) -> Result<(), Memory>
    requires lane { IsTimelyLane lane.now }
    requires boarded { IsBoarded lane.now ready.now at.now.position row }
    requires after { at.now.position < to }
    requires within { to < length lane.now.pattern }
    requires ready { IsReadyInRange request.now ready.now }
    requires open { IsOpenAt request.now ready.now.departure state.old }
    ensures { OnOk result (Settles request.now ready.now.departure (AlightsAt lane.now ready.now at.now.position row to) (IsRiddenOn lane.now ready.now at.now.block at.now.lane) state.old state.new) }
{
    let call = lane.call(row, to);
    if !call.alight {
        return Ok(());
    }
    let node = node_at(ready, at, row, to, &call);
    offer(alloc, request, &node, state)?;
    Ok(())
}

fn node_at(ready: &Ready, at: &LanePlace, row: usize, to: usize, call: &Call) -> Node
    ensures { result ≡ node_of ready.now at.now row to call.now }
{
    Node {
        stop: call.stop,
        departure: ready.departure,
        rides: ready.rides,
        time: call.arrival,
        penalty: ready.penalty,
        parent: ready.parent,
        walk: ready.walk,
        block: at.block,
        lane: at.lane,
        row,
        board: at.position,
        alight: to,
    }
}

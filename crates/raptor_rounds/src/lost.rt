ghost use Rattle.std.specs.Prelude.{◌≡◌, ◌≤◌, ◌≤ℤ◌, pos, IsTrue};
ghost use Rattle.final_fronts.specs.declared.standing.Standing.{Standing as StandingOf};
ghost use Rattle.otp_model.specs.Ranges.{IsRequestInRange};
ghost use Rattle.raptor_rounds.specs.Closure.{IsLostEntry};
ghost use Rattle.raptor_rounds.specs.Labels.{InFinals, entry_of};
ghost use Rattle.raptor_rounds.specs.Rides.{IsNodeInRange, IsReadyInRange, most_departure, standing_at as standing_on, standing_of as standing_in};
ghost use Rattle.raptor_rounds.specs.States.{IsLostFrom, IsLostStop, IsOpenAt, bounds_of};

use crate::node::Node;
use crate::ready::Ready;
use crate::state::RoundState;
use final_fronts::{Standing, is_lost};
use otp_model::{Request, Time};

fn standing_of(node: &Node) -> Standing
    ensures { result ≡ standing_in node.now }
{
    Standing {
        stop: node.stop,
        departure: node.departure,
        rides: node.rides,
        time: node.time,
        penalty: node.penalty,
    }
}

/// Whether the label is lost.
pub fn is_lost_label(request: &Request, node: &Node, state: &RoundState) -> bool
    requires request { IsRequestInRange request.now }
    requires node { IsNodeInRange request.now node.now }
    requires open { IsOpenAt request.now node.now.departure state.now }
    ensures { IsTrue result → IsLostEntry request.now (bounds_of state.now) (InFinals state.now.finals.items) (entry_of node.now) }
{
    let bounds = &state.aim.bounds;
    let seconds = bounds.alight(node.stop);
    let points = bounds.alight_points(node.stop);
    is_lost(
        &state.fronts,
        &standing_of(node),
        request.rides,
        seconds,
        points,
    )
}

fn standing_at(ready: &Ready, time: &Time) -> Standing
    ensures { result ≡ standing_on ready.now time.now }
{
    Standing {
        stop: ready.stop,
        departure: ready.departure,
        rides: ready.rides,
        time: *time,
        penalty: ready.penalty,
    }
}

/// Whether who is ready for a further ride is lost, whichever it takes.
pub fn is_lost_stop(request: &Request, ready: &Ready, state: &RoundState) -> bool
    requires ready { IsReadyInRange request.now ready.now }
    requires open { IsOpenAt request.now ready.now.departure state.now }
    ensures { IsTrue result → IsLostStop request.now state.now ready.now }
{
    if ready.rides < 2 {
        return false;
    }
    let bounds = &state.aim.bounds;
    let seconds = bounds.ready(ready.stop);
    let points = bounds.ready_points(ready.stop);
    is_lost(
        &state.fronts,
        &standing_at(ready, &ready.time),
        request.rides,
        seconds,
        points,
    )
}

/// Whether who is ready for a further ride is lost, if it takes one of the block from this position at the time or later.
pub fn is_lost_from(
    request: &Request,
    ready: &Ready,
    block: usize,
    position: usize,
    time: &Time,
    state: &RoundState,
) -> bool
    requires ready { IsReadyInRange request.now ready.now }
    requires after { ready.now.time ≤ℤ time.now }
    requires soon { time.now ≤ℤ pos most_departure }
    requires open { IsOpenAt request.now ready.now.departure state.now }
    ensures { IsTrue result → IsLostFrom request.now state.now ready.now block position time.now }
{
    if ready.rides < 2 {
        return false;
    }
    let bounds = &state.aim.bounds;
    let seconds = bounds.place(block, position);
    let points = bounds.ready_points(ready.stop);
    is_lost(
        &state.fronts,
        &standing_at(ready, time),
        request.rides,
        seconds,
        points,
    )
}

ghost use Rattle.std.specs.Prelude.{◌≡◌, ◌↔◌, ◌+◌, ◌<◌, ◌≤◌, max, pos, ◌+ℤ◌, ◌≤ℤ◌, IsTrue, MatchOption};
ghost use Rattle.otp_model.specs.Beginnings.{hop_penalty as penalty_of};
ghost use Rattle.otp_model.specs.Ranges.{IsRequestInRange, IsTime};
ghost use Rattle.raptor_rounds.specs.Rides.{IsNodeInRange, IsReadyFor, IsReadyInRange, most_departure, most_hop, ready_by as ready_over};

use crate::node::Node;
use otp_model::{Edge, Request, StopNo, Time};
use walk_table::Reach;

/// Who is ready at a stop from a time on, for a ride that departs no later than the latest moment, if there is one. The
/// ride to come is counted.
#[derive(Clone, Copy, Debug)]
pub struct Ready {
    pub stop: StopNo,
    pub time: Time,
    pub latest: Option<Time>,
    pub departure: Time,
    pub rides: u32,
    pub penalty: u64,
    pub parent: Option<usize>,
    pub walk: u32,
}

/// A position of a lane, by the number of its block and its own.
#[derive(Clone, Copy, Debug)]
pub struct LanePlace {
    pub block: usize,
    pub lane: usize,
    pub position: usize,
}

/// After the access, for a ride that departs at the end of it; none where no ride can.
pub fn ready_at(request: &Request, departure: &Time, reach: &Reach) -> Option<Ready>
    requires { IsRequestInRange request.now }
    ensures { MatchOption result (IsTime (departure.now +ℤ pos reach.now.seconds) → ⊥) (IsReadyFor request.now departure.now reach.now) }
{
    let time = departure.checked_add(i64::from(reach.seconds))?;
    if !is_time(&time) {
        return None;
    }
    Some(ready_until(request, departure, &time, reach))
}

/// Whether rides are searched at the time.
fn is_time(time: &Time) -> bool
    ensures { IsTrue result ↔ IsTime time.now }
{
    *time >= -MOST_TIME && *time <= MOST_TIME
}

/// A departure that is searched, either way.
pub const MOST_DEPARTURE: i64 = 1 << 43;

/// A time that is searched, either way.
const MOST_TIME: i64 = 1 << 42;

fn ready_until(request: &Request, departure: &Time, time: &Time, reach: &Reach) -> Ready
    requires request { IsRequestInRange request.now }
    requires time { time.now ≡ departure.now +ℤ pos reach.now.seconds }
    requires range { IsTime time.now }
    ensures { IsReadyFor request.now departure.now reach.now result }
{
    Ready {
        stop: reach.stop,
        time: *time,
        latest: Some(*time),
        departure: *departure,
        rides: 1,
        penalty: hop_penalty(request, reach.seconds),
        parent: None,
        walk: reach.seconds,
    }
}

/// After an edge from the stop of a label, which has this number.
pub fn ready_by(request: &Request, number: usize, node: &Node, edge: &Edge) -> Ready
    requires request { IsRequestInRange request.now }
    requires node { IsNodeInRange request.now node.now }
    requires few { node.now.rides < request.now.rides }
    ensures ready { result ≡ ready_over request.now number node.now edge.now }
    ensures range { IsReadyInRange request.now result }
{
    Ready {
        stop: edge.to,
        time: time_after(request, node, edge),
        latest: None,
        departure: node.departure,
        rides: node.rides + 1,
        penalty: node.penalty + hop_penalty(request, edge.walk),
        parent: Some(number),
        walk: edge.walk,
    }
}

/// When the change is over.
fn time_after(request: &Request, node: &Node, edge: &Edge) -> Time
    requires { IsTime node.now.time }
    ensures value { result ≡ node.now.time +ℤ pos (max (edge.now.walk + request.now.slack) edge.now.minimum) }
    ensures soon { result ≤ℤ pos most_departure }
{
    let change = (u64::from(edge.walk) + u64::from(request.slack)).max(u64::from(edge.minimum));
    node.time + change as i64
}

/// What a walk and a boarding cost beyond 100 for each second.
fn hop_penalty(request: &Request, walk: u32) -> u64
    requires { IsRequestInRange request.now }
    ensures value { result ≡ penalty_of request.now walk }
    ensures most { result ≤ most_hop }
{
    let walking = u64::from(request.walk_points - 100) * u64::from(walk);
    walking + u64::from(request.board_points)
}

ghost use Rattle.std.specs.Prelude.{◌+◌, max, pos, ◌+ℤ◌, ◌≤ℤ◌, ◌≡◌, ◌↔◌, ◌++◌, IfOk, IsTrue, OnOk};
ghost use Rattle.std.specs.List.{Contains};
ghost use Rattle.otp_base.specs.Adds.{Adds, FromSome, IsOnly};
ghost use Rattle.plain_search.specs.Tails.{IsLastTail, IsLonger, IsLongerBy, IsLongerFrom, Joins, legs_before};

use crate::rides::Ride;
use otp_base::{Copied, List, Memory, push_some};
use otp_model::{Call, Edge, Edges, Leg};
use std::alloc::Global;
use walk_table::Reach;

/// All ends of journeys with one ride.
pub fn last_tails(alloc: Global, rides: &[Ride], egress: &[Reach]) -> Result<Vec<List<Leg>>, Memory>
    ensures { IfOk result (λ tails. (legs : _) → Contains tails.items legs
        ↔ FromSome (λ ride. FromSome (IsLastTail ride) egress.now) rides.now legs) }
{
    let mut tails = Vec::new(alloc);
    for ride in rides {
        add_last_tails(alloc, ride, egress, &mut tails)?;
    }
    Ok(tails)
}

fn add_last_tails(
    alloc: Global,
    ride: &Ride,
    egress: &[Reach],
    tails: &mut Vec<List<Leg>>,
) -> Result<(), Memory>
    ensures { OnOk result (Adds (FromSome (IsLastTail ride.now) egress.now) tails.old.items tails.new.items) }
{
    for reach in egress {
        push_some(tails, last_tail(alloc, ride, reach)?)?;
    }
    Ok(())
}

/// The last ride and the walk to the destination, if that is a walk from its stop.
fn last_tail(alloc: Global, ride: &Ride, reach: &Reach) -> Result<Option<List<Leg>>, Memory>
    ensures { IfOk result (IsOnly (IsLastTail ride.now reach.now)) }
{
    if ride.alight.stop != reach.stop {
        return Ok(None);
    }
    Ok(Some(legs_before(alloc, ride, reach.seconds, &[])?))
}

/// A ride, and a walk after it, before other legs.
fn legs_before(alloc: Global, ride: &Ride, seconds: u32, tail: &[Leg]) -> Result<List<Leg>, Memory>
    ensures { IfOk result (λ legs. legs ≡ legs_before ride.now seconds tail.now) }
{
    let name = ride.name.copy(alloc)?;
    let mut legs = Vec::new(alloc);
    legs.push(Leg::Ride {
        name,
        board: ride.board,
        alight: ride.alight,
    })?;
    legs.push(Leg::Walk { seconds })?;
    push_legs(alloc, &mut legs, tail)?;
    Ok(List::from_vec(legs))
}

/// Adds copies of the legs at the end.
pub fn push_legs(alloc: Global, legs: &mut Vec<Leg>, more: &[Leg]) -> Result<(), Memory>
    ensures { OnOk result (legs.new.items ≡ legs.old.items ++ more.now) }
{
    for leg in more {
        legs.push(leg.copy(alloc)?)?;
    }
    Ok(())
}

/// All ends of journeys with one ride more.
pub fn longer_tails(
    alloc: Global,
    slack: u32,
    edges: &Edges,
    tails: &[List<Leg>],
    rides: &[Ride],
) -> Result<Vec<List<Leg>>, Memory>
    ensures { IfOk result (λ longer. (legs : _) → Contains longer.items legs
        ↔ FromSome (IsLongerFrom slack edges.now tails.now) rides.now legs) }
{
    let mut longer = Vec::new(alloc);
    for ride in rides {
        add_longer_from(alloc, slack, edges, tails, ride, &mut longer)?;
    }
    Ok(longer)
}

fn add_longer_from(
    alloc: Global,
    slack: u32,
    edges: &Edges,
    tails: &[List<Leg>],
    ride: &Ride,
    longer: &mut Vec<List<Leg>>,
) -> Result<(), Memory>
    ensures { OnOk result (Adds (IsLongerFrom slack edges.now tails.now ride.now) longer.old.items longer.new.items) }
{
    let Some(row) = edges.from.as_slice().get(ride.alight.stop as usize) else {
        return Ok(());
    };
    add_longer_over(alloc, slack, row.as_slice(), tails, ride, longer)
}

fn add_longer_over(
    alloc: Global,
    slack: u32,
    row: &[Edge],
    tails: &[List<Leg>],
    ride: &Ride,
    longer: &mut Vec<List<Leg>>,
) -> Result<(), Memory>
    ensures { OnOk result (Adds (FromSome (IsLongerBy slack row.now ride.now) tails.now) longer.old.items longer.new.items) }
{
    for tail in tails {
        add_longer_by(alloc, slack, row, ride, tail.as_slice(), longer)?;
    }
    Ok(())
}

fn add_longer_by(
    alloc: Global,
    slack: u32,
    row: &[Edge],
    ride: &Ride,
    tail: &[Leg],
    longer: &mut Vec<List<Leg>>,
) -> Result<(), Memory>
    ensures { OnOk result (Adds (IsLongerBy slack row.now ride.now tail.now) longer.old.items longer.new.items) }
{
    for edge in row {
        push_some(longer, longer_tail(alloc, slack, ride, edge, tail)?)?;
    }
    Ok(())
}

/// The ride, the walk of the edge and the tail, if the edge joins them.
fn longer_tail(
    alloc: Global,
    slack: u32,
    ride: &Ride,
    edge: &Edge,
    tail: &[Leg],
) -> Result<Option<List<Leg>>, Memory>
    ensures { IfOk result (IsOnly (IsLonger slack ride.now tail.now edge.now)) }
{
    if !joins(slack, ride, edge, tail) {
        return Ok(None);
    }
    Ok(Some(legs_before(alloc, ride, edge.walk, tail)?))
}

/// Whether an edge leads from a ride to the first ride of the legs, in time.
fn joins(slack: u32, ride: &Ride, edge: &Edge, tail: &[Leg]) -> bool
    ensures { IsTrue result ↔ Joins slack ride.now edge.now tail.now }
{
    match tail {
        [Leg::Ride { board, .. }, ..] => {
            edge.to == board.stop && is_in_time(slack, &ride.alight, edge, board)
        }
        _ => false,
    }
}

/// Whether the change is over when the next ride departs.
fn is_in_time(slack: u32, alight: &Call, edge: &Edge, board: &Call) -> bool
    ensures { IsTrue result ↔ ((alight.now.arrival +ℤ pos (max (edge.now.walk + slack) edge.now.minimum)) ≤ℤ board.now.departure) }
{
    let change = (u64::from(edge.walk) + u64::from(slack)).max(u64::from(edge.minimum));
    i128::from(alight.arrival) + i128::from(change) <= i128::from(board.departure)
}

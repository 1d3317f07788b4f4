ghost use Rattle.std.specs.Prelude.{◌≡◌, ◌++◌, ◌<◌, ◌≤◌, ◌^◌, length, slice_get, Some, IfErr, IfOk, IsTrue, OnOk, ◌↔◌};
ghost use Rattle.std.specs.Option.{option_to_list};
ghost use Rattle.otp_base.specs.Adds.{IsOnly};
ghost use Rattle.otp_base.specs.EachAt.{EachAt};
ghost use Rattle.otp_model.specs.Limits.{most_edges};
ghost use Rattle.otp_model.specs.Ranges.{CanWalk};
ghost use Rattle.walk_table.specs.Edges.{AreEdges, AreEdgesFrom, AreInReach, HasMoreEdges, edge_count};
ghost use Rattle.walk_table.specs.Faults.{IsCause, IsCauseFrom, IsOverfull};
ghost use Rattle.walk_table.specs.Near.{AreStandings};
ghost use Rattle.walk_table.specs.Passed.{Counts, IsPassedOver};
ghost use Rattle.walk_table.specs.Rows.{IsEdgeTo, IsGiven};

use crate::copies::copied_stops;
use crate::fault::EdgesFault;
use crate::ground::{Ground, Numbered};
use crate::near::{Northward, candidates, northward_of};
use crate::passed::passed_over;
use crate::rows::{greatest_minimum, is_barred, is_named, rows_from};
use crate::walks::{FARTHEST, seconds_over, square_within};
use otp_base::List;
use otp_model::{Edge, Edges, Profile, Stop, StopNo, TransferRow};
use std::alloc::Global;

/// The most edges that there may be.
const MOST_EDGES: usize = 100_000_000;

/// The edges between stops, and the number of rows of `transfers.txt` that hold for no pair of stops.
#[derive(Debug, Drop)]
pub struct Walks {
    pub edges: Edges,
    pub passed: u64,
}

/// The edges between the stops, by their distances and by the rows of `transfers.txt` (GTFS Schedule
/// reference, `transfers.txt`): from each stop to itself, from each stop or platform to those within the
/// profile's reach, and as the rows say; and how many rows hold for no pair. There are at most 100,000,000
/// edges, else the answer is `TooMany`. The stops are copied.
pub fn edges(
    alloc: Global,
    stops: &[Stop],
    transfers: &[TransferRow],
    profile: &Profile,
) -> Result<Walks, EdgesFault>
    requires walks { CanWalk profile.now }
    requires stops { length stops.now < 2 ^ 32 }
    ensures edges { IfOk result (λ walks. AreEdges stops.now transfers.now profile.now walks.edges) }
    ensures count { IfOk result (λ walks. edge_count walks.edges.from ≤ most_edges) }
    ensures few { IfOk result (λ walks. HasMoreEdges most_edges stops.now transfers.now profile.now → ⊥) }
    ensures passed { IfOk result (λ walks. Counts (IsPassedOver stops.now) transfers.now walks.passed) }
    ensures fault { IfErr result (IsCause stops.now transfers.now profile.now) }
{
    let ground = Ground { stops, profile };
    let from = edges_from_all(alloc, &ground, transfers)?;
    let passed = passed_over(alloc, stops, transfers)?;
    let stops = copied_stops(alloc, stops)?;
    Ok(Walks {
        edges: Edges {
            stops,
            from,
            profile: *profile,
        },
        passed,
    })
}

/// For each stop the edges from it.
fn edges_from_all(
    alloc: Global,
    ground: &Ground,
    transfers: &[TransferRow],
) -> Result<List<List<Edge>>, EdgesFault>
    requires walks { CanWalk ground.now.profile.now }
    requires stops { length ground.now.stops.now < 2 ^ 32 }
    ensures whole { IfOk result (λ from. length from ≡ length ground.now.stops.now) }
    ensures each { IfOk result (EachAt (AreEdgesFrom ground.now.stops.now transfers.now ground.now.profile.now)) }
    ensures count { IfOk result (λ from. edge_count from ≤ most_edges) }
    ensures fault { IfErr result (IsCause ground.now.stops.now transfers.now ground.now.profile.now) }
{
    let northward = northward_of(alloc, ground.stops)?;
    let mut from = List::new(alloc);
    let mut room = MOST_EDGES;
    for (number, stop) in ground.stops.iter().enumerate() {
        let number = number as StopNo;
        let at = Numbered { number, stop };
        let list = edges_from(alloc, ground, &northward, transfers, &at, room)?;
        room -= list.len();
        from.push(list)?;
    }
    Ok(from)
}

/// The edges from one stop, if there is room for so many.
fn edges_from(
    alloc: Global,
    ground: &Ground,
    northward: &Northward,
    transfers: &[TransferRow],
    from: &Numbered,
    room: usize,
) -> Result<List<Edge>, EdgesFault>
    requires walks { CanWalk ground.now.profile.now }
    requires stands { AreStandings northward.now.south ground.now.stops.now northward.now.standings.items }
    requires stops { length ground.now.stops.now < 2 ^ 32 }
    requires stop { slice_get ground.now.stops.now from.now.number ≡ Some from.now.stop.now }
    ensures edges { IfOk result (AreEdgesFrom ground.now.stops.now transfers.now ground.now.profile.now from.now.number) }
    ensures few { IfOk result (λ list. length list ≤ room) }
    ensures fault { IfErr result (IsCauseFrom ground.now.stops.now transfers.now ground.now.profile.now from.now.number room) }
{
    let rows = rows_from(alloc, ground.stops, transfers, from)?;
    let candidates = candidates(alloc, ground, northward, &rows, from)?;
    let mut list = Vec::new(alloc);
    for &number in &candidates {
        let to = Numbered {
            number,
            stop: &ground.stops[number as usize],
        };
        let edge = edge_to(ground, &rows, from, &to);
        add_edge(&mut list, edge, room)?;
    }
    Ok(List::from_vec(list))
}

/// Adds an edge, if there is one and room for it.
fn add_edge(list: &mut Vec<Edge>, edge: Option<Edge>, room: usize) -> Result<(), EdgesFault>
    requires { length list.old.items ≤ room }
    ensures added { OnOk result (list.new.items ≡ list.old.items ++ option_to_list edge) }
    ensures few { OnOk result (length list.new.items ≤ room) }
    ensures fault { IfErr result (IsOverfull list.old.items edge room) }
{
    let Some(edge) = edge else {
        return Ok(());
    };
    if list.len() == room {
        return Err(EdgesFault::TooMany);
    }
    list.push(edge)?;
    Ok(())
}

/// The edge from one stop to another, by the rows that leave the one.
fn edge_to(ground: &Ground, rows: &[TransferRow], from: &Numbered, to: &Numbered) -> Option<Edge>
    requires walks { CanWalk ground.now.profile.now }
    requires from { slice_get ground.now.stops.now from.now.number ≡ Some from.now.stop.now }
    requires to { slice_get ground.now.stops.now to.now.number ≡ Some to.now.stop.now }
    ensures { IsOnly (IsEdgeTo ground.now.stops.now rows.now ground.now.profile.now from.now.number from.now.stop.now to.now.number to.now.stop.now) result }
{
    if !is_given(ground, rows, from, to) {
        return None;
    }
    if is_barred(ground.stops, rows, to) {
        return None;
    }
    // Rows hold for no pair that is farther apart.
    let square = square_within(FARTHEST, &from.stop.point(), &to.stop.point())?;
    Some(Edge {
        to: to.number,
        walk: seconds_over(ground.profile.speed, square),
        minimum: greatest_minimum(ground.stops, rows, to),
    })
}

/// Whether the one stop is the other, the two are within reach, or a row leads from the one to the other.
fn is_given(ground: &Ground, rows: &[TransferRow], from: &Numbered, to: &Numbered) -> bool
    requires walks { CanWalk ground.now.profile.now }
    ensures { IsTrue result ↔ IsGiven ground.now.stops.now rows.now ground.now.profile.now from.now.number from.now.stop.now to.now.number to.now.stop.now }
{
    if from.number == to.number {
        return true;
    }
    if are_in_reach(ground.profile, from.stop, to.stop) {
        return true;
    }
    is_named(ground.stops, rows, to)
}

/// Whether both are stops or platforms, and the one is within reach of the other.
fn are_in_reach(profile: &Profile, from: &Stop, to: &Stop) -> bool
    requires { CanWalk profile.now }
    ensures { IsTrue result ↔ AreInReach profile.now from.now to.now }
{
    if !from.is_platform() || !to.is_platform() {
        return false;
    }
    square_within(u64::from(profile.reach), &from.point(), &to.point()).is_some()
}

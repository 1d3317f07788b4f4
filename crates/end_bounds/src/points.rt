ghost use Rattle.std.specs.Prelude.{◌≡◌, ◌≤◌, ◌<◌, ◌-◌, ◌*◌, min, IfOk, IfSome, IsTrue, OnOk, length, slice_get};
ghost use Rattle.std.specs.List.{All};
ghost use Rattle.end_bounds.specs.Levels.{AreAllStopsBelow};
ghost use Rattle.end_bounds.specs.Points.{AreEdgePoints, ArePointLevels, ArePointed, AreRaised, AreRepointed, IsEdgePoints, IsPointColumn, IsPointedFrom};
ghost use Rattle.end_bounds.specs.Scans.{AreStopsBelow, IsLowered, far, number_at as number_of};
ghost use Rattle.end_bounds.specs.Tables.{AreOthersKept};

use crate::far::{FAR, number_at};
use crate::scan::{is_unchanged, lower};
use crate::table::{blank, write_column};
use otp_base::{List, Memory};
use otp_model::{Edge, Edges};
use std::alloc::Global;
use trip_patterns::{Shape, Spot, Timetable};

/// What a second's walk costs beyond 100 points, and what a boarding costs.
#[derive(Clone, Copy, Debug)]
pub struct Rates {
    pub walk: u32,
    pub board: u32,
}

/// The least points at an exit from a spot on.
fn points_at(now: &[u32], spot: &Spot, onward: u32) -> u32
    ensures most { result ≤ onward }
    ensures alight { IsTrue spot.now.alight → result ≤ number_of now.now spot.now.stop }
{
    if !spot.may_alight() {
        return onward;
    }
    onward.min(number_at(now, spot.stop() as usize))
}

/// Goes through the positions of a shape from the last to the first.
fn point_shape(shape: &Shape, now: &[u32], ready: &mut Vec<u32>)
    requires { AreStopsBelow (length ready.old.items) shape.now }
    ensures size { length ready.new.items ≡ length ready.old.items }
    ensures lowered { IsLowered ready.old.items ready.new.items }
    ensures pointed { IsPointedFrom now.now shape.now 0 ready.new.items }
{
    let mut best = FAR;
    let mut position = shape.positions();
    while position > 0 {
        position -= 1;
        let spot = shape.spot(position);
        lower(ready, &spot, best);
        best = points_at(now, &spot, best);
    }
}

/// Goes through a shape's positions, unless the numbers of its stops are what they were.
fn repoint_shape(shape: &Shape, before: &[u32], now: &[u32], ready: &mut Vec<u32>)
    requires stops { AreStopsBelow (length ready.old.items) shape.now }
    requires pointed { IsPointedFrom before.now shape.now 0 ready.old.items }
    ensures size { length ready.new.items ≡ length ready.old.items }
    ensures lowered { IsLowered ready.old.items ready.new.items }
    ensures pointed { IsPointedFrom now.now shape.now 0 ready.new.items }
{
    if is_unchanged(shape, before, now) {
        return;
    }
    point_shape(shape, now, ready);
}

/// Goes through the shapes of which the number of a stop has changed.
fn repoint<T: Timetable>(timetable: &T, before: &[u32], now: &[u32], ready: &mut Vec<u32>)
    requires stops { AreAllStopsBelow (length ready.old.items) (T.shapes timetable.now) }
    requires pointed { ArePointed before.now (T.shapes timetable.now) ready.old.items }
    ensures { AreRepointed before.now now.now (T.shapes timetable.now) (length (T.shapes timetable.now)) ready.old.items ready.new.items }
{
    for n in 0..timetable.shape_count() {
        repoint_shape(timetable.shape(n), before, now, ready);
    }
}

/// The points from a stop with a ride more: those without it, or along an edge and on.
fn pulled(edges: &[Edge], rates: &Rates, ready: &[u32], known: u32) -> u32
    ensures { All (IsEdgePoints rates.now.walk rates.now.board ready.now result) edges.now }
{
    let mut least = known;
    for edge in edges {
        let way = rates
            .walk
            .saturating_mul(edge.walk)
            .saturating_add(rates.board);
        least = least.min(way.saturating_add(number_at(ready, edge.to as usize)));
    }
    least
}

/// The same for the edges of a stop.
fn pulled_at(from: &[List<Edge>], stop: usize, rates: &Rates, ready: &[u32], known: u32) -> u32
    ensures { IfSome (slice_get from.now stop) (λ row. All (IsEdgePoints rates.now.walk rates.now.board ready.now result) row) }
{
    match from.get(stop) {
        None => known,
        Some(edges) => pulled(edges.as_slice(), rates, ready, known),
    }
}

/// The points from each stop with a ride more.
fn pull_all(
    alloc: Global,
    from: &[List<Edge>],
    rates: &Rates,
    ready: &[u32],
    now: &[u32],
) -> Result<Vec<u32>, Memory>
    ensures size { IfOk result (λ next. length next.items ≡ length now.now) }
    ensures edges { IfOk result (λ next. AreEdgePoints from.now rates.now.walk rates.now.board (length now.now) ready.now next.items) }
{
    let mut next = Vec::with_capacity(alloc, now.len())?;
    for stop in 0..now.len() {
        next.push(pulled_at(from, stop, rates, ready, now[stop]))?;
    }
    Ok(next)
}

/// The greater of each number and a floor.
fn raised(alloc: Global, numbers: &[u32], floor: u32) -> Result<Vec<u32>, Memory>
    ensures { IfOk result (λ raised. AreRaised floor numbers.now raised.items) }
{
    let mut raised = Vec::with_capacity(alloc, numbers.len())?;
    for n in 0..numbers.len() {
        raised.push(numbers[n].max(floor))?;
    }
    Ok(raised)
}

/// What so many boardings cost, at most `FAR`.
fn boarded(board: u32, boardings: usize) -> u32
    ensures { result ≡ min (boardings * board) far }
{
    let points = (boardings as u64).saturating_mul(u64::from(board));
    points.min(u64::from(FAR)) as u32
}

/// Writes the points for so many rides more into their column: no fewer than those of as many boardings.
fn write_points(
    alloc: Global,
    table: &mut Vec<u32>,
    columns: usize,
    column: usize,
    board: u32,
    points: &[u32],
) -> Result<(), Memory>
    requires column { column < columns }
    requires size { length table.old.items ≡ length points.now * columns }
    ensures size { OnOk result (length table.new.items ≡ length table.old.items) }
    ensures written { OnOk result (IsPointColumn columns board table.new.items column points.now) }
    ensures kept { OnOk result (AreOthersKept columns column table.old.items table.new.items) }
{
    let raised = raised(alloc, points, boarded(board, column))?;
    write_column(table, columns, column, &raised);
    Ok(())
}

/// Tables of points by the number of rides more: a row for each stop, alighted there and ready there for a ride.
#[derive(Debug, Drop)]
pub struct Points {
    pub alight: Vec<u32>,
    pub ready: Vec<u32>,
}

/// The points for up to so many rides less one, from those without a ride.
pub fn least_points<T: Timetable>(
    alloc: Global,
    timetable: &T,
    edges: &Edges,
    rates: &Rates,
    rides: usize,
    first: Vec<u32>,
) -> Result<Points, Memory>
    requires some { 1 ≤ rides }
    requires stops { AreAllStopsBelow (length first.items) (T.shapes timetable.now) }
    ensures { IfOk result (λ tables. ArePointLevels edges.now.from rates.now.walk rates.now.board (length first.items) (T.shapes timetable.now) rides (rides - 1) first.items (rides - 1) tables.alight.items tables.ready.items) }
{
    let stops = first.len();
    let more = rides - 1;
    let mut alight = blank(alloc, stops, rides)?;
    let mut ready = blank(alloc, stops, more)?;
    let mut readies = blank(alloc, stops, 1)?;
    let mut before = blank(alloc, stops, 1)?;
    let mut now = first;
    write_points(alloc, &mut alight, rides, 0, rates.board, &now)?;
    for level in 0..more {
        repoint(timetable, &before, &now, &mut readies);
        let next = pull_all(alloc, edges.from.as_slice(), rates, &readies, &now)?;
        write_points(alloc, &mut ready, more, level, rates.board, &readies)?;
        write_points(alloc, &mut alight, rides, level + 1, rates.board, &next)?;
        before = now;
        now = next;
    }
    Ok(Points { alight, ready })
}

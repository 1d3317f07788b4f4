ghost use Rattle.std.specs.Prelude.{◌≡◌, ◌↔◌, ◌<◌, ◌≤◌, ◌^◌, [], ◌∷◌, length, slice_get, Some, IfOk};
ghost use Rattle.std.specs.List.{AllPairs, Contains};
ghost use Rattle.otp_base.specs.Adds.{FromSome, IsOnly};
ghost use Rattle.otp_model.specs.Plane.{HasPoint, IsPlaceOf};
ghost use Rattle.otp_model.specs.Ranges.{CanWalk};
ghost use Rattle.walk_table.specs.Reaches.{AreReached, IsChildPoint, IsReachAt};

use crate::walks::least_walk;
use otp_base::{Memory, push_some};
use otp_model::{Edges, Place, Point, Stop, StopNo};
use std::alloc::Global;

/// A stop that is reached on foot from a place, or from which a place is reached.
#[derive(Clone, Copy, Debug, PartialEq, Eq)]
pub struct Reach {
    pub stop: StopNo,
    pub seconds: u32,
}

/// The stops and platforms that are reached on foot from a place, each with the least seconds, by rising
/// number. The way back takes as long.
pub fn reach_of(alloc: Global, edges: &Edges, place: &Place) -> Result<Vec<Reach>, Memory>
    requires walks { CanWalk edges.now.profile }
    requires stops { length edges.now.stops < 2 ^ 32 }
    requires place { IsPlaceOf edges.now.stops place.now }
    ensures reached { IfOk result (λ list. AreReached edges.now place.now list.items) }
    ensures rises { IfOk result (λ list. AllPairs (λ a b. a.stop < b.stop) list.items) }
{
    let stops = edges.stops.as_slice();
    let points = points_of(alloc, stops, place)?;
    let mut list = Vec::new(alloc);
    for (n, stop) in stops.iter().enumerate() {
        push_some(&mut list, reach_at(edges, &points, n as u32, stop))?;
    }
    Ok(list)
}

/// The reach of a stop or platform, if it is within reach of one of the points.
fn reach_at(edges: &Edges, points: &[Point], number: StopNo, stop: &Stop) -> Option<Reach>
    requires walks { CanWalk edges.now.profile }
    ensures { IsOnly (IsReachAt edges.now.profile points.now number stop.now) result }
{
    if !stop.is_platform() {
        return None;
    }
    let at = stop.point();
    match least_walk(&edges.profile, points, &at) {
        None => None,
        Some(seconds) => Some(Reach {
            stop: number,
            seconds,
        }),
    }
}

/// The points of a place.
fn points_of(alloc: Global, stops: &[Stop], place: &Place) -> Result<Vec<Point>, Memory>
    requires { IsPlaceOf stops.now place.now }
    ensures { IfOk result (λ points. (p : _) → Contains points.items p ↔ HasPoint stops.now place.now p) }
{
    match place {
        Place::Stop(named) => {
            let stop = &stops[*named as usize];
            stop_points(alloc, stops, *named, stop)
        }
        Place::At { x, y } => one_point(alloc, Point { x: *x, y: *y }),
    }
}

/// The points of a named stop or station.
fn stop_points(
    alloc: Global,
    stops: &[Stop],
    named: StopNo,
    place: &Stop,
) -> Result<Vec<Point>, Memory>
    requires { slice_get stops.now named ≡ Some place.now }
    ensures { IfOk result (λ points. (p : _) → Contains points.items p ↔ HasPoint stops.now (Place.Stop named) p) }
{
    if place.is_station() {
        return child_points(alloc, named, stops);
    }
    one_point(alloc, place.point())
}

pub fn child_points(alloc: Global, station: StopNo, stops: &[Stop]) -> Result<Vec<Point>, Memory>
    ensures { IfOk result (λ points. (p : _) → Contains points.items p ↔ FromSome (IsChildPoint station) stops.now p) }
{
    let mut points = Vec::new(alloc);
    for stop in stops {
        push_some(&mut points, child_point(station, stop))?;
    }
    Ok(points)
}

/// The point of a stop or platform, if it is a child of the station.
pub fn child_point(station: StopNo, stop: &Stop) -> Option<Point>
    ensures { IsOnly (IsChildPoint station stop.now) result }
{
    if !stop.is_platform() {
        return None;
    }
    match stop.parent {
        Some(parent) if parent == station => Some(stop.point()),
        _ => None,
    }
}

pub fn one_point(alloc: Global, point: Point) -> Result<Vec<Point>, Memory>
    ensures { IfOk result (λ points. points.items ≡ point ∷ []) }
{
    let mut points = Vec::new(alloc);
    points.push(point)?;
    Ok(points)
}

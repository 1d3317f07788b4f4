ghost use Rattle.std.specs.Prelude.{◌≡◌, ◌<◌, ◌≤◌, Some, slice_get};
ghost use Rattle.otp_base.specs.Adds.{FromSome};
ghost use Rattle.otp_model.specs.Plane.{IsPlaceOf};
ghost use Rattle.otp_model.specs.Ranges.{CanWalk};
ghost use Rattle.walk_table.specs.Direct.{IsDirect, IsDirectFromChild, IsLeast, IsWalkInto, IsWalkIntoChild};

use crate::reach::child_point;
use crate::walks::{lesser, walk_between};
use otp_model::{Edges, Place, Point, Profile, Stop, StopNo};

/// The least seconds of a walk from a point of the one place to a point of the other; none exactly where no
/// two of these points are within reach. It takes no memory.
pub fn direct(edges: &Edges, from: &Place, to: &Place) -> Option<u32>
    requires walks { CanWalk edges.now.profile }
    requires from { IsPlaceOf edges.now.stops from.now }
    requires to { IsPlaceOf edges.now.stops to.now }
    ensures { IsDirect edges.now from.now to.now result }
{
    match from {
        Place::Stop(named) => {
            let stop = &edges.stops.as_slice()[*named as usize];
            direct_from(edges, *named, stop, to)
        }
        Place::At { x, y } => walk_into(edges, &Point { x: *x, y: *y }, to),
    }
}

/// The direct walk from a named stop or station.
fn direct_from(edges: &Edges, named: StopNo, place: &Stop, to: &Place) -> Option<u32>
    requires walks { CanWalk edges.now.profile }
    requires from { slice_get edges.now.stops named ≡ Some place.now }
    requires to { IsPlaceOf edges.now.stops to.now }
    ensures { IsDirect edges.now (Place.Stop named) to.now result }
{
    if place.is_station() {
        return direct_from_children(edges, named, to);
    }
    walk_into(edges, &place.point(), to)
}

fn direct_from_children(edges: &Edges, station: StopNo, to: &Place) -> Option<u32>
    requires walks { CanWalk edges.now.profile }
    requires to { IsPlaceOf edges.now.stops to.now }
    ensures { IsLeast (FromSome (IsDirectFromChild edges.now station to.now) edges.now.stops) result }
{
    let stops = edges.stops.as_slice();
    let mut least = None;
    for stop in stops {
        least = lesser(least, direct_from_child(edges, station, stop, to));
    }
    least
}

fn direct_from_child(edges: &Edges, station: StopNo, stop: &Stop, to: &Place) -> Option<u32>
    requires walks { CanWalk edges.now.profile }
    requires to { IsPlaceOf edges.now.stops to.now }
    ensures { IsLeast (IsDirectFromChild edges.now station to.now stop.now) result }
{
    let p = child_point(station, stop)?;
    walk_into(edges, &p, to)
}

/// The least walk from a point to a place.
fn walk_into(edges: &Edges, p: &Point, to: &Place) -> Option<u32>
    requires walks { CanWalk edges.now.profile }
    requires to { IsPlaceOf edges.now.stops to.now }
    ensures { IsLeast (IsWalkInto edges.now p.now to.now) result }
{
    match to {
        Place::Stop(named) => {
            let stop = &edges.stops.as_slice()[*named as usize];
            walk_into_stop(edges, p, *named, stop)
        }
        Place::At { x, y } => walk_between(&edges.profile, p, &Point { x: *x, y: *y }),
    }
}

/// The least walk from a point to a named stop or station.
fn walk_into_stop(edges: &Edges, p: &Point, named: StopNo, place: &Stop) -> Option<u32>
    requires walks { CanWalk edges.now.profile }
    requires to { slice_get edges.now.stops named ≡ Some place.now }
    ensures { IsLeast (IsWalkInto edges.now p.now (Place.Stop named)) result }
{
    if place.is_station() {
        return walk_into_children(&edges.profile, p, named, edges.stops.as_slice());
    }
    walk_between(&edges.profile, p, &place.point())
}

fn walk_into_children(profile: &Profile, p: &Point, station: StopNo, stops: &[Stop]) -> Option<u32>
    requires walks { CanWalk profile.now }
    ensures { IsLeast (FromSome (IsWalkIntoChild profile.now p.now station) stops.now) result }
{
    let mut least = None;
    for stop in stops {
        least = lesser(least, walk_into_child(profile, p, station, stop));
    }
    least
}

fn walk_into_child(profile: &Profile, p: &Point, station: StopNo, stop: &Stop) -> Option<u32>
    requires walks { CanWalk profile.now }
    ensures { IsLeast (IsWalkIntoChild profile.now p.now station stop.now) result }
{
    let q = child_point(station, stop)?;
    walk_between(profile, p, &q)
}

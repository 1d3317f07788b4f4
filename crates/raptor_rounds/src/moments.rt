ghost use Rattle.std.specs.Prelude.{◌≡◌, ◌↔◌, ◌<◌, IfOk, IsTrue, OnOk, length};
ghost use Rattle.std.specs.List.{All, AllPairs, Contains};
ghost use Rattle.otp_base.specs.Adds.{Adds, FromSome, IsOnly};
ghost use Rattle.otp_model.specs.Ranges.{IsTime, IsTimely};
ghost use Rattle.trip_patterns.specs.Timetables.{IsPlaceOf};
ghost use Rattle.raptor_rounds.specs.Moments.{AreMoments, IsEarlier, IsMomentAt, IsMomentBy, IsMomentFrom, IsMomentIn, IsMomentOn};
ghost use Rattle.raptor_rounds.specs.Rides.{IsTimelyLane, StopsAt};

use otp_base::{Memory, push_some};
use otp_model::{Request, Time};
use std::alloc::Global;
use trip_patterns::{BlockStop, Lane, Timetable};
use walk_table::Reach;

/// The moments in the window at which journeys can depart that begin with one of these accesses, each once, rising.
pub fn moments_of<T: Timetable>(
    alloc: Global,
    timetable: &T,
    request: &Request,
    starts: &[Reach],
) -> Result<Vec<Time>, Memory>
    requires { All IsTimely (T.runs timetable.now) }
    ensures { IfOk result (λ moments. AreMoments (T.runs timetable.now) request.now starts.now moments.items) }
{
    let mut moments = Vec::new(alloc);
    for reach in starts {
        put_reach(timetable, request, reach, &mut moments)?;
    }
    put_in_order(&mut moments);
    Ok(moments)
}

/// Sorts moments, and keeps each once.
fn put_in_order(moments: &mut Vec<Time>)
    ensures same { (t : _) → Contains moments.new.items t ↔ Contains moments.old.items t }
    ensures rise { AllPairs IsEarlier moments.new.items }
{
    moments.sort_unstable();
    moments.dedup();
}

fn put_reach<T: Timetable>(
    timetable: &T,
    request: &Request,
    reach: &Reach,
    moments: &mut Vec<Time>,
) -> Result<(), Memory>
    requires { All IsTimely (T.runs timetable.now) }
    ensures { OnOk result (Adds (IsMomentFrom (T.blocks timetable.now) request.now reach.now) moments.old.items moments.new.items) }
{
    for place in timetable.blocks_at(reach.stop) {
        put_place(timetable, request, reach, place, moments)?;
    }
    Ok(())
}

fn put_place<T: Timetable>(
    timetable: &T,
    request: &Request,
    reach: &Reach,
    place: &BlockStop,
    moments: &mut Vec<Time>,
) -> Result<(), Memory>
    requires timely { All IsTimely (T.runs timetable.now) }
    requires place { IsPlaceOf (T.blocks timetable.now) reach.now.stop place.now }
    ensures { OnOk result (Adds (IsMomentAt (T.blocks timetable.now) request.now reach.now place.now) moments.old.items moments.new.items) }
{
    let lanes = timetable.block(place.block);
    put_lanes(request, reach, lanes, place.position, moments)?;
    Ok(())
}

fn put_lanes(
    request: &Request,
    reach: &Reach,
    lanes: &[Lane],
    position: usize,
    moments: &mut Vec<Time>,
) -> Result<(), Memory>
    requires lanes { All IsTimelyLane lanes.now }
    requires stops { All (StopsAt position reach.now.stop) lanes.now }
    ensures { OnOk result (Adds (FromSome (IsMomentOn request.now reach.now position) lanes.now) moments.old.items moments.new.items) }
{
    for lane in lanes {
        put_lane(request, reach, lane, position, moments)?;
    }
    Ok(())
}

fn put_lane(
    request: &Request,
    reach: &Reach,
    lane: &Lane,
    position: usize,
    moments: &mut Vec<Time>,
) -> Result<(), Memory>
    requires lane { IsTimelyLane lane.now }
    requires stops { StopsAt position reach.now.stop lane.now }
    ensures { OnOk result (Adds (IsMomentOn request.now reach.now position lane.now) moments.old.items moments.new.items) }
{
    put_times(request, reach, lane.departures(position), moments)?;
    Ok(())
}

fn put_times(
    request: &Request,
    reach: &Reach,
    times: &[Time],
    moments: &mut Vec<Time>,
) -> Result<(), Memory>
    requires { All IsTime times.now }
    ensures { OnOk result (Adds (FromSome (IsMomentBy request.now reach.now) times.now) moments.old.items moments.new.items) }
{
    for time in times {
        push_some(moments, moment_by(request, reach, time))?;
    }
    Ok(())
}

/// The moment from which an access ends at the time, if it is in the window.
fn moment_by(request: &Request, reach: &Reach, time: &Time) -> Option<Time>
    requires { IsTime time.now }
    ensures { IsOnly (IsMomentBy request.now reach.now time.now) result }
{
    let moment = *time - i64::from(reach.seconds);
    if !is_in_window(request, &moment) {
        return None;
    }
    Some(moment)
}

fn is_in_window(request: &Request, moment: &Time) -> bool
    ensures { IsTrue result ↔ IsMomentIn request.now moment.now }
{
    *moment >= request.time
        && i128::from(*moment) < i128::from(request.time) + i128::from(request.window)
}

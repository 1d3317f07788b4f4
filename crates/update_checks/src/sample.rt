//! A feed, and the entities of messages over it.
ghost use Rattle.std.specs.Prelude.{◌≡◌, [], ◌∷◌, IfOk};
ghost use Rattle.otp_model.specs.Sound.{IsSound};
ghost use Rattle.update_checks.specs.Sample.{call_of};

use jiff::tz::TimeZone;
use otp_base::{List, Memory, Text};
use otp_model::{
    Call, Entity, Feed, Run, RunName, Stop, StopUpdate, Trip, TripName, TripUpdate, Zone,
};
use std::alloc::Global;

/// A feed of one trip, "t", of which one run on the day after 1970-01-01 leaves the stop "s" at 1,000 seconds and is
/// there again at 2,000.
pub fn feed(alloc: Global) -> Result<Feed, Memory>
    ensures { IfOk result (λ feed. IsSound feed) }
{
    let mut stops = List::new(alloc);
    stops.push(Stop {
        id: Text::from_str(alloc, "s")?,
        name: Text::from_str(alloc, "s")?,
        x: 0,
        y: 0,
        kind: 0,
        parent: None,
    })?;
    let mut trips = List::new(alloc);
    trips.push(Trip {
        id: Text::from_str(alloc, "t")?,
        route: 0,
        service: 0,
    })?;
    let mut runs = List::new(alloc);
    runs.push(Run {
        name: RunName {
            trip: TripName::Planned(0),
            day: 1,
            start: None,
        },
        calls: calls(alloc)?,
    })?;
    Ok(Feed {
        stops,
        trips,
        runs,
        zone: Zone {
            rule: TimeZone::UTC,
        },
        first_day: 0,
        days: 10,
    })
}

fn call(seq: u32, time: u32) -> Call
    ensures { result ≡ call_of seq time }
{
    Call {
        stop: 0,
        seq,
        arrival: i64::from(time),
        departure: i64::from(time),
        board: true,
        alight: true,
    }
}

fn calls(alloc: Global) -> Result<List<Call>, Memory>
    ensures { IfOk result (λ calls. calls ≡ call_of 1 1000 ∷ call_of 2 2000 ∷ []) }
{
    let mut calls = List::new(alloc);
    calls.push(call(1, 1_000))?;
    calls.push(call(2, 2_000))?;
    Ok(calls)
}

/// An entity with a trip update; an empty id isn't there.
pub fn entity(
    alloc: Global,
    trip: &str,
    date: &str,
    relation: u64,
    updates: List<StopUpdate>,
) -> Result<Entity, Memory> {
    let trip_id = if trip.len() == 0 {
        None
    } else {
        Some(Text::from_str(alloc, trip)?)
    };
    Ok(Entity {
        deleted: false,
        update: Some(TripUpdate {
            trip_id,
            start_date: Some(Text::from_str(alloc, date)?),
            start_time: None,
            route_id: None,
            relation,
            updates,
        }),
    })
}

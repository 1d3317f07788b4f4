ghost use Rattle.std.specs.Prelude.{◌≡◌, ◌<◌, IfOk, None, Some, length, string_bytes};
ghost use Rattle.std.specs.List.{All};
ghost use Rattle.serde_json.specs.View.{view};
ghost use Rattle.plan_json.specs.Journeys.{IsLegOf, IsRideOf, IsTripOf, call_data, journey_data, leg_data, legs_data, ride_data, ride_object, stop_id, trip_id, trip_text, walk_data};

use crate::clock::clock_text;
use crate::date::date_text;
use otp_model::{Call, Feed, Found, Leg, RunName, StopNo, Time, TripName, TripNo};
use serde_json::{Value, json};
use std::alloc::{AllocError, Global};

fn stop_id(feed: &Feed, stop: StopNo) -> &str
    requires { stop < length feed.now.stops }
    ensures { result.now ≡ stop_id feed.now stop }
{
    feed.stops.as_slice()[stop as usize].id.as_str()
}

fn trip_id(feed: &Feed, trip: TripNo) -> &str
    requires { trip < length feed.now.trips }
    ensures { result.now ≡ trip_id feed.now trip }
{
    feed.trips.as_slice()[trip as usize].id.as_str()
}

/// The id of a trip of the feed, or the text of an added one.
fn trip_text<'a>(feed: &'a Feed, name: &'a TripName) -> &'a str
    requires { IsTripOf feed.now name.now }
    ensures { result.now ≡ trip_text feed.now name.now }
{
    match name {
        TripName::Planned(trip) => trip_id(feed, *trip),
        TripName::Added(text) => text.as_str(),
    }
}

/// A call at its departure or its arrival.
fn call_value(alloc: Global, feed: &Feed, call: &Call, time: Time) -> Result<Value, AllocError>
    requires { call.now.stop < length feed.now.stops }
    ensures { IfOk result (λ value. view value ≡ call_data feed.now call.now time) }
{
    let stop = stop_id(feed, call.stop);
    json!(in alloc; {"seq": call.seq, "stop": stop, "time": time})
}

fn walk_value(alloc: Global, seconds: u32) -> Result<Value, AllocError>
    ensures { IfOk result (λ value. view value ≡ walk_data seconds) }
{
    json!(in alloc; {"kind": "walk", "seconds": seconds})
}

/// The members of a ride's object, but for its start.
#[derive(Drop)]
struct RideParts<'a> {
    alight: Value,
    board: Value,
    date: String,
    trip: &'a str,
}

fn ride_value(
    alloc: Global,
    feed: &Feed,
    name: &RunName,
    board: &Call,
    alight: &Call,
) -> Result<Value, AllocError>
    requires { IsRideOf feed.now name.now board.now alight.now }
    ensures { IfOk result (λ value. view value ≡ ride_data feed.now name.now board.now alight.now) }
{
    let parts = RideParts {
        alight: call_value(alloc, feed, alight, alight.arrival)?,
        board: call_value(alloc, feed, board, board.departure)?,
        date: date_text(alloc, name.day)?,
        trip: trip_text(feed, &name.trip),
    };
    match name.start {
        None => ride_object(alloc, parts),
        Some(start) => started_ride_object(alloc, parts, start),
    }
}

fn ride_object(alloc: Global, parts: RideParts<'_>) -> Result<Value, AllocError>
    ensures { IfOk result (λ value. view value ≡ ride_object (view parts.entry.alight) (view parts.entry.board) (string_bytes parts.entry.date) None parts.entry.trip.now) }
{
    json!(in alloc; {
        "alight": parts.alight,
        "board": parts.board,
        "date": &parts.date,
        "kind": "ride",
        "trip": parts.trip
    })
}

fn started_ride_object(alloc: Global, parts: RideParts<'_>, start: u32) -> Result<Value, AllocError>
    ensures { IfOk result (λ value. view value ≡ ride_object (view parts.entry.alight) (view parts.entry.board) (string_bytes parts.entry.date) (Some start) parts.entry.trip.now) }
{
    let start = clock_text(alloc, start)?;
    json!(in alloc; {
        "alight": parts.alight,
        "board": parts.board,
        "date": &parts.date,
        "kind": "ride",
        "start": &start,
        "trip": parts.trip
    })
}

fn leg_value(alloc: Global, feed: &Feed, leg: &Leg) -> Result<Value, AllocError>
    requires { IsLegOf feed.now leg.now }
    ensures { IfOk result (λ value. view value ≡ leg_data feed.now leg.now) }
{
    match leg {
        Leg::Walk { seconds } => walk_value(alloc, *seconds),
        Leg::Ride {
            name,
            board,
            alight,
        } => ride_value(alloc, feed, name, board, alight),
    }
}

fn legs_value(alloc: Global, feed: &Feed, legs: &[Leg]) -> Result<Value, AllocError>
    requires { All (IsLegOf feed.now) legs.now }
    ensures { IfOk result (λ value. view value ≡ legs_data feed.now legs.now) }
{
    let mut values = Vec::new(alloc);
    for leg in legs {
        let value = leg_value(alloc, feed, leg)?;
        values.push(value)?;
    }
    Ok(Value::Array(values))
}

/// A journey with its value.
pub fn journey_value(alloc: Global, feed: &Feed, found: &Found) -> Result<Value, AllocError>
    requires { All (IsLegOf feed.now) found.now.journey.legs }
    ensures { IfOk result (λ value. view value ≡ journey_data feed.now found.now) }
{
    let legs = legs_value(alloc, feed, found.journey.legs.as_slice())?;
    let worth = found.value;
    json!(in alloc; {
        "arrival": worth.arrival,
        "cost": worth.cost,
        "departure": worth.departure,
        "legs": legs,
        "rides": worth.rides
    })
}

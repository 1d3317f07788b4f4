ghost use Rattle.std.specs.Prelude.{◌≡◌, ◌≤◌, ◌^◌, pos, ◌*ℤ◌, ◌≤ℤ◌, ◌↔◌, IsTrue};
ghost use Rattle.std.specs.Int.{int_div_euclid};
ghost use Rattle.std.specs.List.{All, AllPairs};
ghost use Rattle.otp_model.specs.Limits.{most_latitude, most_longitude, most_plane, most_scale};
ghost use Rattle.otp_model.specs.Plane.{IsNameable, IsPlatform, IsStation, point_at, point_of};
ghost use Rattle.otp_model.specs.Ranges.{CanWalk, IsCallInRange, IsLeftInOrder, IsTime, IsTimely};
ghost use Rattle.otp_model.specs.Rows.{IsWithin};

use crate::run_name::RunName;
use jiff::tz::TimeZone;
use otp_base::{List, Text};

/// Seconds since 1970-01-01 00:00 UTC.
pub type Time = i64;

/// Days since 1970-01-01.
pub type DayNo = i32;

/// The place of a stop in the list of all stops.
pub type StopNo = u32;

/// The place of a trip in the list of all trips.
pub type TripNo = u32;

/// A point of the plane, in millimetres.
#[derive(Clone, Copy, Debug, PartialEq, Eq)]
pub struct Point {
    pub x: i64,
    pub y: i64,
}

impl Point {
    /// The point at a latitude and a longitude in millionths of a degree, where a millionth of a degree of
    /// longitude is `scale` thousandths of a millimetre long; rounded down.
    pub fn at_degrees(scale: u32, latitude: i64, longitude: i64) -> Point
        requires scale { scale ≤ most_scale }
        requires latitude { IsWithin most_latitude latitude }
        requires longitude { IsWithin most_longitude longitude }
        ensures point { result ≡ point_at scale latitude longitude }
        ensures x { IsWithin most_plane result.x }
        ensures y { IsWithin most_plane result.y }
    {
        Point {
            x: millimetres(longitude, scale),
            y: millimetres(latitude, 111_195),
        }
    }
}

/// The length of so many millionths of a degree, of which each is `scale` thousandths of a millimetre long.
fn millimetres(degrees: i64, scale: u32) -> i64
    requires scale { scale ≤ most_scale }
    requires degrees { IsWithin most_longitude degrees }
    ensures length { result ≡ int_div_euclid (degrees *ℤ pos scale) (pos 1000) }
    ensures within { IsWithin most_plane result }
{
    (degrees * i64::from(scale)).div_euclid(1_000)
}

/// A row of `stops.txt`, with its place in millimetres and its `location_type`: 0 is a stop or platform,
/// 1 a station, 2 to 4 are entrances, nodes and boarding areas (GTFS Schedule reference, `stops.txt`).
#[derive(Debug, Drop)]
pub struct Stop {
    pub id: Text,
    pub name: Text,
    pub x: i64,
    pub y: i64,
    pub kind: u8,
    pub parent: Option<StopNo>,
}

impl Stop {
    /// Where the stop stands.
    pub fn point(&self) -> Point
        ensures { result ≡ point_of self.now }
    {
        Point {
            x: self.x,
            y: self.y,
        }
    }

    /// Whether vehicles are boarded and left there.
    pub fn is_platform(&self) -> bool
        ensures { IsTrue result ↔ IsPlatform self.now }
    {
        self.kind == PLATFORM
    }

    /// Whether it is a station, which groups stops.
    pub fn is_station(&self) -> bool
        ensures { IsTrue result ↔ IsStation self.now }
    {
        self.kind == STATION
    }

    /// Whether a query may name it: a stop or platform, or a station.
    pub fn is_nameable(&self) -> bool
        ensures { IsTrue result ↔ IsNameable self.now }
    {
        self.kind <= STATION
    }
}

/// The `location_type` of a stop or platform, and that of a station.
const PLATFORM: u8 = 0;

const STATION: u8 = 1;

/// A row of `trips.txt`, with its route and its service by number.
#[derive(Debug, Drop)]
pub struct Trip {
    pub id: Text,
    pub route: u32,
    pub service: u32,
}

/// A call of a run at a stop, with its `stop_sequence`, and whether it may be boarded and alighted at.
#[derive(Clone, Copy, Debug, PartialEq, Eq)]
pub struct Call {
    pub stop: StopNo,
    pub seq: u32,
    pub arrival: Time,
    pub departure: Time,
    pub board: bool,
    pub alight: bool,
}

/// A trip on one day of service.
#[derive(Debug, Drop)]
pub struct Run {
    pub name: RunName,
    pub calls: List<Call>,
}

impl Run {
    /// Whether its times are from -2^42 to 2^42, it leaves no call before it arrived there, and arrives at none before it left
    /// an earlier one.
    pub fn is_timely(&self) -> bool
        ensures { IsTrue result ↔ IsTimely self.now }
    {
        let calls = self.calls.as_slice();
        are_in_range(calls) && are_left_in_order(calls) && are_forward(calls)
    }
}

fn are_in_range(calls: &[Call]) -> bool
    ensures { IsTrue result ↔ All IsCallInRange calls.now }
{
    calls.iter().all(is_in_range)
}

fn is_in_range(call: &Call) -> bool
    ensures { IsTrue result ↔ IsCallInRange call.now }
{
    is_time(call.arrival) && is_time(call.departure)
}

fn are_left_in_order(calls: &[Call]) -> bool
    ensures { IsTrue result ↔ All IsLeftInOrder calls.now }
{
    calls.iter().all(is_left_in_order)
}

/// Whether the call is left no earlier than it is arrived at.
fn is_left_in_order(call: &Call) -> bool
    ensures { IsTrue result ↔ IsLeftInOrder call.now }
{
    call.arrival <= call.departure
}

/// The greatest time, and less 0 the least one.
const LATEST: Time = 1 << 42;

fn is_time(time: Time) -> bool
    ensures { IsTrue result ↔ IsTime time }
{
    -LATEST <= time && time <= LATEST
}

fn are_forward(calls: &[Call]) -> bool
    ensures { IsTrue result ↔ AllPairs (λ earlier later. earlier.departure ≤ℤ later.arrival) calls.now }
{
    match calls {
        [] => true,
        [first, rest @ ..] => is_left_before(first, rest) && are_forward(rest),
    }
}

/// Whether a call is left before each of the others is arrived at.
fn is_left_before(call: &Call, others: &[Call]) -> bool
    ensures { IsTrue result ↔ All (λ later. call.now.departure ≤ℤ later.arrival) others.now }
{
    others.iter().all(|later| call.departure <= later.arrival)
}

/// A walk from one stop to another: its seconds, and the least time that a change by it takes.
#[derive(Clone, Copy, Debug, PartialEq, Eq)]
pub struct Edge {
    pub to: StopNo,
    pub walk: u32,
    pub minimum: u32,
}

/// How people walk: `speed` in millimetres a second from 100 to 10,000, `reach` in millimetres up to
/// 5,000,000, and `scale`, the thousandths of a millimetre that a microdegree of longitude is long.
#[derive(Clone, Copy, Debug, PartialEq, Eq)]
pub struct Profile {
    pub speed: u32,
    pub reach: u32,
    pub scale: u32,
}

impl Profile {
    /// Whether walks are computed for so far a reach and so slow a speed.
    pub fn can_walk(&self) -> bool
        ensures { IsTrue result ↔ CanWalk self.now }
    {
        self.reach <= MOST_REACH && self.speed > 0
    }
}

/// The greatest reach, in millimetres.
const MOST_REACH: u32 = 5_000_000;

/// The stops, and for each the edges that lead from it.
#[derive(Debug, Drop)]
pub struct Edges {
    pub stops: List<Stop>,
    pub from: List<List<Edge>>,
    pub profile: Profile,
}

/// The clock of a feed's agencies, by a rule of POSIX.
#[derive(Clone, Copy, Debug)]
pub struct Zone {
    pub rule: TimeZone<'static>,
}

/// A feed over the days from `first_day` on: its stops, its trips, and a run for each trip on each of those
/// days on which its service is active.
#[derive(Debug, Drop)]
pub struct Feed {
    pub stops: List<Stop>,
    pub trips: List<Trip>,
    pub runs: List<Run>,
    pub zone: Zone,
    pub first_day: DayNo,
    pub days: u32,
}

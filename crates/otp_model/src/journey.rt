ghost use Rattle.std.specs.Prelude.{◌≡◌, IfOk, IsTrue, ◌↔◌};
ghost use Rattle.std.specs.List.{All};
ghost use Rattle.otp_model.specs.Plane.{IsPlaceOf};
ghost use Rattle.otp_model.specs.Ranges.{CanSearch, IsRequestInRange, IsTimely};
ghost use Rattle.otp_model.specs.Whole.{Dominates, IsInWindow, IsNoWorse};

use crate::run_name::RunName;
use crate::timetable::{Call, Edges, Run, Stop, StopNo, Time};
use otp_base::{Copied, List, Memory};
use std::alloc::Global;

/// Where a journey begins or ends: a stop or station by its number, or a point of the plane.
#[derive(Clone, Copy, Debug, PartialEq, Eq)]
pub enum Place {
    Stop(StopNo),
    At { x: i64, y: i64 },
}

/// What is compared of two journeys. The fields stand in the order in which lists rise.
#[derive(Clone, Copy, Debug, PartialEq, Eq, PartialOrd, Ord)]
pub struct Value {
    pub departure: Time,
    pub arrival: Time,
    pub rides: u32,
    pub cost: u64,
}

/// A part of a journey: a walk of so many seconds, or a ride from one call of a run to a later one.
#[derive(Debug, Drop)]
pub enum Leg {
    Walk {
        seconds: u32,
    },
    Ride {
        name: RunName,
        board: Call,
        alight: Call,
    },
}

impl Copied for Leg {
    fn copy(&self, alloc: Global) -> Result<Leg, Memory> {
        match self {
            Leg::Walk { seconds } => Ok(Leg::Walk { seconds: *seconds }),
            Leg::Ride {
                name,
                board,
                alight,
            } => {
                let name = name.copy(alloc)?;
                Ok(Leg::Ride {
                    name,
                    board: *board,
                    alight: *alight,
                })
            }
        }
    }
}

/// Walk, ride, walk and so on, ending in a walk.
#[derive(Debug, Drop)]
pub struct Journey {
    pub legs: List<Leg>,
}

/// A journey with its value.
#[derive(Debug, Drop)]
pub struct Found {
    pub value: Value,
    pub journey: Journey,
}

/// Where a page ended: the number of commits that it was planned over, and its last value.
#[derive(Clone, Copy, Debug, PartialEq, Eq)]
pub struct Cursor {
    pub commit: u64,
    pub value: Value,
}

/// What is asked for: journeys that depart from `time` on for `window` seconds, with at most `rides`
/// rides (1 to 8) and `slack` seconds to spare at each change. A second on foot costs `walk_points`
/// (100 to 2,000) in place of 100, and each boarding costs `board_points` (up to 1,000,000). A request with `pin`
/// asks for a page at its cursor's commit, where a connection still keeps it.
#[derive(Clone, Copy, Debug, PartialEq, Eq)]
pub struct Request {
    pub from: Place,
    pub to: Place,
    pub time: Time,
    pub window: u32,
    pub rides: u32,
    pub slack: u32,
    pub walk_points: u32,
    pub board_points: u32,
    pub page: u32,
    pub cursor: Option<Cursor>,
    pub at_least: u64,
    pub pin: bool,
}

/// A page of the best journeys, whether more follow, and the seconds of the direct walk if there is one.
#[derive(Debug, Drop)]
pub struct Page {
    pub found: List<Found>,
    pub more: bool,
    pub direct: Option<u32>,
}

impl Place {
    /// Whether it is a point, or names one of the stops.
    pub fn is_of(&self, stops: &[Stop]) -> bool
        ensures { IsTrue result ↔ IsPlaceOf stops.now self.now }
    {
        match self {
            Place::Stop(stop) => (*stop as usize) < stops.len(),
            Place::At { .. } => true,
        }
    }
}

impl Request {
    /// Whether its numbers of rides and of points are in their ranges.
    pub fn is_in_range(&self) -> bool
        ensures { IsTrue result ↔ IsRequestInRange self.now }
    {
        (1..=8).contains(&self.rides)
            && (100..=2_000).contains(&self.walk_points)
            && self.board_points <= 1_000_000
    }

    /// Whether it can be searched over the runs and edges.
    pub fn can_search(&self, runs: &[Run], edges: &Edges) -> bool
        ensures { IsTrue result ↔ CanSearch runs.now edges.now self.now }
    {
        let stops = edges.stops.as_slice();
        if !self.is_in_range() || !edges.profile.can_walk() {
            return false;
        }
        if stops.len() as u64 >= STOPS_END {
            return false;
        }
        if !self.from.is_of(stops) || !self.to.is_of(stops) {
            return false;
        }
        are_timely(runs)
    }

    /// Whether the departure is in the window.
    pub fn has_in_window(&self, value: &Value) -> bool
        ensures { IsTrue result ↔ IsInWindow self.now value.now }
    {
        value.departure >= self.time
            && i128::from(value.departure) < i128::from(self.time) + i128::from(self.window)
    }
}

/// One more than the most stops that numbers of stops tell apart.
const STOPS_END: u64 = 1 << 32;

fn are_timely(runs: &[Run]) -> bool
    ensures { IsTrue result ↔ All IsTimely runs.now }
{
    for run in runs {
        if !run.is_timely() {
            return false;
        }
    }
    true
}

impl Value {
    /// Whether it departs no earlier, arrives no later, has no more rides and costs no more.
    pub fn is_no_worse(&self, other: &Value) -> bool
        ensures { IsTrue result ↔ IsNoWorse self.now other.now }
    {
        self.departure >= other.departure
            && self.arrival <= other.arrival
            && self.rides <= other.rides
            && self.cost <= other.cost
    }

    /// Whether it is no worse, and differs.
    pub fn dominates(&self, other: &Value) -> bool
        ensures { IsTrue result ↔ Dominates self.now other.now }
    {
        self.is_no_worse(other) && self != other
    }
}

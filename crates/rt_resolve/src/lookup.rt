ghost use Rattle.std.specs.Prelude.{◌≡◌, ℕ, List, IfOk, IfSome, length, map};
ghost use Rattle.std.specs.Option.{option_copied};
ghost use Rattle.std.specs.List.{AllPairs, find};
ghost use Rattle.otp_model.specs.Moves.{platform_of};
ghost use Rattle.otp_model.specs.Resolution.{is_in_horizon, is_new_trip, is_same_name, planned_name, run_meant, run_named, service_day_of, trip_of};
ghost use Rattle.otp_model.specs.Sights.{first_sights};
ghost use Rattle.otp_model.specs.Sound.{IsRunBelow, IsSound, IsSoundRun};
ghost use Rattle.rt_resolve.specs.Indices.{IsIndexOf};

use crate::ids::Ids;
use otp_base::Memory;
use otp_model::{
    DayNo, Feed, Run, RunName, Stop, StopNo, Trip, TripName, TripNo, TripUpdate, parse_clock,
    parse_day,
};
use service_days::local_day;
use std::alloc::Global;
use std::cmp::Ordering;
use std::marker::Model;

/// What has an id.
trait Identified {
    ghost id_of: { Self → List ℕ };

    fn id(&self) -> &str
        ensures { result.now ≡ id_of self.now };
}

impl Identified for Stop {
    ghost id_of = { λ stop. stop.id };

    fn id(&self) -> &str {
        self.id.as_str()
    }
}

impl Identified for Trip {
    ghost id_of = { λ trip. trip.id };

    fn id(&self) -> &str {
        self.id.as_str()
    }
}

/// The ids of these, each once, to find a place by its id.
#[tactic(auto, using(name_index::proofs::SightFacts::starts_noting), unfolding(name_index::proofs::SightFacts::noted_all))]
fn index_of<R: Identified>(alloc: Global, rows: &[R]) -> Result<Ids, Memory>
    ensures { IfOk result (λ ids. ids ≡ first_sights (map R.id_of rows.now)) }
{
    let mut ids = Ids::new(alloc);
    let mut left = rows;
    while let [row, rest @ ..] = left {
        ids.note(alloc, row.id())?;
        left = rest;
    }
    Ok(ids)
}

/// The ids of a feed's trips and of its stops, to find them by: to be made once for the feed and used for each message.
#[derive(Drop)]
pub struct FeedIndex {
    trips: Ids,
    stops: Ids,
}

impl FeedIndex {
    /// The index of a feed. It takes memory for the ids; an `Err` is want of it.
    pub fn of(alloc: Global, feed: &Feed) -> Result<FeedIndex, Memory>
        requires { IsSound feed.now }
        ensures { IfOk result (IsIndexOf feed.now) }
    {
        let trips = index_of(alloc, feed.trips.as_slice())?;
        let stops = index_of(alloc, feed.stops.as_slice())?;
        Ok(FeedIndex { trips, stops })
    }
}

/// A sound feed with its index.
#[derive(Drop)]
pub struct Lookup<'a> {
    feed: &'a Feed,
    index: &'a FeedIndex,
}

impl<'a> Model for Lookup<'a> {
    ghost use Rattle.otp_model.specs.declared.timetable.Feed.{Feed as FeedOf};
    ghost use Rattle.rt_resolve.specs.Indices.{IsIndexOf};

    ghost Value = { FeedOf };

    ghost view = { λ lookup. lookup.feed.now };

    ghost invariant = { λ lookup. IsIndexOf lookup.feed.now lookup.index.now };
}

impl<'a> Lookup<'a> {
    /// A feed with its index. It takes no memory.
    pub fn of(feed: &'a Feed, index: &'a FeedIndex) -> Lookup<'a>
        requires { IsIndexOf feed.now index.now }
        ensures { result ≡ feed.now }
    {
        Lookup { feed, index }
    }

    /// The feed, which is sound.
    pub fn feed(&self) -> &'a Feed
        ensures feed { result.now ≡ self.now }
        ensures sound { IsSound self.now }
    {
        self.feed
    }

    pub(crate) fn stops(&self) -> &'a [Stop]
        ensures { result.now ≡ self.now.stops }
    {
        self.feed.stops.as_slice()
    }

    /// The number of the trip of this id.
    pub(crate) fn trip(&self, id: &str) -> Option<TripNo>
        ensures { result ≡ trip_of self.now id.now }
    {
        let place = self.index.trips.place(id);
        if place < self.feed.trips.len() {
            Some(place as u32)
        } else {
            None
        }
    }

    /// Whether a trip of this id may be added: some text that no trip has.
    pub(crate) fn is_new_trip(&self, id: &str) -> bool
        ensures { result ≡ is_new_trip self.now id.now }
    {
        if id.len() == 0 {
            return false;
        }
        match self.trip(id) {
            Some(_) => false,
            None => true,
        }
    }

    /// The number of the stop or platform of this id.
    pub(crate) fn platform(&self, id: &str) -> Option<StopNo>
        ensures { result ≡ platform_of self.now.stops id.now }
    {
        let place = self.index.stops.place(id);
        let stop = self.feed.stops.as_slice().get(place)?;
        if stop.kind == PLATFORM {
            Some(place as u32)
        } else {
            None
        }
    }

    /// The run of this name.
    fn run_named(&self, name: &RunName) -> Option<&'a Run>
        ensures run { option_copied result ≡ run_named self.now name.now }
        ensures sound { IfSome (option_copied result) (IsSoundRun (length self.now.stops) (length self.now.trips)) }
    {
        run_among(self.feed.runs.as_slice(), name)
    }

    /// The run of a trip on a day that an update means: the one without a start, or else the one that starts at
    /// its start_time.
    pub(crate) fn run_meant(&self, trip: TripNo, day: DayNo, update: &TripUpdate) -> Option<&'a Run>
        ensures run { option_copied result ≡ run_meant self.now trip day update.now.start_time }
        ensures sound { IfSome (option_copied result) (IsSoundRun (length self.now.stops) (length self.now.trips)) }
    {
        let without_start = planned_name(trip, day, None);
        if let Some(run) = self.run_named(&without_start) {
            return Some(run);
        }
        let time = update.start_time.as_ref()?;
        let start = parse_clock(time.as_str().as_bytes())?;
        let with_start = planned_name(trip, day, Some(start));
        self.run_named(&with_start)
    }

    /// The day of service that an update is for: its start_date, or else the local day of the message.
    pub(crate) fn service_day(
        &self,
        timestamp: Option<u64>,
        update: &TripUpdate,
    ) -> Result<Option<DayNo>, Memory>
        ensures { IfOk result (λ day. day ≡ service_day_of self.now timestamp update.now) }
    {
        if let Some(date) = &update.start_date {
            return Ok(parse_day(date.as_str()));
        }
        match timestamp {
            Some(instant) => local_day(&self.feed.zone, instant),
            None => Ok(None),
        }
    }

    /// Whether the day is one of those over which the feed is loaded.
    pub(crate) fn is_in_horizon(&self, day: DayNo) -> bool
        ensures { result ≡ is_in_horizon self.now day }
    {
        let day = i64::from(day);
        let first = i64::from(self.feed.first_day);
        first <= day && day < first + i64::from(self.feed.days)
    }
}

/// The run of this name among runs that rise by their names.
fn run_among<'a>(runs: &'a [Run], name: &RunName) -> Option<&'a Run>
    requires { AllPairs IsRunBelow runs.now }
    ensures { option_copied result ≡ find (λ run. is_same_name run.name name.now) runs.now }
{
    let mut low = 0;
    let mut high = runs.len();
    while low < high {
        let middle = low + (high - low) / 2;
        let run = &runs[middle];
        match run.name.compare(name) {
            Ordering::Less => low = middle + 1,
            Ordering::Equal => return Some(run),
            Ordering::Greater => high = middle,
        }
    }
    None
}

/// The `location_type` of a stop or platform.
const PLATFORM: u8 = 0;

fn planned_name(trip: TripNo, day: DayNo, start: Option<u32>) -> RunName
    ensures { result ≡ planned_name trip day start }
{
    RunName {
        trip: TripName::Planned(trip),
        day,
        start,
    }
}

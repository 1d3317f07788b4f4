ghost use Rattle.std.specs.Prelude.{◌≡◌, IfOk};
ghost use Rattle.otp_model.specs.Names.{kind_of, number_of, run_name_cmp, text_of};

use crate::timetable::{DayNo, TripNo};
use otp_base::{Copied, Memory, Text};
use std::alloc::Global;
use std::cmp::Ordering;

/// The trip that a run serves: one of the feed, by its number, or one that a real-time message brought, by
/// its `trip_id`.
#[derive(Debug, Drop)]
pub enum TripName {
    Planned(TripNo),
    Added(Text),
}

impl Copied for TripName {
    fn copy(&self, alloc: Global) -> Result<TripName, Memory> {
        match self {
            TripName::Planned(trip) => Ok(TripName::Planned(*trip)),
            TripName::Added(text) => Ok(TripName::Added(text.copy(alloc)?)),
        }
    }
}

impl TripName {
    /// Planned trips stand before added ones.
    fn kind(&self) -> u32
        ensures { result ≡ kind_of self.now }
    {
        match self {
            TripName::Planned(_) => 0,
            TripName::Added(_) => 1,
        }
    }

    /// The number of a planned trip, and 0 of an added one.
    fn number(&self) -> TripNo
        ensures { result ≡ number_of self.now }
    {
        match self {
            TripName::Planned(trip) => *trip,
            TripName::Added(_) => 0,
        }
    }

    /// The text of an added trip, and none of a planned one.
    fn text(&self) -> &str
        ensures { result.now ≡ text_of self.now }
    {
        match self {
            TripName::Planned(_) => "",
            TripName::Added(text) => text.as_str(),
        }
    }
}

/// What tells a run from all others: its trip, its day of service, and, where its trip runs by
/// `frequencies.txt`, its start in seconds from noon less 12 hours of that day.
#[derive(Debug, Drop)]
pub struct RunName {
    pub trip: TripName,
    pub day: DayNo,
    pub start: Option<u32>,
}

impl Copied for RunName {
    fn copy(&self, alloc: Global) -> Result<RunName, Memory> {
        let trip = self.trip.copy(alloc)?;
        Ok(RunName {
            trip,
            day: self.day,
            start: self.start,
        })
    }
}

impl RunName {
    /// How two names stand in the order of names: planned ones by day, trip and start, that without a start
    /// first; behind them the added ones by day and by the bytes of their text.
    pub fn compare(&self, other: &RunName) -> Ordering
        ensures { result ≡ run_name_cmp self.now other.now }
    {
        self.trip
            .kind()
            .cmp(&other.trip.kind())
            .then(self.day.cmp(&other.day))
            .then(self.trip.number().cmp(&other.trip.number()))
            .then(self.start.cmp(&other.start))
            .then(self.trip.text().cmp(other.trip.text()))
    }
}

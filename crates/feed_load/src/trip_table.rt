ghost use Rattle.std.specs.Prelude.{◌≡◌, ◌<◌, ◌^◌, ◌≤◌, ℕ, IfOk, length};
ghost use Rattle.std.specs.List.{All};
ghost use Rattle.otp_model.specs.Limits.{clock_end};
ghost use Rattle.feed_load.specs.Marks.{AreMarks, times_of};
ghost use Rattle.feed_load.specs.Starts.{IsHeadway, starts_by, starts_of};
ghost use Rattle.feed_load.specs.TripTables.{IsTripTable};

use crate::by_trip::TripIndex;
use crate::joins::join_rows;
use crate::marks::Marks;
use crate::starts::count_starts;
use gtfs_links::HeadwayRow;
use otp_base::{List, Memory};
use otp_model::{Call, Trip, TripNo};
use std::alloc::Global;

/// The trips of a feed, each with its calls in seconds of the service day, and the headways by trip.
#[derive(Drop)]
pub struct TripTable<'a> {
    pub trips: &'a [Trip],
    pub calls: &'a [List<Call>],
    pub headways: &'a [HeadwayRow],
    pub index: TripIndex,
}

impl<'a> TripTable<'a> {
    /// Headways that give the starts of a trip; none exactly where none are of it.
    pub fn headways_of(&self, alloc: Global, trip: TripNo) -> Result<Vec<HeadwayRow>, Memory>
        requires table { (times : ℕ) × IsTripTable times self.now }
        requires trip { trip < length self.now.trips.now }
        ensures starts { IfOk result (λ rows. starts_by rows.items ≡ starts_of self.now.headways.now trip) }
        ensures headways { (times : ℕ) → All (IsHeadway times) self.now.headways.now → IfOk result (λ rows. All (IsHeadway times) rows.items) }
    {
        let rows = self.index.rows(alloc, self.headways, trip)?;
        join_rows(alloc, rows)
    }

    /// How many starts a trip has on each day of its service.
    pub fn start_count(&self, alloc: Global, marks: &mut Marks, trip: TripNo) -> Result<u64, Memory>
        requires marks { AreMarks marks.old }
        requires clock { times_of marks.old ≤ clock_end }
        requires table { IsTripTable (times_of marks.old) self.now }
        requires trip { trip < length self.now.trips.now }
        ensures marks { AreMarks marks.new }
        ensures times { times_of marks.new ≡ times_of marks.old }
        ensures count { IfOk result (λ count. count ≡ length (starts_of self.now.headways.now trip)) }
    {
        let rows = self.headways_of(alloc, trip)?;
        if rows.len() == 0 {
            return Ok(1);
        }
        Ok(count_starts(marks, &rows).into())
    }
}

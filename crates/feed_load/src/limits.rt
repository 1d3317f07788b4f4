ghost use Rattle.std.specs.Prelude.{◌≡◌, ◌≢◌, ◌≤◌, IfErr, IfOk, length};
ghost use Rattle.std.specs.List.{All};
ghost use Rattle.gtfs_links.specs.Resolved.{IsResolvedHeadway};
ghost use Rattle.otp_model.specs.FeedFaults.{IsFault, fault_of_file};
ghost use Rattle.otp_model.specs.Limits.{most_records};
ghost use Rattle.feed_load.specs.Loaded.{AreFew, IfTold, IsOverfull};
ghost use Rattle.feed_load.specs.Runs.{HasClock, IsSoundDay, runs_of};

use crate::by_trip::TripIndex;
use crate::counts::count_calls;
use crate::marks::Marks;
use crate::runs::runs;
use crate::service_day::ServiceDay;
use crate::starts::latest_end;
use crate::trip_table::TripTable;
use gtfs_links::HeadwayRow;
use otp_base::List;
use otp_model::{Call, FeedCause, FeedFault, FeedFile, Run, Trip};
use std::alloc::Global;

const MOST_STOPS: usize = 1_000_000;

const MOST_TRIPS: usize = 10_000_000;

/// The most calls of the runs over all days.
const MOST_CALLS: u64 = 40_000_000;

/// The runs over the days, where so many stops, the trips and the calls are within their limits.
pub fn runs_within(
    alloc: Global,
    stops: usize,
    trips: &[Trip],
    calls: &[List<Call>],
    headways: &[HeadwayRow],
    days: &[ServiceDay],
) -> Result<List<Run>, FeedFault>
    requires trips { length trips.now ≤ most_records }
    requires same { length calls.now ≡ length trips.now }
    requires clocks { All (All HasClock) calls.now }
    requires few { length headways.now ≤ most_records }
    requires headways { All (IsResolvedHeadway (length trips.now)) headways.now }
    requires days { All IsSoundDay days.now }
    ensures runs { IfOk result (λ list. list ≡ runs_of trips.now calls.now headways.now days.now) }
    ensures few { IfOk result (AreFew stops (length trips.now)) }
    ensures fault { IfErr result (IfTold (IsOverfull stops (length trips.now) (runs_of trips.now calls.now headways.now days.now))) }
    ensures reads_nothing { IfErr result (λ fault. fault ≢ FeedFault.Read) }
{
    if stops > MOST_STOPS {
        return Err(too_many(alloc, FeedFile::Stops));
    }
    if trips.len() > MOST_TRIPS {
        return Err(too_many(alloc, FeedFile::Trips));
    }
    let index = TripIndex::of(alloc, trips.len(), headways)?;
    let table = TripTable {
        trips,
        calls,
        headways,
        index,
    };
    let mut marks = Marks::new(alloc, latest_end(headways) as usize)?;
    if count_calls(alloc, &mut marks, &table, days)? > MOST_CALLS {
        return Err(too_many(alloc, FeedFile::StopTimes));
    }
    match runs(alloc, &mut marks, &table, days) {
        Ok(runs) => Ok(runs),
        Err(_) => Err(FeedFault::Memory),
    }
}

/// Too many records in a file, or what comes of them.
pub fn too_many(alloc: Global, file: FeedFile) -> FeedFault
    ensures { IsFault result (fault_of_file FeedCause.TooMany file) }
{
    FeedFault::at(alloc, FeedCause::TooMany, file, 0, "")
}

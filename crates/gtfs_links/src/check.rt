//! The first phase: the first fault over the files.
ghost use Rattle.gtfs_links.specs.Faults.{Finds};
ghost use Rattle.gtfs_links.specs.Index.{AreFew, AreIndexes};
ghost use Rattle.gtfs_links.specs.Linked.{fault_of};
ghost use Rattle.gtfs_links.specs.Numbers.{AreNumbered};

mod agencies;
mod dates;
mod frequencies;
mod ids;
mod keys;
mod repeats;
mod rows;
mod stop_times;
mod stops;
mod transfers;
mod trips;
mod wrong;

use crate::indexes::Indexes;
use crate::numbers::Numbers;
use agencies::check_agencies;
use dates::check_dates;
use frequencies::check_frequencies;
use ids::IdRule;
use otp_model::{FeedFault, FeedFile, Tables};
use rows::check_rows;
use std::alloc::Global;
use stop_times::check_stop_times;
use stops::StopRule;
use transfers::TransferRule;
use trips::TripRule;
use wrong::Column;

/// Looks for the first fault over the files, in their order.
pub fn check(
    alloc: Global,
    tables: &Tables,
    zone: &str,
    indexes: &Indexes,
    numbers: &Numbers,
) -> Result<(), FeedFault>
    requires indexes { AreIndexes tables.now indexes.now }
    requires few { AreFew indexes.now }
    requires numbers { AreNumbered tables.now indexes.now numbers.now }
    ensures { Finds result (fault_of zone.now tables.now) }
{
    check_agencies(alloc, zone, tables.agencies.as_slice())?;
    let stops = StopRule {
        stops: &indexes.stops,
    };
    check_rows(alloc, FeedFile::Stops, &stops, tables.stops.as_slice())?;
    let routes = IdRule::new(&indexes.routes, Column::RouteId);
    check_rows(alloc, FeedFile::Routes, &routes, tables.routes.as_slice())?;
    let trips = TripRule { indexes };
    check_rows(alloc, FeedFile::Trips, &trips, tables.trips.as_slice())?;
    check_stop_times(alloc, indexes, numbers, tables.stop_times.as_slice())?;
    let services = IdRule::new(&indexes.services, Column::ServiceId);
    check_rows(
        alloc,
        FeedFile::Calendar,
        &services,
        tables.calendars.as_slice(),
    )?;
    check_dates(alloc, indexes, numbers, tables.dates.as_slice())?;
    let transfers = TransferRule {
        stops: &indexes.stops,
    };
    check_rows(
        alloc,
        FeedFile::Transfers,
        &transfers,
        tables.transfers.as_slice(),
    )?;
    check_frequencies(alloc, indexes, numbers, tables.frequencies.as_slice())
}

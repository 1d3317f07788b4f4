ghost use Rattle.std.specs.Prelude.{◌≡◌, ◌≢◌, ◌≤◌, IfErr, IfOk, IfSome, Err, codes};
ghost use Rattle.std.specs.List.{All, AllPairs};
ghost use Rattle.otp_base.specs.Faults.{Rose};
ghost use Rattle.otp_model.specs.FeedFaults.{IsFault, fault_at};
ghost use Rattle.otp_model.specs.Ranges.{AreOptionsInRange};
ghost use Rattle.otp_model.specs.Rows.{AreTables};
ghost use Rattle.otp_model.specs.Sound.{IsSound};
ghost use Rattle.gtfs_links.specs.Resolved.{IsResolved};
ghost use Rattle.gtfs_tables.specs.Feed.{tables_of};
ghost use Rattle.feed_load.specs.Loaded.{IfTold, IsFeedOf, IsLinkedFault, IsLoaded, IsTablesFault, Loads, trip_fault};
ghost use Rattle.feed_load.specs.Runs.{IsEarlier, IsSoundDay};

use crate::limits::{runs_within, too_many};
use crate::service_day::{ServiceDay, days_of};
use crate::trip_calls::TripFault;
use crate::trips::calls_by_trip;
use gtfs_links::{Linked, link};
use gtfs_tables::read_tables;
use otp_base::Folder;
use otp_model::{Edges, Feed, FeedCause, FeedFault, FeedFile, Options, Tables};
use std::alloc::Global;
use walk_table::{EdgesFault, edges};

/// A feed with the edges between its stops, and how many rows and trips were passed over.
#[derive(Debug, Drop)]
pub struct Loaded {
    pub feed: Feed,
    pub edges: Edges,
    pub passed: u64,
}

/// Loads the feed of a folder over the days of the options: its stops and trips, a run for each trip and day
/// on which its service runs, or for each of its starts by `frequencies.txt`, and the edges between its stops.
///
/// # Errors
///
/// `At` with the first fault, exactly: of the files one after the other, as `read_tables` gives it; then of their
/// references, as `gtfs_links::link` gives it; then over the trips, in row order, cause 10, a first or last call
/// without times, and cause 11, the first call whose time is below the one before it; then cause 13, more than
/// 1,000,000 stops (file 2), 10,000,000 trips (file 4), 40,000,000 calls (file 5) or 100,000,000 edges (file 8).
/// `Read` where a read failed, and the folder counted it.
pub fn load<F: Folder>(
    alloc: Global,
    folder: &mut F,
    path: &str,
    options: &Options,
) -> Result<Loaded, FeedFault>
    requires { AreOptionsInRange options.now }
    ensures loads { IfSome (F.files folder.old) (λ files. Loads options.now (tables_of path.now files) result) }
    ensures sound { IfOk result (λ loaded. IsSound loaded.feed) }
    ensures spelt { IfOk result (λ loaded. (tables : _) × IsFeedOf options.now tables loaded) }
    ensures unchanged { F.files folder.new ≡ F.files folder.old }
    ensures later { F.faults folder.old ≤ F.faults folder.new }
    ensures cause { result ≡ Err FeedFault.Read → Rose (F.faults folder.old) (F.faults folder.new) }
{
    match read_tables(alloc, folder, path) {
        Ok(tables) => load_tables(alloc, tables, options),
        Err(fault) => Err(fault),
    }
}

/// Loads the feed that tables spell. They are let go as soon as they are linked.
fn load_tables(alloc: Global, tables: Tables, options: &Options) -> Result<Loaded, FeedFault>
    requires tables { AreTables tables }
    requires options { AreOptionsInRange options.now }
    ensures feed { IfOk result (IsFeedOf options.now tables) }
    ensures sound { IfOk result (λ loaded. IsSound loaded.feed) }
    ensures fault { IfErr result (IfTold (IsTablesFault options.now tables)) }
    ensures reads_nothing { IfErr result (λ fault. fault ≢ FeedFault.Read) }
{
    let linked = match link(
        alloc,
        &tables,
        options.zone_name.as_str(),
        options.profile.scale,
    ) {
        Ok(linked) => linked,
        Err(fault) => return Err(fault),
    };
    let Ok(days) = days_of(alloc, &tables, options) else {
        return Err(FeedFault::Memory);
    };
    drop(tables);
    load_linked(alloc, linked, &days, options)
}

/// Loads the feed of linked tables over the days.
fn load_linked(
    alloc: Global,
    linked: Linked,
    days: &[ServiceDay],
    options: &Options,
) -> Result<Loaded, FeedFault>
    requires options { AreOptionsInRange options.now }
    requires resolved { IsResolved linked }
    requires days { All IsSoundDay days.now }
    requires rise { AllPairs IsEarlier days.now }
    ensures loaded { IfOk result (IsLoaded options.now days.now linked) }
    ensures sound { IfOk result (λ loaded. IsSound loaded.feed) }
    ensures fault { IfErr result (IfTold (IsLinkedFault options.now days.now linked)) }
    ensures reads_nothing { IfErr result (λ fault. fault ≢ FeedFault.Read) }
{
    let Linked {
        stops,
        trips,
        times,
        transfers,
        passed,
        headways,
    } = linked;
    let calls = match calls_by_trip(alloc, trips.len(), times) {
        Ok(calls) => calls,
        Err(fault) => return Err(of_feed(alloc, fault)),
    };
    let runs = match runs_within(
        alloc,
        stops.len(),
        trips.as_slice(),
        &calls,
        headways.as_slice(),
        days,
    ) {
        Ok(runs) => runs,
        Err(fault) => return Err(fault),
    };
    drop(calls);
    let walks = match edges(
        alloc,
        stops.as_slice(),
        transfers.as_slice(),
        &options.profile,
    ) {
        Ok(walks) => walks,
        Err(EdgesFault::TooMany) => return Err(too_many(alloc, FeedFile::Transfers)),
        Err(EdgesFault::Memory) => return Err(FeedFault::Memory),
    };
    Ok(Loaded {
        feed: Feed {
            stops,
            trips,
            runs,
            zone: options.zone,
            first_day: options.first_day,
            days: options.days,
        },
        edges: walks.edges,
        passed: passed + walks.passed,
    })
}

/// The fault of a trip, as one of the feed.
fn of_feed(alloc: Global, fault: TripFault) -> FeedFault
    ensures { IsFault result (trip_fault fault) }
{
    match fault {
        TripFault::NoTimes { row } => time_fault(alloc, FeedCause::NoTimes, row),
        TripFault::TimesFall { row } => time_fault(alloc, FeedCause::TimesFall, row),
        TripFault::Memory => FeedFault::Memory,
    }
}

fn time_fault(alloc: Global, cause: FeedCause, row: u64) -> FeedFault
    ensures { IsFault result (fault_at cause FeedFile.StopTimes row (codes "arrival_time")) }
{
    FeedFault::at(alloc, cause, FeedFile::StopTimes, row, "arrival_time")
}

//! The second phase: the linked feed of tables in which nothing is wrong.
ghost use Rattle.std.specs.Prelude.{◌≡◌, ◌≤◌, IfOk};
ghost use Rattle.otp_model.specs.Limits.{most_scale};
ghost use Rattle.otp_model.specs.Rows.{AreTables};
ghost use Rattle.gtfs_links.specs.Index.{AreFew};
ghost use Rattle.gtfs_links.specs.Linked.{AreNumbers, feed_of, passed_of};
ghost use Rattle.gtfs_links.specs.Numbers.{AreNumbered};

mod calls;
mod headways;
mod kept;
mod stops;
mod times;
mod transfers;

use crate::feed::Linked;
use crate::indexes::Indexes;
use crate::numbers::Numbers;
use calls::{call_counts, count_unnamed};
use headways::linked_headways;
use kept::{kept_numbers, kept_trips};
use otp_base::Memory;
use otp_model::Tables;
use std::alloc::Global;
use stops::linked_stops;
use times::linked_times;
use transfers::linked_transfers;

/// The linked feed of tables without a fault.
pub fn linked_feed(
    alloc: Global,
    tables: &Tables,
    scale: u32,
    indexes: &Indexes,
    numbers: &Numbers,
) -> Result<Linked, Memory>
    requires tables { AreTables tables.now }
    requires scale { scale ≤ most_scale }
    requires indexes { AreNumbers tables.now indexes.now }
    requires few { AreFew indexes.now }
    requires numbers { AreNumbered tables.now indexes.now numbers.now }
    ensures { IfOk result (λ linked. linked ≡ feed_of scale tables.now) }
{
    let calls = numbers.trips.as_slice();
    let counts = call_counts(alloc, &indexes.trips, calls, tables.stop_times.as_slice())?;
    let kept = kept_numbers(alloc, counts.as_slice())?;
    let trips = kept_trips(alloc, indexes, counts.as_slice(), tables.trips.as_slice())?;
    let stops = linked_stops(alloc, scale, &indexes.stops, tables.stops.as_slice())?;
    let times = linked_times(alloc, tables, numbers, kept.as_slice())?;
    let transfers = linked_transfers(alloc, &indexes.stops, tables.transfers.as_slice())?;
    let headways = linked_headways(alloc, tables, numbers, kept.as_slice())?;
    let passed = passed(tables, trips.len());
    Ok(Linked {
        stops,
        trips,
        times,
        transfers,
        passed,
        headways,
    })
}

/// How many rows of `stop_times.txt` name no stop, and how many trips aren't kept.
fn passed(tables: &Tables, kept: usize) -> u64
    requires { AreTables tables.now }
    ensures { result ≡ passed_of tables.now kept }
{
    let unnamed = count_unnamed(tables.stop_times.as_slice());
    let trips = tables.trips.len();
    unnamed as u64 + trips.saturating_sub(kept) as u64
}

ghost use Rattle.std.specs.Prelude.{◌≡◌, ◌<◌, ◌≤◌, ◌^◌, ℕ, Bool, Option, IfOk, length, map};
ghost use Rattle.std.specs.List.{filter};
ghost use Rattle.otp_model.specs.Limits.{most_records};
ghost use Rattle.otp_model.specs.declared.tables.TripRow.{TripRow as TripValue};
ghost use Rattle.gtfs_links.specs.Kept.{AreKeptNumbers, IsPlacedAs, TellsKept};
ghost use Rattle.gtfs_links.specs.Linked.{trip_at};

use crate::indexes::Indexes;
use otp_base::{Copied, List, Memory};
use otp_model::{Trip, TripNo, TripRow};
use std::alloc::Global;

/// A trip is kept where it has so many calls.
const LEAST_CALLS: u32 = 2;

/// The new numbers of the trips that are kept, by how many calls each trip has.
pub fn kept_numbers(alloc: Global, counts: &[u32]) -> Result<List<Option<TripNo>>, Memory>
    requires { length counts.now ≤ most_records }
    ensures { IfOk result (AreKeptNumbers counts.now) }
{
    let mut numbers = List::new(alloc);
    let mut kept: TripNo = 0;
    for count in counts {
        if *count < LEAST_CALLS {
            numbers.push(None)?;
        } else {
            numbers.push(Some(kept))?;
            kept += 1;
        }
    }
    Ok(numbers)
}

/// The new number of the trip at a place of these numbers, if it is kept.
pub fn new_number(kept: &[Option<TripNo>], trips: &[u32], place: usize) -> Option<TripNo>
    requires { (number : Option ℕ) × IsPlacedAs number trips.now kept.now place }
    ensures { (number : Option ℕ) → IsPlacedAs number trips.now kept.now place → result ≡ number }
{
    kept[trips[place] as usize]
}

/// The trips that are kept, by how many calls each trip has, with their routes and services by number.
pub fn kept_trips(
    alloc: Global,
    indexes: &Indexes,
    counts: &[u32],
    rows: &[TripRow],
) -> Result<List<Trip>, Memory>
    requires routes { length indexes.now.routes < 2 ^ 32 }
    requires services { length indexes.now.services < 2 ^ 32 }
    requires counts { length counts.now ≡ length rows.now }
    ensures { (is_kept : TripValue → Bool) → TellsKept counts.now rows.now is_kept
        → IfOk result (λ trips. trips ≡ map (trip_at indexes.now.routes indexes.now.services) (filter is_kept rows.now)) }
{
    let mut trips = List::new(alloc);
    for (place, row) in rows.iter().enumerate() {
        if counts[place] >= LEAST_CALLS {
            trips.push(kept_trip(alloc, indexes, row)?)?;
        }
    }
    Ok(trips)
}

fn kept_trip(alloc: Global, indexes: &Indexes, row: &TripRow) -> Result<Trip, Memory>
    requires routes { length indexes.now.routes < 2 ^ 32 }
    requires services { length indexes.now.services < 2 ^ 32 }
    ensures { IfOk result (λ trip. trip ≡ trip_at indexes.now.routes indexes.now.services row.now) }
{
    Ok(Trip {
        id: row.trip_id.copy(alloc)?,
        route: indexes.routes.place(row.route_id.as_str()) as u32,
        service: indexes.services.place(row.service_id.as_str()) as u32,
    })
}

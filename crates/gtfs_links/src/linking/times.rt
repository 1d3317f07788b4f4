ghost use Rattle.std.specs.Prelude.{◌≡◌, ◌<◌, IfOk, Some, length, slice_get};
ghost use Rattle.otp_base.specs.EachAt.{EachAt};
ghost use Rattle.gtfs_links.specs.Index.{stop_of_time, trip_of_time};
ghost use Rattle.gtfs_links.specs.Kept.{IsPlacedIn, placed_time};
ghost use Rattle.gtfs_links.specs.Keys.{numbers_in};
ghost use Rattle.gtfs_links.specs.Linked.{kept_ids, may, stop_ids, times_of};

use super::calls::is_unnamed;
use super::kept::new_number;
use crate::numbers::Numbers;
use otp_base::{List, Memory, push_some};
use otp_model::{StopNo, StopRow, StopTimeRow, Tables, TimeRow, TripNo};
use std::alloc::Global;

/// The calls of the trips kept, by number. `kept` has the new numbers of the trips.
pub fn linked_times(
    alloc: Global,
    tables: &Tables,
    numbers: &Numbers,
    kept: &[Option<TripNo>],
) -> Result<List<TimeRow>, Memory>
    requires stops { numbers.now.stops ≡ numbers_in (stop_ids tables.now) stop_of_time tables.now.stop_times }
    requires trips { EachAt (IsPlacedIn (kept_ids tables.now) trip_of_time numbers.now.trips kept.now) tables.now.stop_times }
    ensures { IfOk result (λ times. times ≡ times_of tables.now) }
{
    let rows = tables.stop_times.as_slice();
    let trips = numbers.trips.as_slice();
    let stops = numbers.stops.as_slice();
    let mut times = Vec::with_capacity(alloc, rows.len())?;
    for (place, row) in rows.iter().enumerate() {
        let trip = new_number(kept, trips, place);
        let time = linked_time(
            tables.stops.as_slice(),
            place as u64 + 1,
            row,
            trip,
            stops[place],
        );
        push_some(&mut times, time)?;
    }
    Ok(List::from_vec(times))
}

/// A row by number, where it names a stop and its trip is kept.
fn linked_time(
    stops: &[StopRow],
    row_number: u64,
    row: &StopTimeRow,
    trip: Option<TripNo>,
    stop: StopNo,
) -> Option<TimeRow>
    ensures { result ≡ placed_time stops.now row_number trip stop row.now }
{
    let trip = trip?;
    if is_unnamed(row) {
        return None;
    }
    Some(TimeRow {
        row: row_number,
        trip,
        seq: row.stop_sequence,
        stop,
        arrival: row.arrival_time,
        departure: row.departure_time,
        board: may(stops, stop as usize, row.pickup_type),
        alight: may(stops, stop as usize, row.drop_off_type),
    })
}

/// Whether people board or alight at a stop, by its `pickup_type` or `drop_off_type`.
fn may(stops: &[StopRow], stop: usize, kind: u32) -> bool
    ensures { result ≡ may stops.now stop kind }
{
    match stops.get(stop) {
        Some(row) => row.location_type == 0 && kind != 1,
        None => false,
    }
}

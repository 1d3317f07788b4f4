ghost use Rattle.std.specs.Prelude.{◌≡◌, IfOk};
ghost use Rattle.otp_base.specs.EachAt.{EachAt};
ghost use Rattle.gtfs_links.specs.Index.{trip_of_frequency};
ghost use Rattle.gtfs_links.specs.Kept.{IsPlacedIn};
ghost use Rattle.gtfs_links.specs.Linked.{headways_of, kept_ids};

use super::kept::new_number;
use crate::feed::HeadwayRow;
use crate::numbers::Numbers;
use otp_base::{List, Memory};
use otp_model::{Tables, TripNo};
use std::alloc::Global;

/// The headways of the trips kept, by number. `kept` has the new numbers of the trips.
pub fn linked_headways(
    alloc: Global,
    tables: &Tables,
    numbers: &Numbers,
    kept: &[Option<TripNo>],
) -> Result<List<HeadwayRow>, Memory>
    requires { EachAt (IsPlacedIn (kept_ids tables.now) trip_of_frequency numbers.now.frequencies kept.now) tables.now.frequencies }
    ensures { IfOk result (λ headways. headways ≡ headways_of (kept_ids tables.now) tables.now.frequencies) }
{
    let trips = numbers.frequencies.as_slice();
    let mut headways = List::new(alloc);
    for (place, row) in tables.frequencies.as_slice().iter().enumerate() {
        if let Some(trip) = new_number(kept, trips, place) {
            headways.push(HeadwayRow {
                trip,
                start: row.start_time,
                end: row.end_time,
                headway: row.headway_secs,
            })?;
        }
    }
    Ok(headways)
}

ghost use Rattle.std.specs.Prelude.{◌≡◌, ◌<◌, ◌^◌, [], length};
ghost use Rattle.otp_model.specs.Sights.{has_name, place_of};
ghost use Rattle.gtfs_links.specs.Faults.{Finds, first_wrong};
ghost use Rattle.gtfs_links.specs.Index.{stop_of_time, trip_of_time};
ghost use Rattle.gtfs_links.specs.Keys.{numbers_in};
ghost use Rattle.gtfs_links.specs.Numbers.{KnowsTimes};
ghost use Rattle.gtfs_links.specs.Rules.{is_unknown, time_rule, wrong_call};

use super::repeats::{first_repeat, has_number};
use super::rows::{Rule, check_rows};
use super::wrong::{Column, Wrong};
use crate::indexes::Indexes;
use crate::numbers::Numbers;
use name_index::Names;
use otp_base::Text;
use otp_model::{FeedFault, FeedFile, StopTimeRow};
use std::alloc::Global;

/// Each call is to have a `stop_sequence` of its own in its trip, and a trip and a stop that are there. The
/// first that has an earlier one's is known.
#[derive(Drop)]
struct TimeRule<'a> {
    indexes: &'a Indexes<'a>,
    trips: &'a [u32],
    stops: &'a [u32],
    first_repeat: usize,
}

impl<'a> Rule for TimeRule<'a> {
    type Row = StopTimeRow;

    ghost rule = { λ it. time_rule (has_name it.indexes.now.trips) (has_name it.indexes.now.stops) };

    ghost knows = { λ it rows. KnowsTimes it.indexes.now it.trips.now it.stops.now it.first_repeat rows };

    fn judge(&self, rows: &[StopTimeRow], place: usize) -> Option<Wrong> {
        let row = &rows[place];
        let repeated = place >= self.first_repeat;
        let has_trip = has_number(&self.indexes.trips, self.trips[place]);
        let unknown_stop = is_unknown_at(&self.indexes.stops, self.stops[place], &row.stop_id);
        wrong_call(repeated, has_trip, unknown_stop)
    }
}

/// Looks for the first call whose trip has an earlier one of the same `stop_sequence`, or whose trip or
/// stop isn't there.
pub fn check_stop_times(
    alloc: Global,
    indexes: &Indexes,
    numbers: &Numbers,
    rows: &[StopTimeRow],
) -> Result<(), FeedFault>
    requires few { length indexes.now.trips < 2 ^ 32 }
    requires trips { numbers.now.trips ≡ numbers_in indexes.now.trips trip_of_time rows.now }
    requires stops { numbers.now.stops ≡ numbers_in indexes.now.stops stop_of_time rows.now }
    ensures { Finds result (first_wrong FeedFile.StopTimes (time_rule (has_name indexes.now.trips) (has_name indexes.now.stops)) [] rows.now) }
{
    let trips = numbers.trips.as_slice();
    let Ok(first_repeat) = first_repeat(alloc, &indexes.trips, trips, rows) else {
        return Err(FeedFault::Memory);
    };
    let rule = TimeRule {
        indexes,
        trips,
        stops: numbers.stops.as_slice(),
        first_repeat,
    };
    check_rows(alloc, FeedFile::StopTimes, &rule, rows)
}

/// Whether a field names a record that isn't there, by the number of what it names.
fn is_unknown_at(names: &Names, number: u32, id: &Text) -> bool
    requires { number ≡ place_of names.now id.now }
    ensures { result ≡ is_unknown (has_name names.now) id.now }
{
    id.as_str().len() != 0 && !has_number(names, number)
}

/// What is wrong with a call, by whether an earlier one has its key, its trip is there and its stop isn't.
fn wrong_call(repeated: bool, has_trip: bool, unknown_stop: bool) -> Option<Wrong>
    ensures { result ≡ wrong_call repeated has_trip unknown_stop }
{
    if repeated {
        return Some(Wrong::duplicate(Column::StopSequence));
    }
    if !has_trip {
        return Some(Wrong::unknown(Column::TripId));
    }
    if unknown_stop {
        return Some(Wrong::unknown(Column::StopId));
    }
    None
}

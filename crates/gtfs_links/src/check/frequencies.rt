ghost use Rattle.std.specs.Prelude.{◌≡◌, ◌<◌, ◌^◌, [], length};
ghost use Rattle.otp_model.specs.Sights.{has_name};
ghost use Rattle.gtfs_links.specs.Faults.{Finds, first_wrong};
ghost use Rattle.gtfs_links.specs.Index.{trip_of_frequency};
ghost use Rattle.gtfs_links.specs.Keys.{numbers_in};
ghost use Rattle.gtfs_links.specs.Numbers.{KnowsFrequencies};
ghost use Rattle.gtfs_links.specs.Rules.{frequency_rule, wrong_start};

use super::repeats::{first_repeat, has_number};
use super::rows::{Rule, check_rows};
use super::wrong::{Column, Wrong};
use crate::indexes::Indexes;
use crate::numbers::Numbers;
use otp_model::{FeedFault, FeedFile, FrequencyRow};
use std::alloc::Global;

/// Each row is to have a `start_time` of its own in its trip, and a trip that is there. The first that has an
/// earlier one's is known.
#[derive(Drop)]
struct FrequencyRule<'a> {
    indexes: &'a Indexes<'a>,
    trips: &'a [u32],
    first_repeat: usize,
}

impl<'a> Rule for FrequencyRule<'a> {
    type Row = FrequencyRow;

    ghost rule = { λ it. frequency_rule (has_name it.indexes.now.trips) };

    ghost knows = { λ it rows. KnowsFrequencies it.indexes.now it.trips.now it.first_repeat rows };

    fn judge(&self, rows: &[FrequencyRow], place: usize) -> Option<Wrong> {
        let has_trip = has_number(&self.indexes.trips, self.trips[place]);
        wrong_start(place >= self.first_repeat, has_trip)
    }
}

/// Looks for the first row whose trip has an earlier one of the same `start_time`, or whose trip isn't there.
pub fn check_frequencies(
    alloc: Global,
    indexes: &Indexes,
    numbers: &Numbers,
    rows: &[FrequencyRow],
) -> Result<(), FeedFault>
    requires few { length indexes.now.trips < 2 ^ 32 }
    requires numbers { numbers.now.frequencies ≡ numbers_in indexes.now.trips trip_of_frequency rows.now }
    ensures { Finds result (first_wrong FeedFile.Frequencies (frequency_rule (has_name indexes.now.trips)) [] rows.now) }
{
    let trips = numbers.frequencies.as_slice();
    let Ok(first_repeat) = first_repeat(alloc, &indexes.trips, trips, rows) else {
        return Err(FeedFault::Memory);
    };
    let rule = FrequencyRule {
        indexes,
        trips,
        first_repeat,
    };
    check_rows(alloc, FeedFile::Frequencies, &rule, rows)
}

/// What is wrong with a row, by whether an earlier one has its key, and its trip is there.
fn wrong_start(repeated: bool, has_trip: bool) -> Option<Wrong>
    ensures { result ≡ wrong_start repeated has_trip }
{
    if repeated {
        return Some(Wrong::duplicate(Column::StartTime));
    }
    if !has_trip {
        return Some(Wrong::unknown(Column::TripId));
    }
    None
}

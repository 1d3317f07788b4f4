ghost use Rattle.std.specs.Prelude.{◌≡◌, ◌+◌, ◌<◌, ◌≤◌, IfOk, count_by, length, min};
ghost use Rattle.std.specs.List.{All, flat_map};
ghost use Rattle.otp_model.specs.Limits.{clock_end};
ghost use Rattle.feed_load.specs.Marks.{AreMarks, times_of};
ghost use Rattle.feed_load.specs.Runs.{IsSoundDay, call_count, is_among, runs_at, runs_of};
ghost use Rattle.feed_load.specs.TripTables.{IsTripTable};

use crate::marks::Marks;
use crate::service_day::ServiceDay;
use crate::trip_table::TripTable;
use otp_base::Memory;
use otp_model::TripNo;
use std::alloc::Global;

/// One more than the most calls that the runs of a feed have.
const TOO_MANY: u64 = 40_000_001;

/// How many calls the runs of the days have; more than 40,000,000 are counted as one more than these. It takes no
/// memory for runs or starts, but for the headways of a trip.
pub fn count_calls(
    alloc: Global,
    marks: &mut Marks,
    table: &TripTable,
    days: &[ServiceDay],
) -> Result<u64, Memory>
    requires marks { AreMarks marks.old }
    requires clock { times_of marks.old ≤ clock_end }
    requires table { IsTripTable (times_of marks.old) table.now }
    requires days { All IsSoundDay days.now }
    ensures marks { AreMarks marks.new }
    ensures times { times_of marks.new ≡ times_of marks.old }
    ensures count { IfOk result (λ count. count ≡ min (call_count (runs_of table.now.trips.now table.now.calls.now table.now.headways.now days.now)) 40000001) }
{
    let mut count = 0;
    for number in 0..table.trips.len() {
        count = count_trip(alloc, marks, table, days, number as TripNo, count)?;
    }
    Ok(count)
}

/// So many calls and those of the runs of a trip.
fn count_trip(
    alloc: Global,
    marks: &mut Marks,
    table: &TripTable,
    days: &[ServiceDay],
    number: TripNo,
    count: u64,
) -> Result<u64, Memory>
    requires marks { AreMarks marks.old }
    requires clock { times_of marks.old ≤ clock_end }
    requires table { IsTripTable (times_of marks.old) table.now }
    requires days { All IsSoundDay days.now }
    requires number { number < length table.now.trips.now }
    requires few { count ≤ 40000001 }
    ensures marks { AreMarks marks.new }
    ensures times { times_of marks.new ≡ times_of marks.old }
    ensures count { IfOk result (λ more. more ≡ min (count + call_count (flat_map (λ day. runs_at table.now.trips.now table.now.calls.now table.now.headways.now day number) days.now)) 40000001) }
{
    let active = active_days(days, table.trips[number as usize].service);
    // No starts are looked for where they count for nothing.
    if active == 0 || count == TOO_MANY {
        return Ok(count);
    }
    let starts = table.start_count(alloc, marks, number)?;
    let calls = table.calls[number as usize].len() as u64;
    let more = active.saturating_mul(calls.saturating_mul(starts));
    Ok(count.saturating_add(more).min(TOO_MANY))
}

/// On how many of the days a service runs.
fn active_days(days: &[ServiceDay], service: u32) -> u64
    requires { All IsSoundDay days.now }
    ensures { result ≡ count_by (λ day. is_among day.services service) days.now }
{
    let mut count = 0;
    for day in days {
        if day.has(service) {
            count += 1;
        }
    }
    count
}

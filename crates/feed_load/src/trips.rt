ghost use Rattle.std.specs.Prelude.{◌≡◌, ◌≢◌, ◌<◌, ◌++◌, ◌∷◌, [], IfErr, IfOk, OnOk, length};
ghost use Rattle.std.specs.List.{AllPairs};
ghost use Rattle.std.specs.List.Sorted.{IsPermutation, IsSortedByKey};
ghost use Rattle.std.specs.Ordering.{nat_cmp};
ghost use Rattle.otp_base.specs.EachAt.{EachAt};
ghost use Rattle.feed_load.specs.Anchors.{AreRows};
ghost use Rattle.feed_load.specs.Calls.{IsInOrder};
ghost use Rattle.feed_load.specs.Trips.{AreCallsOfTrip, AreTripRows, IsFirstFault, IsTripFaultOf, IsTripOf};

use crate::by_trip::TripIndex;
use crate::trip_calls::{TripFault, trip_calls};
use otp_base::{List, Memory};
use otp_model::{Call, TimeRow, TripNo};
use std::alloc::Global;

/// The calls of each trip, with times in seconds of the service day. The rows are let go.
pub fn calls_by_trip(
    alloc: Global,
    trips: usize,
    times: List<TimeRow>,
) -> Result<Vec<List<Call>>, TripFault>
    requires { AreTripRows trips times }
    ensures count { IfOk result (λ list. length list.items ≡ trips) }
    ensures calls { IfOk result (λ list. EachAt (IsTripOf times) list.items) }
    ensures fault { IfErr result (IsFirstFault times) }
{
    let times = times.as_slice();
    let index = TripIndex::of(alloc, trips, times)?;
    let mut list = Vec::new(alloc);
    for trip in 0..trips {
        let rows = index.rows(alloc, times, trip as TripNo)?;
        match ordered_calls(alloc, rows) {
            Ok(calls) => push(&mut list, calls)?,
            Err(fault) => return Err(fault),
        }
    }
    Ok(list)
}

fn push(list: &mut Vec<List<Call>>, calls: List<Call>) -> Result<(), Memory>
    ensures { OnOk result (list.new.items ≡ list.old.items ++ calls ∷ []) }
{
    list.push(calls)?;
    Ok(())
}

/// The calls of a trip from its rows in any order.
fn ordered_calls(alloc: Global, mut rows: Vec<TimeRow>) -> Result<List<Call>, TripFault>
    requires some { 0 < length rows.items }
    requires rows { AreRows rows.items }
    requires distinct { AllPairs (λ a b. a.seq ≢ b.seq) rows.items }
    ensures calls { IfOk result (AreCallsOfTrip rows.items) }
    ensures fault { IfErr result (IsTripFaultOf rows.items) }
{
    sort_by_sequence(&mut rows)?;
    trip_calls(alloc, &rows)
}

/// Puts the rows by rising sequence.
fn sort_by_sequence(rows: &mut Vec<TimeRow>) -> Result<(), Memory>
    requires { AllPairs (λ a b. a.seq ≢ b.seq) rows.old.items }
    ensures ordered { OnOk result (IsInOrder rows.old.items rows.new.items) }
    ensures count { length rows.new.items ≡ length rows.old.items }
{
    rows.sort_by_key(|row| row.seq)?;
    Ok(())
}

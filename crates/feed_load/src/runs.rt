ghost use Rattle.std.specs.Prelude.{◌≡◌, ◌∷◌, ◌++◌, ◌+◌, ◌*◌, ◌^◌, ◌<◌, ◌≤◌, ◌+ℤ◌, Some, [], IfOk, OnOk, length, map};
ghost use Rattle.std.specs.List.{All};
ghost use Rattle.otp_model.specs.Limits.{clock_end};
ghost use Rattle.otp_model.specs.Rows.{IsClock, IsWithin};
ghost use Rattle.feed_load.specs.Marks.{AreMarks, times_of};
ghost use Rattle.feed_load.specs.Runs.{HasClock, IsSoundDay, call_from, run_from, runs_at, runs_of, runs_of_day, shift_of};
ghost use Rattle.feed_load.specs.TripTables.{IsTripTable};

use crate::marks::Marks;
use crate::service_day::ServiceDay;
use crate::starts::list_starts;
use crate::trip_table::TripTable;
use otp_base::{List, Memory};
use otp_model::{Call, Run, RunName, Time, TripName, TripNo};
use std::alloc::Global;

/// The call with its times counted from this instant.
fn call_from(instant: Time, call: &Call) -> Call
    requires instant { IsWithin (2 ^ 35 + 2 * clock_end) instant }
    requires clocks { HasClock call.now }
    ensures { result ≡ call_from instant call.now }
{
    Call {
        arrival: instant + call.arrival,
        departure: instant + call.departure,
        ..*call
    }
}

fn calls_from(alloc: Global, instant: Time, calls: &[Call]) -> Result<List<Call>, Memory>
    requires instant { IsWithin (2 ^ 35 + 2 * clock_end) instant }
    requires clocks { All HasClock calls.now }
    ensures { IfOk result (λ list. list ≡ map (call_from instant) calls.now) }
{
    let mut list = Vec::with_capacity(alloc, calls.len())?;
    for call in calls {
        list.push(call_from(instant, call))?;
    }
    Ok(List::from_vec(list))
}

/// By how much the times of a run with a start are moved: its first departure is at the start.
fn shift_of(calls: &[Call], start: Option<u32>) -> Time
    requires clocks { All HasClock calls.now }
    requires start { IsClock start }
    ensures shift { result ≡ shift_of start calls.now }
    ensures within { IsWithin (2 * clock_end) result }
{
    let Some(start) = start else {
        return 0;
    };
    if calls.len() == 0 {
        return 0;
    }
    i64::from(start) - calls[0].departure
}

/// The instant from which the times of a run count.
fn instant_of(day: &ServiceDay, calls: &[Call], start: Option<u32>) -> Time
    requires day { IsSoundDay day.now }
    requires clocks { All HasClock calls.now }
    requires start { IsClock start }
    ensures instant { result ≡ (day.now.start +ℤ shift_of start calls.now) }
    ensures within { IsWithin (2 ^ 35 + 2 * clock_end) result }
{
    day.start + shift_of(calls, start)
}

/// A trip on a day of its service.
#[derive(Clone, Copy)]
struct TripOnDay<'a> {
    day: &'a ServiceDay,
    number: TripNo,
    calls: &'a [Call],
}

impl<'a> TripOnDay<'a> {
    /// Its run, by its start if it has one.
    fn run(&self, alloc: Global, start: Option<u32>) -> Result<Run, Memory>
        requires day { IsSoundDay self.now.day.now }
        requires clocks { All HasClock self.now.calls.now }
        requires start { IsClock start }
        ensures { IfOk result (λ run. run ≡ run_from self.now.day.now self.now.number self.now.calls.now start) }
    {
        let instant = instant_of(self.day, self.calls, start);
        let calls = calls_from(alloc, instant, self.calls)?;
        Ok(Run {
            name: RunName {
                trip: TripName::Planned(self.number),
                day: self.day.day,
                start,
            },
            calls,
        })
    }

    /// Adds its runs at these starts.
    fn add_runs(&self, alloc: Global, runs: &mut List<Run>, starts: &[u32]) -> Result<(), Memory>
        requires day { IsSoundDay self.now.day.now }
        requires clocks { All HasClock self.now.calls.now }
        requires starts { All (λ start. start < clock_end) starts.now }
        ensures { OnOk result (runs.new ≡ runs.old ++ map (run_from self.now.day.now self.now.number self.now.calls.now) (map (λ start. Some start) starts.now)) }
    {
        for start in starts {
            runs.push(self.run(alloc, Some(*start))?)?;
        }
        Ok(())
    }
}

/// Adds the runs of a trip on a day, if its service runs on it.
fn add_trip(
    alloc: Global,
    runs: &mut List<Run>,
    marks: &mut Marks,
    table: &TripTable,
    day: &ServiceDay,
    number: TripNo,
) -> Result<(), Memory>
    requires marks { AreMarks marks.old }
    requires clock { times_of marks.old ≤ clock_end }
    requires table { IsTripTable (times_of marks.old) table.now }
    requires day { IsSoundDay day.now }
    requires number { number < length table.now.trips.now }
    ensures marks { AreMarks marks.new }
    ensures times { times_of marks.new ≡ times_of marks.old }
    ensures runs { OnOk result (runs.new ≡ runs.old ++ runs_at table.now.trips.now table.now.calls.now table.now.headways.now day.now number) }
{
    if !day.has(table.trips[number as usize].service) {
        return Ok(());
    }
    let calls = table.calls[number as usize].as_slice();
    let trip = TripOnDay { day, number, calls };
    let rows = table.headways_of(alloc, number)?;
    if rows.len() == 0 {
        let run = trip.run(alloc, None)?;
        runs.push(run)?;
        return Ok(());
    }
    let starts = list_starts(alloc, marks, &rows)?;
    trip.add_runs(alloc, runs, &starts)?;
    Ok(())
}

/// Adds the runs of a day.
fn add_day(
    alloc: Global,
    runs: &mut List<Run>,
    marks: &mut Marks,
    table: &TripTable,
    day: &ServiceDay,
) -> Result<(), Memory>
    requires marks { AreMarks marks.old }
    requires clock { times_of marks.old ≤ clock_end }
    requires table { IsTripTable (times_of marks.old) table.now }
    requires day { IsSoundDay day.now }
    ensures marks { AreMarks marks.new }
    ensures times { times_of marks.new ≡ times_of marks.old }
    ensures runs { OnOk result (runs.new ≡ runs.old ++ runs_of_day table.now.trips.now table.now.calls.now table.now.headways.now day.now) }
{
    for number in 0..table.trips.len() {
        add_trip(alloc, runs, marks, table, day, number as TripNo)?;
    }
    Ok(())
}

/// The runs of the days, by day, then by trip and then by start.
pub fn runs(
    alloc: Global,
    marks: &mut Marks,
    table: &TripTable,
    days: &[ServiceDay],
) -> Result<List<Run>, Memory>
    requires marks { AreMarks marks.old }
    requires clock { times_of marks.old ≤ clock_end }
    requires table { IsTripTable (times_of marks.old) table.now }
    requires days { All IsSoundDay days.now }
    ensures { IfOk result (λ runs. runs ≡ runs_of table.now.trips.now table.now.calls.now table.now.headways.now days.now) }
{
    let mut runs = List::new(alloc);
    for day in days {
        add_day(alloc, &mut runs, marks, table, day)?;
    }
    Ok(runs)
}

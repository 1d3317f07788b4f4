ghost use Rattle.std.specs.Prelude.{◌≡◌, ◌<◌, ◌≤◌, IfSome, length, map, slice_get};
ghost use Rattle.trip_patterns.specs.Hops.{AreLeast, IsDwellBound, IsHopBound, least_dwell, least_hop, most_seconds};
ghost use Rattle.trip_patterns.specs.Lanes.{IsCallAt, IsFirstCatch, departure_at};
ghost use Rattle.trip_patterns.specs.Rows.{IsWhole, column, columns as columns_of, lane_of};
ghost use Rattle.trip_patterns.specs.Spans.{IsSpan};

use crate::least::LeastTimes;
use crate::row::Row;
use crate::span::Span;
use crate::spot::Spot;
use lane_kernels::first_at_least;
use otp_base::List;
use otp_model::{Call, DayNo, RunName, StopNo, Time};
use std::marker::Model;

/// Runs of one pattern and day, as rows, none of which overtakes another: in no column does a later row stand before an
/// earlier one. Its departures stand position by position, so that those of one position are a slice.
#[derive(Drop)]
pub struct Lane {
    day: DayNo,
    pattern: List<Spot>,
    rows: Vec<Row>,
    departures: Vec<Time>,
    least: LeastTimes,
}

impl Model for Lane {
    ghost use Rattle.trip_patterns.specs.Lanes.{LaneOf};
    ghost use Rattle.trip_patterns.specs.Rows.{IsWhole, lane_of};

    ghost Value = { LaneOf };

    ghost view = { λ lane. lane_of lane.day lane.pattern lane.rows.items };

    ghost invariant = { λ lane. IsWhole lane.day lane.pattern lane.rows.items lane.departures.items lane.least.hops.items lane.least.dwells.items };
}

impl Lane {
    /// The lane of rows, their columns and their least times.
    pub(crate) fn of(
        day: DayNo,
        pattern: List<Spot>,
        rows: Vec<Row>,
        departures: Vec<Time>,
        least: LeastTimes,
    ) -> Lane
        requires { IsWhole day pattern rows.items departures.items least.hops.items least.dwells.items }
        ensures { result ≡ lane_of day pattern rows.items }
    {
        Lane {
            day,
            pattern,
            rows,
            departures,
            least,
        }
    }

    /// How many rows it has.
    pub fn rows(&self) -> usize
        ensures { result ≡ length self.now.runs }
    {
        self.rows.len()
    }

    /// How many calls each row has.
    pub fn positions(&self) -> usize
        ensures { result ≡ length self.now.pattern }
    {
        self.pattern.len()
    }

    pub fn day(&self) -> DayNo
        ensures { result ≡ self.now.day }
    {
        self.day
    }

    /// The stops of its rows, with boarding and alighting there.
    pub fn pattern(&self) -> &[Spot]
        ensures { result.now ≡ self.now.pattern }
    {
        self.pattern.as_slice()
    }

    /// The stop of the calls at a position.
    pub fn stop(&self, position: usize) -> StopNo
        requires { position < length self.now.pattern }
        ensures { IfSome (slice_get self.now.pattern position) (λ spot. result ≡ spot.stop) }
    {
        self.pattern.as_slice()[position].stop()
    }

    /// Whether the rows may be boarded at a position.
    pub fn may_board(&self, position: usize) -> bool
        requires { position < length self.now.pattern }
        ensures { IfSome (slice_get self.now.pattern position) (λ spot. result ≡ spot.board) }
    {
        self.pattern.as_slice()[position].may_board()
    }

    /// Whether the rows may be left at a position.
    pub fn may_alight(&self, position: usize) -> bool
        requires { position < length self.now.pattern }
        ensures { IfSome (slice_get self.now.pattern position) (λ spot. result ≡ spot.alight) }
    {
        self.pattern.as_slice()[position].may_alight()
    }

    /// The name of a row's run.
    pub fn name(&self, row: usize) -> &RunName
        requires { row < length self.now.runs }
        ensures { IfSome (slice_get self.now.runs row) (λ run. result.now ≡ run.name) }
    {
        &self.rows[row].name
    }

    /// A row's call at a position.
    pub fn call(&self, row: usize, position: usize) -> Call
        requires row { row < length self.now.runs }
        requires position { position < length self.now.pattern }
        ensures { IsCallAt self.now.runs row position result }
    {
        self.rows[row].call(self.pattern.as_slice(), position)
    }

    /// When a row arrives, call by call.
    pub fn arrivals(&self, row: usize) -> &[Time]
        requires { row < length self.now.runs }
        ensures { IfSome (slice_get self.now.runs row) (λ run. result.now ≡ map (λ call. call.arrival) run.calls) }
    {
        self.rows[row].arrivals.as_slice()
    }

    /// When the rows depart from the call at a position, row by row.
    pub fn departures(&self, position: usize) -> &[Time]
        requires { position < length self.now.pattern }
        ensures { result.now ≡ map (departure_at position) self.now.runs }
    {
        column_of(
            &self.departures,
            self.pattern.as_slice(),
            &self.rows,
            position,
        )
    }

    /// The least seconds of a row from its departure from the call at a position to its next arrival, from 0 to 2^32 - 2: 0
    /// where a row arrives before it departs, and 2^32 - 2 at the last position and where there are no rows.
    pub fn hop(&self, position: usize) -> u32
        requires { position < length self.now.pattern }
        ensures least { result ≡ least_hop self.now.runs position }
        ensures bound { IsHopBound self.now.runs position result }
        ensures most { result ≤ most_seconds }
    {
        self.least.hops[position]
    }

    /// The least seconds of a row from its arrival at a position to its departure, from 0 to 2^32 - 2: 0 where a row departs
    /// before it arrives, and 2^32 - 2 where there are no rows.
    pub fn dwell(&self, position: usize) -> u32
        requires { position < length self.now.pattern }
        ensures least { result ≡ least_dwell self.now.runs position }
        ensures bound { IsDwellBound self.now.runs position result }
        ensures most { result ≤ most_seconds }
    {
        self.least.dwells[position]
    }

    /// The least times of its rows, by position.
    pub(crate) fn least_times(&self) -> &LeastTimes
        ensures { AreLeast (length self.now.pattern) self.now.runs result.now.hops.items result.now.dwells.items }
    {
        &self.least
    }

    /// When it departs: since no row overtakes another, from the first call of the first row to the last call of the last.
    pub fn span(&self) -> Span
        ensures { IsSpan self.now.runs result }
    {
        let rows = self.rows.len();
        let positions = self.pattern.len();
        if rows == 0 || positions == 0 {
            return Span::of_none();
        }
        Span::between(&self.call(0, 0), &self.call(rows - 1, positions - 1))
    }

    /// The first row that departs from the call at a position at a time or later, or the number of rows where none does.
    pub fn first_catch(&self, position: usize, time: Time) -> usize
        requires { position < length self.now.pattern }
        ensures { IsFirstCatch self.now.runs position time result }
    {
        first_at_least(self.departures(position), time)
    }
}

/// The part of the columns that belongs to a position.
fn column_of<'a>(columns: &'a [Time], pattern: &[Spot], rows: &[Row], position: usize) -> &'a [Time]
    requires columns { columns.now ≡ columns_of (length pattern.now) rows.now }
    requires position { position < length pattern.now }
    ensures { result.now ≡ column rows.now position }
{
    let from = position * rows.len();
    &columns[from..from + rows.len()]
}

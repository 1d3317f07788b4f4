ghost use Rattle.std.specs.Prelude.{◌≡◌, ◌+◌, ◌*◌, ◌≤◌, ◌↔◌, IsTrue, IfOk, OnOk, OnErr, length, map, vec_capacity};
ghost use Rattle.otp_model.specs.Patterns.{spot_of};
ghost use Rattle.trip_patterns.specs.Lanes.{IsLane, empty_lane, with_run};

use crate::columns::with_columns;
use crate::fitting::fits_behind;
use crate::lane::Lane;
use crate::least::{LeastTimes, lower_dwells, lower_hops};
use crate::row::Row;
use crate::spot::Spot;
use otp_base::{List, Memory, Steps};
use otp_model::{Call, DayNo, Run, Time};
use std::alloc::Global;
use std::marker::Model;
use std::sync::ledger::Ledger;

/// A lane that rows are added to.
#[derive(Drop)]
pub struct LaneBuilder {
    alloc: Global,
    day: DayNo,
    pattern: List<Spot>,
    rows: Vec<Row>,
    /// Empty, with room for the columns of the rows, so that to finish takes no memory.
    departures: Vec<Time>,
    least: LeastTimes,
}

impl Model for LaneBuilder {
    ghost use Rattle.std.specs.Prelude.{vec_capacity};
    ghost use Rattle.trip_patterns.specs.Lanes.{LaneOf};
    ghost use Rattle.trip_patterns.specs.Rows.{IsBuilt, lane_of};

    ghost Value = { LaneOf };

    ghost view = { λ lane. lane_of lane.day lane.pattern lane.rows.items };

    ghost invariant = { λ lane. IsBuilt lane.day lane.pattern lane.rows.items lane.departures.items (vec_capacity lane.departures) lane.least.hops.items lane.least.dwells.items };
}

impl LaneBuilder {
    /// A lane of the run's pattern and day, without rows.
    pub fn new(alloc: Global, first: &Run) -> Result<LaneBuilder, Memory>
        ensures { IfOk result (λ lane. lane ≡ empty_lane first.now) }
    {
        let pattern = pattern_of(alloc, first.calls.as_slice())?;
        let least = LeastTimes::new(alloc, pattern.len())?;
        Ok(LaneBuilder {
            alloc,
            day: first.name.day,
            pattern,
            rows: Vec::new(alloc),
            departures: Vec::new(alloc),
            least,
        })
    }

    /// Whether the run may be the next row: it is of the lane's pattern and day, and at no call does it stand before a row.
    pub fn fits(&self, run: &Run) -> bool
        ensures { IsTrue result ↔ IsLane (with_run self.now run.now) }
    {
        fits_behind(
            &self.day,
            self.pattern.as_slice(),
            self.rows.as_slice(),
            run,
        )
    }

    /// Adds the run as the last row. Each call that is written counts one step.
    pub fn push_row<L: Ledger>(&mut self, run: &Run, steps: &mut Steps<L>) -> Result<(), Memory>
        requires { IsLane (with_run self.old run.now) }
        ensures ok { OnOk result (self.new ≡ with_run self.old run.now) }
        ensures err { OnErr result (self.new ≡ self.old) }
        ensures counted { OnOk result (steps.new ≡ steps.old + length run.now.calls) }
        ensures most { steps.new ≤ steps.old + length run.now.calls }
    {
        let row = Row::of(self.alloc, run, steps)?;
        make_room(&mut self.departures, self.rows.len(), self.pattern.len())?;
        self.rows.push(row)?;
        lower_hops(&mut self.least.hops, run.calls.as_slice());
        lower_dwells(&mut self.least.dwells, run.calls.as_slice());
        Ok(())
    }

    /// The lane of the rows that were added.
    pub fn finish(self) -> Lane
        ensures same { result ≡ self }
        ensures lane { IsLane result }
    {
        let LaneBuilder {
            day,
            pattern,
            rows,
            departures,
            least,
            ..
        } = self;
        let departures = with_columns(departures, pattern.len(), rows.as_slice());
        Lane::of(day, pattern, rows, departures, least)
    }
}

/// The stops of calls, with boarding and alighting there.
fn pattern_of(alloc: Global, calls: &[Call]) -> Result<List<Spot>, Memory>
    ensures { IfOk result (λ pattern. pattern ≡ map spot_of calls.now) }
{
    let mut pattern = List::new(alloc);
    for call in calls {
        pattern.push(Spot::of(call))?;
    }
    Ok(pattern)
}

/// Makes room for the columns of one row more.
fn make_room(columns: &mut Vec<Time>, rows: usize, positions: usize) -> Result<(), Memory>
    ensures items { columns.new.items ≡ columns.old.items }
    ensures room { OnOk result ((rows + 1) * positions ≤ vec_capacity columns.new) }
    ensures kept { vec_capacity columns.old ≤ vec_capacity columns.new }
{
    let rows = rows.checked_add(1).ok_or(Memory)?;
    let calls = rows.checked_mul(positions).ok_or(Memory)?;
    columns.reserve(calls)?;
    Ok(())
}

ghost use Rattle.std.specs.Prelude.{◌≡◌, ◌+◌, ◌≤◌, ◌<◌, ◌<ℤ◌, ◌↔◌, [], ◌∷◌, ◌++◌, IsTrue, IfOk, OnOk, Some, length, map, pos, slice_get, slice_index_or};
ghost use Rattle.otp_model.specs.Patterns.{spot_of};

use crate::spot::Spot;
use otp_base::{Copied, List, Memory, Steps};
use otp_model::{Call, Run, RunName, Time};
use std::alloc::Global;
use std::sync::ledger::Ledger;

/// What a row of a lane has of its own: the name of its run, and for each call the sequence and the times.
#[derive(Debug, Drop)]
pub struct Row {
    pub name: RunName,
    pub seqs: List<u32>,
    pub arrivals: List<Time>,
    pub departures: List<Time>,
}

impl Row {
    ghost use Rattle.trip_patterns.specs.Rows.{IsRow, IsRowBefore, IsRowOf, run_of};

    /// The row of a run. Each call that is written counts one step.
    pub fn of<L: Ledger>(alloc: Global, run: &Run, steps: &mut Steps<L>) -> Result<Row, Memory>
        ensures row { IfOk result (IsRowOf run.now) }
        ensures counted { OnOk result (steps.new ≡ steps.old + length run.now.calls) }
        ensures most { steps.new ≤ steps.old + length run.now.calls }
    {
        let calls = run.calls.len();
        let mut row = Row {
            name: run.name.copy(alloc)?,
            seqs: with_room(alloc, calls)?,
            arrivals: with_room(alloc, calls)?,
            departures: with_room(alloc, calls)?,
        };
        for call in run.calls.as_slice() {
            row.seqs.push(call.seq)?;
            push_time(&mut row.arrivals, &call.arrival)?;
            push_time(&mut row.departures, &call.departure)?;
            steps.tick();
        }
        Ok(row)
    }

    /// The call that it has at a position of this pattern.
    pub fn call(&self, pattern: &[Spot], position: usize) -> Call
        requires whole { IsRow (length pattern.now) self.now }
        requires position { position < length pattern.now }
        ensures { slice_get (run_of pattern.now self.now).calls position ≡ Some result }
    {
        let spot = &pattern[position];
        let seqs = self.seqs.as_slice();
        Call {
            stop: spot.stop(),
            seq: seqs[position],
            arrival: time_at(self.arrivals.as_slice(), position),
            departure: time_at(self.departures.as_slice(), position),
            board: spot.may_board(),
            alight: spot.may_alight(),
        }
    }

    /// Whether it stands nowhere behind these calls.
    pub fn is_before(&self, calls: &[Call]) -> bool
        requires { IsRow (length calls.now) self.now }
        ensures { IsTrue result ↔ IsRowBefore self.now calls.now }
    {
        let arrivals = self.arrivals.as_slice();
        let departures = self.departures.as_slice();
        for position in 0..calls.len() {
            if is_earlier(&calls[position].arrival, &arrivals[position]) {
                return false;
            }
            if is_earlier(&calls[position].departure, &departures[position]) {
                return false;
            }
        }
        true
    }
}

/// No items, with room for so many.
fn with_room<T>(alloc: Global, items: usize) -> Result<List<T>, Memory>
    ensures { IfOk result (λ list. list ≡ []) }
{
    Ok(List::from_vec(Vec::with_capacity(alloc, items)?))
}

fn time_at(times: &[Time], position: usize) -> Time
    requires { position < length times.now }
    ensures { result ≡ slice_index_or times.now position (pos 0) }
{
    times[position]
}

fn push_time(times: &mut List<Time>, time: &Time) -> Result<(), Memory>
    ensures { OnOk result (times.new ≡ times.old ++ time.now ∷ []) }
{
    times.push(*time)?;
    Ok(())
}

fn is_earlier(time: &Time, other: &Time) -> bool
    ensures { IsTrue result ↔ (time.now <ℤ other.now) }
{
    *time < *other
}

/// Whether calls are of a pattern.
pub fn has_pattern(pattern: &[Spot], calls: &[Call]) -> bool
    ensures { IsTrue result ↔ (map spot_of calls.now ≡ pattern.now) }
{
    if calls.len() != pattern.len() {
        return false;
    }
    for position in 0..calls.len() {
        if !pattern[position].is_of(&calls[position]) {
            return false;
        }
    }
    true
}

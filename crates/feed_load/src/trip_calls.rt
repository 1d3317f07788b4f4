ghost use Rattle.std.specs.Prelude.{◌≡◌, ◌↔◌, ℕ, ◌+◌, ◌-◌, ◌<◌, min, length, IfOk, IfErr, IsTrue, MatchOption};
ghost use Rattle.feed_load.specs.Anchors.{AreEnds, AreRows, IsLeft, IsReached};
ghost use Rattle.otp_base.specs.EachAt.{EachAt};
ghost use Rattle.feed_load.specs.Calls.{AreCallsOf, FallsAt, FallsFirstAt, IsCallAt, IsCallOf};
ghost use Rattle.feed_load.specs.Trips.{AreGoodCalls, IsTripFault};

use crate::gap::{Anchor, given_times, time_between};
use otp_base::{List, Memory};
use otp_model::{Call, Time, TimeRow};
use std::alloc::Global;

/// Why the calls of a trip can't be told: the row at fault, counted from 1 in `stop_times.txt`.
#[derive(Clone, Copy, Debug, PartialEq, Eq)]
pub enum TripFault {
    /// The first or the last call has neither time.
    NoTimes { row: u64 },
    /// The first call that has a time below the one before it, in the order arrival, departure.
    TimesFall { row: u64 },
    /// Memory ran out.
    Memory,
}

impl From<Memory> for TripFault {
    ghost use Rattle.feed_load.specs.declared.trip_calls.TripFault.TheVariants as fault;

    ghost from_gives = { λ _ e. e ≡ fault.Memory };

    fn from(_error: Memory) -> TripFault {
        TripFault::Memory
    }
}

/// When a trip leaves its first call, and when it arrives at its last one.
#[derive(Clone, Copy, Debug)]
pub struct Ends {
    pub departure: u32,
    pub arrival: u32,
}

/// The calls of a trip from its rows by rising sequence, with times in seconds of the service day.
pub fn trip_calls(alloc: Global, rows: &[TimeRow]) -> Result<List<Call>, TripFault>
    requires some { 0 < length rows.now }
    requires rows { AreRows rows.now }
    ensures calls { IfOk result (AreGoodCalls rows.now) }
    ensures fault { IfErr result (IsTripFault rows.now) }
{
    let ends = ends_of(rows)?;
    let calls = filled(alloc, rows, ends)?;
    match first_fall(&calls) {
        Some(place) => Err(TripFault::TimesFall {
            row: rows[place].row,
        }),
        None => Ok(List::from_vec(calls)),
    }
}

/// The ends, or the first of them that has neither time.
fn ends_of(rows: &[TimeRow]) -> Result<Ends, TripFault>
    requires some { 0 < length rows.now }
    requires rows { AreRows rows.now }
    ensures ends { IfOk result (AreEnds rows.now) }
    ensures fault { IfErr result (IsTripFault rows.now) }
{
    let first = &rows[0];
    let Some(start) = given_times(first) else {
        return Err(TripFault::NoTimes { row: first.row });
    };
    let last = &rows[rows.len() - 1];
    let Some(end) = given_times(last) else {
        return Err(TripFault::NoTimes { row: last.row });
    };
    Ok(Ends {
        departure: start.departure,
        arrival: end.arrival,
    })
}

/// The calls of the rows: each time that is given, and equal steps between.
fn filled(alloc: Global, rows: &[TimeRow], ends: Ends) -> Result<Vec<Call>, Memory>
    requires rows { AreRows rows.now }
    requires ends { AreEnds rows.now ends }
    ensures { IfOk result (λ calls. AreCallsOf rows.now calls.items) }
{
    let reached = reached_from_each(alloc, rows, ends.arrival)?;
    let mut left = Anchor {
        place: 0,
        time: ends.departure,
    };
    let mut calls = Vec::with_capacity(alloc, rows.len())?;
    for place in 0..rows.len() {
        let call = call_at(rows, place, left, reached[rows.len() - 1 - place]);
        left = left_after(rows, place, left);
        calls.push(call)?;
    }
    Ok(calls)
}

/// For each place from the last to the first: the nearest row from it on that gives times.
fn reached_from_each(alloc: Global, rows: &[TimeRow], arrival: u32) -> Result<Vec<Anchor>, Memory>
    requires rows { AreRows rows.now }
    requires last { IsReached rows.now (length rows.now - 1) (record { place = length rows.now - 1; time = arrival }) }
    ensures count { IfOk result (λ list. length list.items ≡ length rows.now) }
    ensures each { IfOk result (λ list. EachAt (λ k anchor. IsReached rows.now (length rows.now - 1 - k) anchor) list.items) }
{
    let mut nearest = Anchor {
        place: rows.len() - 1,
        time: arrival,
    };
    let mut list = Vec::with_capacity(alloc, rows.len())?;
    for k in 0..rows.len() {
        nearest = reached_from(rows, rows.len() - 1 - k, nearest);
        list.push(nearest)?;
    }
    Ok(list)
}

/// The nearest row from a place on that gives times, where `behind` is that from the next place on, or from
/// this one where it is the last.
fn reached_from(rows: &[TimeRow], place: usize, behind: Anchor) -> Anchor
    requires rows { AreRows rows.now }
    requires within { place < length rows.now }
    requires behind { IsReached rows.now (min (place + 1) (length rows.now - 1)) behind }
    ensures { IsReached rows.now place result }
{
    match given_times(&rows[place]) {
        Some(times) => Anchor {
            place,
            time: times.arrival,
        },
        None => behind,
    }
}

/// The last row up to a place that gives times, where `before` is that up to the place before.
fn left_after(rows: &[TimeRow], place: usize, before: Anchor) -> Anchor
    requires rows { AreRows rows.now }
    requires within { place < length rows.now }
    requires before { IsLeft rows.now place before }
    ensures { IsLeft rows.now (place + 1) result }
{
    match given_times(&rows[place]) {
        Some(times) => Anchor {
            place,
            time: times.departure,
        },
        None => before,
    }
}

/// The call of the row at a place.
fn call_at(rows: &[TimeRow], place: usize, left: Anchor, reached: Anchor) -> Call
    requires rows { AreRows rows.now }
    requires within { place < length rows.now }
    requires left { IsLeft rows.now place left }
    requires reached { IsReached rows.now place reached }
    ensures { IsCallAt rows.now place result }
{
    let row = &rows[place];
    match given_times(row) {
        Some(times) => call_with(row, times.arrival.into(), times.departure.into()),
        None => {
            let time = time_between(left, reached, place);
            call_with(row, time, time)
        }
    }
}

fn call_with(row: &TimeRow, arrival: Time, departure: Time) -> Call
    ensures is { IsCallOf row.now result }
    ensures arrives { result.arrival ≡ arrival }
    ensures departs { result.departure ≡ departure }
{
    Call {
        stop: row.stop,
        seq: row.seq,
        arrival,
        departure,
        board: row.board,
        alight: row.alight,
    }
}

/// The first place at which a time is below the one before it, in the order arrival, departure.
fn first_fall(calls: &[Call]) -> Option<usize>
    ensures { MatchOption result ((place : ℕ) → FallsAt calls.now place → ⊥) (FallsFirstAt calls.now) }
{
    for place in 0..calls.len() {
        if falls_at(calls, place) {
            return Some(place);
        }
    }
    None
}

fn falls_at(calls: &[Call], place: usize) -> bool
    requires { place < length calls.now }
    ensures { IsTrue result ↔ FallsAt calls.now place }
{
    let call = &calls[place];
    call.departure < call.arrival || place > 0 && call.arrival < calls[place - 1].departure
}

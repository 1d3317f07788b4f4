ghost use Rattle.std.specs.Prelude.{◌≡◌, ◌<◌};

use jiff::tz::TimeZone;
use otp_base::{List, Memory, Steps};
use otp_model::{Call, Change, Feed, Run, RunName, Time, TripName, Zone};
use snapshot_store::Snapshot;
use std::alloc::Global;
use std::marker::Brand;
use std::sync::ledger::{Blank, Ledger};
use std::test::Fail;
use trip_patterns::Timetable;

/// Stops and times of runs to D: by way of B, from C, and straight.
const BY_B: [(u32, Time); 3] = [(0, 100), (1, 200), (3, 300)];

const FROM_C: [(u32, Time); 2] = [(2, 150), (3, 250)];

const STRAIGHT: [(u32, Time); 2] = [(0, 120), (3, 320)];

const BY_B_LATE: [(u32, Time); 3] = [(0, 100), (1, 260), (3, 360)];

fn name(trip: u32) -> RunName {
    RunName {
        trip: TripName::Planned(trip),
        day: 19_849,
        start: None,
    }
}

fn calls_of(alloc: Global, stops: &[(u32, Time)]) -> Result<List<Call>, Memory> {
    let mut calls = List::new(alloc);
    for (stop, time) in stops {
        calls.push(Call {
            stop: *stop,
            seq: 1,
            arrival: *time,
            departure: *time,
            board: true,
            alight: true,
        })?;
    }
    Ok(calls)
}

fn run(alloc: Global, trip: u32, stops: &[(u32, Time)]) -> Result<Run, Memory> {
    Ok(Run {
        name: name(trip),
        calls: calls_of(alloc, stops)?,
    })
}

fn feed(alloc: Global) -> Result<Feed, Memory> {
    let mut runs = List::new(alloc);
    runs.push(run(alloc, 0, &BY_B)?)?;
    runs.push(run(alloc, 1, &FROM_C)?)?;
    runs.push(run(alloc, 2, &STRAIGHT)?)?;
    Ok(Feed {
        stops: List::new(alloc),
        trips: List::new(alloc),
        runs,
        zone: Zone {
            rule: TimeZone::UTC,
        },
        first_day: 19_849,
        days: 1,
    })
}

/// The snapshot after a change of the first run.
fn after<L: Ledger>(
    alloc: Global,
    snapshot: &Snapshot,
    calls: Option<List<Call>>,
    blank: Blank,
) -> Result<Snapshot, Memory>
    requires name { blank.name ≡ L.name }
    requires parts { blank.parts ≡ L.parts }
    requires some { 0 < blank.parts }
{
    let mut steps = Steps::<L>::new(blank);
    let change = Change {
        name: name(0),
        calls,
    };
    snapshot.with_changes(alloc, &[change], &mut steps)
}

/// How many blocks and lanes a snapshot has, in how many places A, C and D stand there, how many runs it has, and the sum
/// of their last arrivals.
fn told(alloc: Global, snapshot: &Snapshot) -> Result<[i64; 7], Memory> {
    let mut lanes = 0i64;
    for block in 0..snapshot.block_count() {
        lanes = lanes.wrapping_add(snapshot.block(block).len() as i64);
    }
    let runs = snapshot.all_runs(alloc)?;
    let mut ends = 0i64;
    for run in &runs {
        if let Some(last) = run.calls.as_slice().last() {
            ends = ends.wrapping_add(last.arrival);
        }
    }
    Ok([
        snapshot.block_count() as i64,
        lanes,
        snapshot.blocks_at(0).len() as i64,
        snapshot.blocks_at(2).len() as i64,
        snapshot.blocks_at(3).len() as i64,
        runs.len() as i64,
        ends,
    ])
}

#[test]
fn a_run_goes_and_comes_back_late(rt: HostRuntime) -> Result<(), Fail> {
    let alloc = rt.alloc();
    let snapshot = Snapshot::build(alloc, &feed(alloc)?)?;
    assert_eq!(rt; told(alloc, &snapshot)?, [3, 3, 2, 1, 3, 3, 870]);
    let gone = after::<Brand>(alloc, &snapshot, None, Blank::new(1))?;
    assert_eq!(rt; told(alloc, &gone)?, [2, 2, 1, 1, 2, 2, 570]);
    let calls = calls_of(alloc, &BY_B_LATE)?;
    let late = after::<Brand>(alloc, &gone, Some(calls), Blank::new(1))?;
    assert_eq!(rt; told(alloc, &late)?, [3, 3, 2, 1, 3, 3, 930]);
    assert_eq!(rt; told(alloc, &snapshot)?, [3, 3, 2, 1, 3, 3, 870]);
    Ok(())
}

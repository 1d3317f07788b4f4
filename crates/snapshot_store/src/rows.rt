ghost use Rattle.std.specs.Prelude.{◌≡◌, ◌++◌, ◌<◌, IfOk, OnOk, Some, length, slice_get};
ghost use Rattle.std.specs.List.{All, flat_map};
ghost use Rattle.otp_model.specs.Patterns.{run_changed};
ghost use Rattle.trip_patterns.specs.FirstFit.{rows_of};
ghost use Rattle.trip_patterns.specs.Lanes.{IsLane};
ghost use Rattle.snapshot_store.specs.Changing.{kept};

use crate::changed::Changed;
use otp_base::{Copied, List, Memory};
use otp_model::{Call, Change, Run, RunName};
use std::alloc::Global;
use trip_patterns::Lane;

/// The same runs, in memory of their own.
pub fn copied_runs(alloc: Global, runs: &[Run]) -> Result<Vec<Run>, Memory>
    ensures { IfOk result (λ copies. copies.items ≡ runs.now) }
{
    let mut copies = Vec::with_capacity(alloc, runs.len())?;
    put_copies(alloc, runs, &mut copies)?;
    Ok(copies)
}

/// Adds the same runs, in memory of their own.
pub fn put_copies(alloc: Global, runs: &[Run], copies: &mut Vec<Run>) -> Result<(), Memory>
    ensures { OnOk result (copies.new.items ≡ copies.old.items ++ runs.now) }
{
    for run in runs {
        copies.push(copied_run(alloc, run)?)?;
    }
    Ok(())
}

fn copied_run(alloc: Global, run: &Run) -> Result<Run, Memory>
    ensures { IfOk result (λ copy. copy ≡ run.now) }
{
    run_with(alloc, &run.name, &run.calls)
}

/// A run of this name and of these calls.
fn run_with(alloc: Global, name: &RunName, calls: &List<Call>) -> Result<Run, Memory>
    ensures { IfOk result (λ run. run ≡ record { name = name.now; calls = calls.now }) }
{
    let name = name.copy(alloc)?;
    let mut copies = List::new(alloc);
    copies.extend_from_slice(calls.as_slice())?;
    Ok(Run {
        name,
        calls: copies,
    })
}

/// The runs that changes bring.
pub fn changed_runs(alloc: Global, changes: &[Change]) -> Result<Vec<Run>, Memory>
    ensures { IfOk result (λ runs. runs.items ≡ flat_map run_changed changes.now) }
{
    let mut runs = Vec::with_capacity(alloc, changes.len())?;
    for change in changes {
        put_changed(alloc, change, &mut runs)?;
    }
    Ok(runs)
}

fn put_changed(alloc: Global, change: &Change, runs: &mut Vec<Run>) -> Result<(), Memory>
    ensures { OnOk result (runs.new.items ≡ runs.old.items ++ run_changed change.now) }
{
    match &change.calls {
        None => Ok(()),
        Some(calls) => {
            runs.push(run_with(alloc, &change.name, calls)?)?;
            Ok(())
        }
    }
}

/// The run of a row.
pub fn run_at(alloc: Global, lane: &Lane, row: usize) -> Result<Run, Memory>
    requires lane { IsLane lane.now }
    requires row { row < length lane.now.runs }
    ensures { IfOk result (λ run. slice_get lane.now.runs row ≡ Some run) }
{
    let name = lane.name(row).copy(alloc)?;
    let mut calls = Vec::with_capacity(alloc, lane.positions())?;
    for position in 0..lane.positions() {
        calls.push(lane.call(row, position))?;
    }
    Ok(Run {
        name,
        calls: List::from_vec(calls),
    })
}

/// Adds the runs of the rows whose names no change has.
pub fn put_kept(
    alloc: Global,
    lanes: &[Lane],
    changes: &Changed<'_>,
    runs: &mut Vec<Run>,
) -> Result<(), Memory>
    requires { All IsLane lanes.now }
    ensures { OnOk result (runs.new.items ≡ runs.old.items ++ kept changes.now (rows_of lanes.now)) }
{
    for lane in lanes {
        put_kept_rows(alloc, lane, changes, runs)?;
    }
    Ok(())
}

fn put_kept_rows(
    alloc: Global,
    lane: &Lane,
    changes: &Changed<'_>,
    runs: &mut Vec<Run>,
) -> Result<(), Memory>
    requires { IsLane lane.now }
    ensures { OnOk result (runs.new.items ≡ runs.old.items ++ kept changes.now lane.now.runs) }
{
    for row in 0..lane.rows() {
        if changes.has(lane.name(row)) {
            continue;
        }
        runs.push(run_at(alloc, lane, row)?)?;
    }
    Ok(())
}

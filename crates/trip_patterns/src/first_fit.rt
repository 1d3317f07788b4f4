ghost use Rattle.std.specs.Prelude.{◌≡◌, ◌+◌, ◌≤◌, IfNone, IfOk, IfSome, OnOk, length, sum_by};
ghost use Rattle.std.specs.List.{All};
ghost use Rattle.trip_patterns.specs.Lanes.{IsLane, empty_lane, with_run};
ghost use Rattle.trip_patterns.specs.FirstFit.{AreLanesOf, AreOfOneBlock};
ghost use Rattle.trip_patterns.specs.Putting.{ArePutInto, FitsNone, IsFirstFit, IsPut};

use crate::builder::LaneBuilder;
use crate::lane::Lane;
use otp_base::{Memory, Steps};
use otp_model::Run;
use std::alloc::Global;
use std::sync::ledger::Ledger;

/// Puts runs of one pattern and day into lanes, each into the first that it fits. Each call that is written counts one step.
pub fn lanes_of<L: Ledger>(
    alloc: Global,
    runs: &[Run],
    steps: &mut Steps<L>,
) -> Result<Vec<Lane>, Memory>
    requires { AreOfOneBlock runs.now }
    ensures lanes { IfOk result (λ lanes. AreLanesOf runs.now lanes.items) }
    ensures put { IfOk result (λ lanes. ArePutInto runs.now lanes.items) }
    ensures counted { OnOk result (steps.new ≡ steps.old + sum_by (λ run. length run.calls) runs.now) }
    ensures most { steps.new ≤ steps.old + sum_by (λ run. length run.calls) runs.now }
{
    let mut lanes = Vec::new(alloc);
    for run in runs {
        put_run(alloc, &mut lanes, run, steps)?;
    }
    finished(alloc, lanes)
}

/// Puts a run into the first lane that it fits, or else into a new one.
fn put_run<L: Ledger>(
    alloc: Global,
    lanes: &mut Vec<LaneBuilder>,
    run: &Run,
    steps: &mut Steps<L>,
) -> Result<(), Memory>
    ensures put { OnOk result (IsPut run.now lanes.old.items lanes.new.items) }
    ensures counted { OnOk result (steps.new ≡ steps.old + length run.now.calls) }
    ensures most { steps.new ≤ steps.old + length run.now.calls }
{
    match place_of(lanes, run) {
        Some(place) => lanes[place].push_row(run, steps),
        None => {
            let lane = lane_with(alloc, run, steps)?;
            lanes.push(lane)?;
            Ok(())
        }
    }
}

/// The first of the lanes that the run fits, if there is one.
fn place_of(lanes: &[LaneBuilder], run: &Run) -> Option<usize>
    ensures some { IfSome result (IsFirstFit run.now lanes.now) }
    ensures none { IfNone result (FitsNone run.now lanes.now (length lanes.now)) }
{
    for place in 0..lanes.len() {
        if lanes[place].fits(run) {
            return Some(place);
        }
    }
    None
}

/// A lane with this run alone.
fn lane_with<L: Ledger>(
    alloc: Global,
    run: &Run,
    steps: &mut Steps<L>,
) -> Result<LaneBuilder, Memory>
    ensures lane { IfOk result (λ lane. lane ≡ with_run (empty_lane run.now) run.now) }
    ensures counted { OnOk result (steps.new ≡ steps.old + length run.now.calls) }
    ensures most { steps.new ≤ steps.old + length run.now.calls }
{
    let mut lane = LaneBuilder::new(alloc, run)?;
    lane.push_row(run, steps)?;
    Ok(lane)
}

/// The lanes of finished builders.
fn finished(alloc: Global, builders: Vec<LaneBuilder>) -> Result<Vec<Lane>, Memory>
    ensures same { IfOk result (λ lanes. lanes.items ≡ builders.items) }
    ensures each { IfOk result (λ lanes. All IsLane lanes.items) }
{
    let mut lanes = Vec::new(alloc);
    for builder in builders {
        lanes.push(builder.finish())?;
    }
    Ok(lanes)
}

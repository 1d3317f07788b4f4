ghost use Rattle.std.specs.Prelude.{◌≡◌, ◌+◌, ◌<◌, ◌≤◌, IfOk, OnOk, length, map, sum_by, take};
ghost use Rattle.std.specs.Arc.{arc_value};
ghost use Rattle.trip_patterns.specs.FirstFit.{AreOfOneBlock};
ghost use Rattle.trip_patterns.specs.Timetables.{StandsFor};
ghost use Rattle.snapshot_store.specs.Grouping.{IsBlockOf};

use crate::order::sort_by_block;
use crate::snapshot::Block;
use otp_base::{List, Memory, Steps};
use otp_model::Run;
use std::alloc::Global;
use std::sync::Arc;
use std::sync::ledger::Ledger;
use trip_patterns::{is_of_block, lanes_of};

/// Blocks of runs, one for each pattern and day. Each call that is written counts one step.
pub fn blocks_of<L: Ledger>(
    alloc: Global,
    runs: Vec<Run>,
    steps: &mut Steps<L>,
) -> Result<Vec<Arc<Block>>, Memory>
    ensures blocks { IfOk result (λ blocks. StandsFor (map arc_value blocks.items) runs.items) }
    ensures counted { OnOk result (steps.new ≡ steps.old + sum_by (λ run. length run.calls) runs.items) }
    ensures most { steps.new ≤ steps.old + sum_by (λ run. length run.calls) runs.items }
{
    let mut runs = runs;
    sort_by_block(&mut runs)?;
    blocks_in_order(alloc, &runs, steps)
}

/// Blocks of runs of which those of one pattern and day stand together.
pub fn blocks_in_order<L: Ledger>(
    alloc: Global,
    runs: &[Run],
    steps: &mut Steps<L>,
) -> Result<Vec<Arc<Block>>, Memory>
    ensures blocks { IfOk result (λ blocks. StandsFor (map arc_value blocks.items) runs.now) }
    ensures counted { OnOk result (steps.new ≡ steps.old + sum_by (λ run. length run.calls) runs.now) }
    ensures most { steps.new ≤ steps.old + sum_by (λ run. length run.calls) runs.now }
{
    let mut blocks = Vec::new(alloc);
    let mut rest = runs;
    while rest.len() > 0 {
        let (group, others) = rest.split_at(block_length(rest));
        blocks.push(block_of(alloc, group, steps)?)?;
        rest = others;
    }
    Ok(blocks)
}

/// The block of runs of one pattern and day.
fn block_of<L: Ledger>(
    alloc: Global,
    runs: &[Run],
    steps: &mut Steps<L>,
) -> Result<Arc<Block>, Memory>
    requires some { 0 < length runs.now }
    requires block { AreOfOneBlock runs.now }
    ensures block { IfOk result (λ block. IsBlockOf runs.now (arc_value block)) }
    ensures counted { OnOk result (steps.new ≡ steps.old + sum_by (λ run. length run.calls) runs.now) }
    ensures most { steps.new ≤ steps.old + sum_by (λ run. length run.calls) runs.now }
{
    let lanes = lanes_of(alloc, runs, steps)?;
    Ok(Arc::new(alloc, List::from_vec(lanes))?)
}

/// How many of the first runs are of one pattern and day.
fn block_length(runs: &[Run]) -> usize
    requires { 0 < length runs.now }
    ensures some { 0 < result }
    ensures within { result ≤ length runs.now }
    ensures block { AreOfOneBlock (take result runs.now) }
{
    let first = &runs[0];
    for count in 1..runs.len() {
        if !is_of_block(first, &runs[count]) {
            return count;
        }
    }
    runs.len()
}

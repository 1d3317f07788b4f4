ghost use Rattle.std.specs.Prelude.{◌≡◌, ◌+◌, ◌++◌, ◌≤◌, IfOk, OnOk, length, map, sum_by};
ghost use Rattle.std.specs.Arc.{arc_value};
ghost use Rattle.std.specs.List.{All, flat_map};
ghost use Rattle.std.specs.List.Sorted.{IsPermutation};
ghost use Rattle.otp_model.specs.Patterns.{run_changed, touched, with_changes};
ghost use Rattle.trip_patterns.specs.FirstFit.{rows_of};
ghost use Rattle.trip_patterns.specs.Timetables.{IsBlock, StandsFor};
ghost use Rattle.snapshot_store.specs.Changing.{AreAdded, kept, written};

use crate::changed::Changed;
use crate::grouping::blocks_in_order;
use crate::order::{count_before, count_of};
use crate::rows::{put_copies, put_kept};
use crate::snapshot::Block;
use crate::touching::is_opened;
use otp_base::{Memory, Steps};
use otp_model::Run;
use std::alloc::Global;
use std::sync::Arc;
use std::sync::ledger::Ledger;

/// The blocks after changes, of which `added` are the runs that they bring: those that no change touches are shared, and the
/// others are made anew. Where blocks and runs are in the order of blocks, each run that is of a block comes into it. Each call
/// that is written counts one step.
pub fn renewed_blocks<L: Ledger>(
    alloc: Global,
    blocks: &[Arc<Block>],
    changes: &Changed<'_>,
    added: &[Run],
    steps: &mut Steps<L>,
) -> Result<Vec<Arc<Block>>, Memory>
    requires blocks { All IsBlock (map arc_value blocks.now) }
    requires added { IsPermutation (flat_map run_changed changes.now) added.now }
    ensures stands { IfOk result (λ made. StandsFor (map arc_value made.items) (with_changes (flat_map rows_of (map arc_value blocks.now)) changes.now)) }
    ensures most { let before = flat_map rows_of (map arc_value blocks.now) in steps.new ≤ steps.old + touched before (with_changes before changes.now) changes.now }
{
    let mut made = Vec::with_capacity(alloc, blocks.len())?;
    let mut rest = added;
    for block in blocks {
        let lanes = block.as_slice();
        let (new, others) = rest.split_at(count_before(rest, lanes));
        put_blocks(alloc, new, &mut made, steps)?;
        let (own, behind) = others.split_at(count_of(others, lanes));
        renew_block(alloc, block, changes, own, &mut made, steps)?;
        rest = behind;
    }
    put_blocks(alloc, rest, &mut made, steps)?;
    Ok(made)
}

/// Adds blocks of runs of which those of one pattern and day stand together.
fn put_blocks<L: Ledger>(
    alloc: Global,
    runs: &[Run],
    made: &mut Vec<Arc<Block>>,
    steps: &mut Steps<L>,
) -> Result<(), Memory>
    ensures added { OnOk result (AreAdded runs.now (map arc_value made.old.items) (map arc_value made.new.items)) }
    ensures most { steps.new ≤ steps.old + sum_by (λ run. length run.calls) runs.now }
{
    let mut blocks = blocks_in_order(alloc, runs, steps)?;
    made.append(&mut blocks)?;
    Ok(())
}

/// Adds a block that changes leave as it is, or else the block of the runs that it keeps and of those that are put into it.
fn renew_block<L: Ledger>(
    alloc: Global,
    block: &Arc<Block>,
    changes: &Changed<'_>,
    own: &[Run],
    made: &mut Vec<Arc<Block>>,
    steps: &mut Steps<L>,
) -> Result<(), Memory>
    requires { IsBlock (arc_value block.now) }
    ensures added { OnOk result (AreAdded (kept changes.now (rows_of (arc_value block.now)) ++ own.now) (map arc_value made.old.items) (map arc_value made.new.items)) }
    ensures most { steps.new ≤ steps.old + written changes.now own.now (arc_value block.now) }
{
    let lanes = block.as_slice();
    if !is_opened(changes, own, lanes) {
        made.push(Arc::try_clone(block)?)?;
        return Ok(());
    }
    let mut runs = Vec::new(alloc);
    put_kept(alloc, lanes, changes, &mut runs)?;
    put_copies(alloc, own, &mut runs)?;
    put_blocks(alloc, &runs, made, steps)
}

ghost use Rattle.std.specs.Prelude.{◌≡◌, OnOk, map};
ghost use Rattle.std.specs.Arc.{arc_value};
ghost use Rattle.std.specs.List.{prefix_len};
ghost use Rattle.std.specs.List.Sorted.{IsPermutation};
ghost use Rattle.otp_model.specs.Patterns.{Spot as SpotOf, spot_of};
ghost use Rattle.trip_patterns.specs.Lanes.{empty_lane};
ghost use Rattle.snapshot_store.specs.Order.{AreByBlock, AreInOrder, block_cmp, block_lane, is_before, is_of_lanes, lane_cmp, pattern_cmp, spot_number as number_of};
ghost use Rattle.snapshot_store.specs.Places.{block_pattern};

use crate::snapshot::Block;
use otp_base::Memory;
use otp_model::{Call, DayNo, Run};
use std::cmp::Ordering;
use std::sync::Arc;
use trip_patterns::{Lane, Spot};

/// Sorts runs by day and then by pattern.
pub fn sort_by_block(runs: &mut Vec<Run>) -> Result<(), Memory>
    ensures moved { IsPermutation runs.old.items runs.new.items }
    ensures sorted { OnOk result (AreByBlock runs.new.items) }
{
    runs.sort_by(compare_runs)?;
    Ok(())
}

/// Sorts blocks by day and then by pattern.
pub fn sort_blocks(blocks: &mut Vec<Arc<Block>>) -> Result<(), Memory>
    ensures moved { IsPermutation (map arc_value blocks.old.items) (map arc_value blocks.new.items) }
    ensures sorted { OnOk result (AreInOrder (map arc_value blocks.new.items)) }
{
    blocks.sort_by(compare_blocks)?;
    Ok(())
}

/// How many of the first runs stand before the block of these lanes.
pub fn count_before(runs: &[Run], lanes: &[Lane]) -> usize
    ensures { result ≡ prefix_len (is_before lanes.now) runs.now }
{
    for count in 0..runs.len() {
        if !compare_with_block(&runs[count], lanes).is_lt() {
            return count;
        }
    }
    runs.len()
}

/// How many of the first runs are of the block of these lanes.
pub fn count_of(runs: &[Run], lanes: &[Lane]) -> usize
    ensures { result ≡ prefix_len (is_of_lanes lanes.now) runs.now }
{
    for count in 0..runs.len() {
        if !compare_with_block(&runs[count], lanes).is_eq() {
            return count;
        }
    }
    runs.len()
}

/// How a run stands beside the block of these lanes: behind one without lanes.
fn compare_with_block(run: &Run, lanes: &[Lane]) -> Ordering
    ensures { result ≡ block_cmp run.now lanes.now }
{
    match lanes {
        [] => Ordering::Greater,
        [lane, ..] => compare_with_lane(run, lane),
    }
}

fn compare_runs(run: &Run, other: &Run) -> Ordering
    ensures { result ≡ lane_cmp (empty_lane run.now) (empty_lane other.now) }
{
    match run.name.day.cmp(&other.name.day) {
        Ordering::Equal => compare_patterns(run.calls.as_slice(), other.calls.as_slice()),
        order => order,
    }
}

fn compare_with_lane(run: &Run, lane: &Lane) -> Ordering
    ensures { result ≡ lane_cmp (empty_lane run.now) lane.now }
{
    match run.name.day.cmp(&lane.day()) {
        Ordering::Equal => compare_patterns(run.calls.as_slice(), lane.pattern()),
        order => order,
    }
}

fn compare_blocks(block: &Arc<Block>, other: &Arc<Block>) -> Ordering
    ensures { result ≡ lane_cmp (block_lane (arc_value block.now)) (block_lane (arc_value other.now)) }
{
    match day_of(block).cmp(&day_of(other)) {
        Ordering::Equal => compare_patterns(pattern_of(block), pattern_of(other)),
        order => order,
    }
}

/// The day of a block, or 0 of one without lanes.
fn day_of(block: &Arc<Block>) -> DayNo
    ensures { result ≡ (block_lane (arc_value block.now)).day }
{
    match block.as_slice() {
        [] => 0,
        [lane, ..] => lane.day(),
    }
}

/// The pattern of a block, or none of one without lanes.
pub fn pattern_of(block: &Arc<Block>) -> &[Spot]
    ensures { result.now ≡ block_pattern (arc_value block.now) }
{
    match block.as_slice() {
        [] => &[],
        [lane, ..] => lane.pattern(),
    }
}

/// What stands at a place of a pattern.
trait AtSpot {
    ghost spot_in: { Self → SpotOf };

    fn spot(&self) -> Spot
        ensures { result ≡ spot_in self.now };
}

impl AtSpot for Call {
    ghost spot_in = { spot_of };

    fn spot(&self) -> Spot {
        Spot::of(self)
    }
}

impl AtSpot for Spot {
    ghost spot_in = { λ spot. spot };

    fn spot(&self) -> Spot {
        *self
    }
}

fn compare_patterns<A: AtSpot, B: AtSpot>(pattern: &[A], other: &[B]) -> Ordering
    ensures { result ≡ pattern_cmp (map A.spot_in pattern.now) (map B.spot_in other.now) }
{
    let Some((first, later)) = pattern.split_first() else {
        return 0.cmp(&other.len());
    };
    let Some((other, others)) = other.split_first() else {
        return Ordering::Greater;
    };
    match spot_number(&first.spot()).cmp(&spot_number(&other.spot())) {
        Ordering::Equal => compare_patterns(later, others),
        order => order,
    }
}

/// A number that tells a spot from all others.
pub fn spot_number(spot: &Spot) -> u64
    ensures { result ≡ number_of spot.now }
{
    4 * u64::from(spot.stop()) + 2 * u64::from(spot.may_board()) + u64::from(spot.may_alight())
}

ghost use Rattle.std.specs.Prelude.{◌≡◌, ◌+◌, ◌≤◌, ◌<◌, ℕ, IsTrue, false, length, slice_index_or};
ghost use Rattle.std.specs.Bool.{MatchBool};
ghost use Rattle.std.specs.List.{All};
ghost use Rattle.lane_kernels.specs.Columns.{IsCoordinate, IsReach, is_in_reach, is_within, AreMarked, IsEachMarked};
ghost use Rattle.lane_kernels.specs.Lanes.{is_between, marks, SomeWithin, NoneWithin};

use crate::lanes::{GROUP, above, any, at_most, both, either, pair};
use crate::plain;
use std::simd::prelude::*;

// How many points are told to be far away together.
const BLOCK: usize = 64;

/// Marks in `out` each point that is at most `reach` from (`x`, `y`): exactly where the squares of the two differences add up to
/// at most the square of `reach`. The three slices have one length, each coordinate is from -2^40 to 2^40, and `reach` is from 0
/// to 5,000,000.
pub fn within(xs: &[i64], ys: &[i64], x: i64, y: i64, reach: i64, out: &mut [bool])
    requires lengths { (length xs.now ≡ length ys.now) × (length xs.now ≡ length out.old) }
    requires coordinates { All IsCoordinate xs.now × All IsCoordinate ys.now × IsCoordinate x × IsCoordinate y }
    requires reachable { IsReach reach }
    ensures { IsEachMarked xs.now ys.now x y reach out.new }
{
    let mut at = 0;
    while xs.len() - at >= BLOCK {
        mark_block(xs, ys, x, y, reach, at, out);
        at += BLOCK;
    }
    plain::mark(xs, ys, x, y, reach, at, xs.len(), out);
}

// Most blocks are far away, and lanes tell so; the others are tested point by point.
fn mark_block(xs: &[i64], ys: &[i64], x: i64, y: i64, reach: i64, at: usize, out: &mut [bool])
    requires lengths { (length xs.now ≡ length ys.now) × (length xs.now ≡ length out.old) × (at + 64 ≤ length xs.now) }
    requires coordinates { All IsCoordinate xs.now × All IsCoordinate ys.now × IsCoordinate x × IsCoordinate y }
    requires reachable { IsReach reach }
    ensures marked { AreMarked xs.now ys.now x y reach at (at + 64) out.new }
    ensures kept { (k : ℕ) → k < at → slice_index_or out.new k false ≡ slice_index_or out.old k false }
{
    if is_far(xs, ys, x, y, reach, at) {
        mark_none(out, at);
        return;
    }
    mark_near(xs, ys, x, y, reach, at, at + BLOCK, out);
}

// Whether the strips round x and y rule the whole block at `at` out. No answer of `false` says that a point is within reach.
fn is_far(xs: &[i64], ys: &[i64], x: i64, y: i64, reach: i64, at: usize) -> bool
    requires lengths { (length xs.now ≡ length ys.now) × (at + 64 ≤ length xs.now) }
    requires coordinates { IsCoordinate x × IsCoordinate y }
    requires reachable { IsReach reach }
    ensures { IsTrue result → (k : ℕ) → at ≤ k → k < at + 64 → is_within xs.now ys.now x y reach k ≡ false }
{
    if any_in_block(xs, at, x - reach - 1, x + reach) {
        return !any_in_block(ys, at, y - reach - 1, y + reach);
    }
    true
}

// No answer of `true` says more than that some entry of the block at `at` may be above `low` and at most `high`.
fn any_in_block(column: &[i64], at: usize, low: i64, high: i64) -> bool
    requires { at + 64 ≤ length column.now }
    ensures { result ≡ false → NoneWithin (is_between column.now low high) at (at + 64) }
{
    for group in 0..BLOCK / GROUP {
        if any_between(column, at + GROUP * group, low, high) {
            return true;
        }
    }
    false
}

// Whether an entry of the group at `at` is above `low` and at most `high`.
fn any_between(column: &[i64], at: usize, low: i64, high: i64) -> bool
    requires { at + 8 ≤ length column.now }
    ensures { MatchBool result (SomeWithin (is_between column.now low high) at (at + 8)) (NoneWithin (is_between column.now low high) at (at + 8)) }
{
    let front = either(
        between(column, at, low, high),
        between(column, at + 2, low, high),
    );
    let back = either(
        between(column, at + 4, low, high),
        between(column, at + 6, low, high),
    );
    any(either(front, back))
}

fn between(column: &[i64], at: usize, low: i64, high: i64) -> mask64x2
    requires { at + 2 ≤ length column.now }
    ensures { result ≡ marks (λ i. is_between column.now low high (at + i)) 2 }
{
    let vector = pair(column, at);
    both(above(vector, low), at_most(vector, high))
}

fn mark_none(out: &mut [bool], at: usize)
    requires { at + 64 ≤ length out.old }
    ensures marked { (k : ℕ) → at ≤ k → k < at + 64 → slice_index_or out.new k false ≡ false }
    ensures kept { (k : ℕ) → k < at → slice_index_or out.new k false ≡ slice_index_or out.old k false }
{
    for lane in 0..BLOCK {
        out[at + lane] = false;
    }
}

// As `plain::mark`, by a test with no branch, so that the compiler takes several points at a time.
fn mark_near(
    xs: &[i64],
    ys: &[i64],
    x: i64,
    y: i64,
    reach: i64,
    from: usize,
    to: usize,
    out: &mut [bool],
)
    requires lengths { (length xs.now ≡ length ys.now) × (length xs.now ≡ length out.old) × (from ≤ to) × (to ≤ length xs.now) }
    requires coordinates { All IsCoordinate xs.now × All IsCoordinate ys.now × IsCoordinate x × IsCoordinate y }
    requires reachable { IsReach reach }
    ensures marked { AreMarked xs.now ys.now x y reach from to out.new }
    ensures kept { (k : ℕ) → k < from → slice_index_or out.new k false ≡ slice_index_or out.old k false }
{
    for place in from..to {
        out[place] = is_near(xs[place] - x, ys[place] - y, reach);
    }
}

// A difference past the greatest reach is as far as one just past it, whose square fits 64 bits.
fn is_near(dx: i64, dy: i64, reach: i64) -> bool
    requires { IsReach reach }
    ensures { result ≡ is_in_reach dx dy reach }
{
    let (across, along, radius) = (
        dx.unsigned_abs().min(5_000_001),
        dy.unsigned_abs().min(5_000_001),
        reach.unsigned_abs(),
    );
    across * across + along * along <= radius * radius
}

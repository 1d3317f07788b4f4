ghost use Rattle.std.specs.Prelude.{◌≡◌, ◌≤◌, ◌<◌, ◌+◌, IsTrue, Some, length, slice_get};
ghost use Rattle.end_bounds.specs.Scans.{AreStopsBelow, IsKeptOutside, IsLowered, IsReadyFor, IsScannedFrom, IsUnchanged, far, number_at as number_of};

use crate::far::{FAR, number_at, plus};
use trip_patterns::{Shape, Spot};

/// Lowers what is left from being ready at a spot's stop, where it may be boarded.
pub fn lower(ready: &mut Vec<u32>, spot: &Spot, bound: u32)
    requires { spot.now.stop < length ready.old.items }
    ensures size { length ready.new.items ≡ length ready.old.items }
    ensures lowered { IsLowered ready.old.items ready.new.items }
    ensures boards { IsReadyFor ready.new.items spot.now bound }
{
    let stop = spot.stop() as usize;
    if spot.may_board() && bound < ready[stop] {
        ready[stop] = bound;
    }
}

/// What is left from the arrival at a spot: alighting there, or the dwell and riding on.
fn left_at(now: &[u32], spot: &Spot, dwell: u32, onward: u32) -> u32
    ensures within { onward < far → result < far }
    ensures most { result ≤ onward + dwell }
    ensures alight { IsTrue spot.now.alight → result ≤ number_of now.now spot.now.stop }
{
    let staying = plus(onward, dwell);
    if !spot.may_alight() {
        return staying;
    }
    staying.min(number_at(now, spot.stop() as usize))
}

/// Goes through the positions of a shape from the last to the first.
fn scan_shape(shape: &Shape, base: usize, now: &[u32], ready: &mut Vec<u32>, place: &mut Vec<u32>)
    requires stops { AreStopsBelow (length ready.old.items) shape.now }
    requires places { base + length shape.now.pattern ≤ length place.old.items }
    ensures size { length place.new.items ≡ length place.old.items }
    ensures ready_size { length ready.new.items ≡ length ready.old.items }
    ensures lowered { IsLowered ready.old.items ready.new.items }
    ensures kept { IsKeptOutside base (length shape.now.pattern) place.old.items place.new.items }
    ensures scanned { IsScannedFrom now.now shape.now base 0 ready.new.items place.new.items }
{
    let mut best = FAR;
    let mut position = shape.positions();
    while position > 0 {
        position -= 1;
        let spot = shape.spot(position);
        let onward = plus(best, shape.hop(position));
        place[base + position] = onward;
        lower(ready, &spot, onward);
        best = left_at(now, &spot, shape.dwell(position), onward);
    }
}

/// Whether the numbers of all stops of the shape are what they were.
pub fn is_unchanged(shape: &Shape, before: &[u32], now: &[u32]) -> bool
    ensures { IsTrue result → IsUnchanged before.now now.now shape.now }
{
    for position in 0..shape.positions() {
        let stop = shape.stop(position) as usize;
        if number_at(before, stop) != number_at(now, stop) {
            return false;
        }
    }
    true
}

/// Goes through a shape's positions, unless the numbers of its stops are what they were.
pub fn rescan_shape(
    shape: &Shape,
    base: usize,
    before: &[u32],
    now: &[u32],
    ready: &mut Vec<u32>,
    place: &mut Vec<u32>,
)
    requires stops { AreStopsBelow (length ready.old.items) shape.now }
    requires places { base + length shape.now.pattern ≤ length place.old.items }
    requires scanned { IsScannedFrom before.now shape.now base 0 ready.old.items place.old.items }
    ensures size { length place.new.items ≡ length place.old.items }
    ensures ready_size { length ready.new.items ≡ length ready.old.items }
    ensures lowered { IsLowered ready.old.items ready.new.items }
    ensures kept { IsKeptOutside base (length shape.now.pattern) place.old.items place.new.items }
    ensures scanned { IsScannedFrom now.now shape.now base 0 ready.new.items place.new.items }
{
    if is_unchanged(shape, before, now) {
        return;
    }
    scan_shape(shape, base, now, ready, place);
}

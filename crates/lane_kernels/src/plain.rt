//! The kernels one entry at a time, by the same contracts: what tests and measures compare the lane-wise bodies with.
ghost use Rattle.std.specs.Prelude.{◌≡◌, ◌≤◌, ◌<◌, ◌↔◌, ℕ, IsTrue, length, slice_index_or, false};
ghost use Rattle.std.specs.List.{All};
ghost use Rattle.lane_kernels.specs.Columns.{IsFirstAtLeast, SomeCovers, IsCoordinate, IsReach, is_in_reach, AreMarked, IsEachMarked};

/// As `first_at_least` of the crate, one entry at a time.
pub fn first_at_least(column: &[i64], t: i64) -> usize
    ensures { IsFirstAtLeast column.now t result }
{
    for place in 0..column.len() {
        if column[place] >= t {
            return place;
        }
    }
    column.len()
}

/// As `any_covers` of the crate, one entry at a time.
pub fn any_covers(times: &[i64], pens: &[i64], t: i64, p: i64) -> bool
    requires { length times.now ≡ length pens.now }
    ensures { IsTrue result ↔ SomeCovers times.now pens.now t p }
{
    for place in 0..times.len() {
        if times[place] <= t && pens[place] <= p {
            return true;
        }
    }
    false
}

/// As `within` of the crate, one point at a time.
pub fn within(xs: &[i64], ys: &[i64], x: i64, y: i64, reach: i64, out: &mut [bool])
    requires lengths { (length xs.now ≡ length ys.now) × (length xs.now ≡ length out.old) }
    requires coordinates { All IsCoordinate xs.now × All IsCoordinate ys.now × IsCoordinate x × IsCoordinate y }
    requires reachable { IsReach reach }
    ensures { IsEachMarked xs.now ys.now x y reach out.new }
{
    mark(xs, ys, x, y, reach, 0, xs.len(), out)
}

// Marks the points from `from` on.
pub(crate) fn mark(
    xs: &[i64],
    ys: &[i64],
    x: i64,
    y: i64,
    reach: i64,
    from: usize,
    to: usize,
    out: &mut [bool],
)
    requires lengths { (length xs.now ≡ length ys.now) × (length xs.now ≡ length out.old) × (from ≤ to) × (to ≤ length xs.now) }
    requires coordinates { All IsCoordinate xs.now × All IsCoordinate ys.now × IsCoordinate x × IsCoordinate y }
    requires reachable { IsReach reach }
    ensures marked { AreMarked xs.now ys.now x y reach from to out.new }
    ensures kept { (k : ℕ) → k < from → slice_index_or out.new k false ≡ slice_index_or out.old k false }
{
    for place in from..to {
        out[place] = is_near(xs[place] - x, ys[place] - y, reach);
    }
}

// The squares are taken only where both differences are at most `reach`, so that they fit.
fn is_near(dx: i64, dy: i64, reach: i64) -> bool
    requires { IsReach reach }
    ensures { result ≡ is_in_reach dx dy reach }
{
    let (across, along, radius) = (dx.unsigned_abs(), dy.unsigned_abs(), reach.unsigned_abs());
    if radius < across {
        return false;
    }
    if radius < along {
        return false;
    }
    across * across + along * along <= radius * radius
}

ghost use Rattle.std.specs.Prelude.{◌≡◌, ◌≤◌, ◌<◌, ◌+◌, IfOk, IfSome, length, slice_get};
ghost use Rattle.end_bounds.specs.Levels.{AreAllStopsBelow, AreEdgeBounds, AreLaid, AreRenewed, AreScanned, IsEdgeBound};
ghost use Rattle.end_bounds.specs.Scans.{number_at as number_of};
ghost use Rattle.std.specs.List.{All};

use crate::far::{number_at, plus};
use crate::scan::rescan_shape;
use otp_base::{List, Memory};
use otp_model::Edge;
use std::alloc::Global;
use trip_patterns::Timetable;

/// Goes through the shapes of which the number of a stop has changed; the others keep their places.
pub fn rescan<T: Timetable>(
    timetable: &T,
    bases: &[usize],
    before: &[u32],
    now: &[u32],
    ready: &mut Vec<u32>,
    place: &mut Vec<u32>,
)
    requires stops { AreAllStopsBelow (length ready.old.items) (T.shapes timetable.now) }
    requires laid { AreLaid (T.shapes timetable.now) (length (T.shapes timetable.now)) bases.now (length place.old.items) }
    requires scanned { AreScanned before.now (T.shapes timetable.now) bases.now (length (T.shapes timetable.now)) ready.old.items place.old.items }
    ensures { AreRenewed now.now (T.shapes timetable.now) bases.now (length (T.shapes timetable.now)) ready.old.items ready.new.items place.old.items place.new.items }
{
    for n in 0..timetable.shape_count() {
        rescan_shape(timetable.shape(n), bases[n], before, now, ready, place);
    }
}

/// The seconds from a stop with a ride more: those without it, or along an edge and on.
fn pulled(edges: &[Edge], slack: u32, ready: &[u32], known: u32) -> u32
    ensures { All (IsEdgeBound slack ready.now result) edges.now }
{
    let mut least = known;
    for edge in edges {
        let wait = edge.walk.saturating_add(slack).max(edge.minimum);
        least = least.min(plus(number_at(ready, edge.to as usize), wait));
    }
    least
}

/// The same for the edges of a stop.
fn pulled_at(from: &[List<Edge>], stop: usize, slack: u32, ready: &[u32], known: u32) -> u32
    ensures { IfSome (slice_get from.now stop) (λ row. All (IsEdgeBound slack ready.now result) row) }
{
    match from.get(stop) {
        None => known,
        Some(edges) => pulled(edges.as_slice(), slack, ready, known),
    }
}

/// The seconds from each stop with a ride more.
pub fn pull_all(
    alloc: Global,
    from: &[List<Edge>],
    slack: u32,
    ready: &[u32],
    now: &[u32],
) -> Result<Vec<u32>, Memory>
    ensures size { IfOk result (λ next. length next.items ≡ length now.now) }
    ensures edges { IfOk result (λ next. AreEdgeBounds from.now slack (length now.now) ready.now next.items) }
{
    let mut next = Vec::with_capacity(alloc, now.len())?;
    for stop in 0..now.len() {
        next.push(pulled_at(from, stop, slack, ready, now[stop]))?;
    }
    Ok(next)
}

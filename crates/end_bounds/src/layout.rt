ghost use Rattle.std.specs.Prelude.{◌≡◌, ◌≤◌, ◌+◌, IfOk, length};
ghost use Rattle.end_bounds.specs.Levels.{AreAllStopsBelow, AreLaid, AreStarts};
ghost use Rattle.end_bounds.specs.Scans.{AreStopsBelow};

use otp_base::Memory;
use otp_model::Edges;
use std::alloc::Global;
use trip_patterns::{Shape, Timetable};

/// A number of stops, at least `count`, below which the shape's stops are.
fn stops_of(shape: &Shape, count: usize) -> usize
    ensures most { count ≤ result }
    ensures below { AreStopsBelow result shape.now }
{
    let mut stops: usize = count;
    for position in 0..shape.positions() {
        stops = stops.max(shape.stop(position) as usize + 1);
    }
    stops
}

/// A number of stops below which all stops are.
pub fn stop_count<T: Timetable>(timetable: &T, edges: &Edges) -> usize
    ensures stops { length edges.now.stops ≤ result }
    ensures from { length edges.now.from ≤ result }
    ensures shapes { AreAllStopsBelow result (T.shapes timetable.now) }
{
    let mut count: usize = edges.stops.len().max(edges.from.len());
    for n in 0..timetable.shape_count() {
        count = stops_of(timetable.shape(n), count);
    }
    count
}

/// Where the places of each shape stand, and how many places there are.
#[derive(Debug, Drop)]
pub struct Layout {
    pub bases: Vec<usize>,
    pub places: usize,
}

/// The first place after those of a shape. More places than can be counted are want of memory.
fn after(place: usize, shape: &Shape) -> Result<usize, Memory>
    ensures { IfOk result (λ next. next ≡ place + length shape.now.pattern) }
{
    let next = place.checked_add(shape.positions()).ok_or(Memory)?;
    Ok(next)
}

/// Lays the positions of shapes one after another.
pub fn lay<T: Timetable>(alloc: Global, timetable: &T) -> Result<Layout, Memory>
    ensures { IfOk result (λ layout. AreLaid (T.shapes timetable.now) (length (T.shapes timetable.now)) layout.bases.items layout.places) }
{
    let mut bases = Vec::with_capacity(alloc, timetable.shape_count())?;
    let mut places: usize = 0;
    for n in 0..timetable.shape_count() {
        bases.push(places)?;
        places = after(places, timetable.shape(n))?;
    }
    Ok(Layout { bases, places })
}

/// Where the places of each block stand.
pub fn starts_of<T: Timetable>(
    alloc: Global,
    timetable: &T,
    bases: &[usize],
) -> Result<Vec<usize>, Memory>
    requires { length bases.now ≡ length (T.shapes timetable.now) }
    ensures { IfOk result (λ starts. AreStarts (T.shape_at timetable.now) bases.now (length (T.blocks timetable.now)) starts.items) }
{
    let count = timetable.block_count();
    let mut starts = Vec::with_capacity(alloc, count)?;
    for block in 0..count {
        starts.push(bases[timetable.shape_of(block)])?;
    }
    Ok(starts)
}

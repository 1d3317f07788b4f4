ghost use Rattle.std.specs.Prelude.{◌≡◌, IfOk};
ghost use Rattle.otp_model.specs.Ranges.{IsRequestInRange};
ghost use Rattle.walk_table.specs.Reaches.{AreReached};
ghost use Rattle.end_bounds.specs.Bounds.{AreBounds, CoverBoardings};
ghost use Rattle.end_bounds.specs.Found.{IsRowOf, bounds_of, place_row as row_at, rides_of};

use crate::exits::from_exits;
use crate::layout::{lay, starts_of, stop_count};
use crate::points::{Points, Rates, least_points};
use crate::seconds::{Seconds, least_seconds};
use crate::table::{row, row_behind};
use otp_base::Memory;
use otp_model::{Edges, Request, StopNo};
use std::alloc::Global;
use trip_patterns::Timetable;
use walk_table::Reach;

/// The least seconds and points to a destination, by the number of rides more. Each reader gives a row: its number at j is
/// that for j rides more, and nothing is reached by as many rides as the row has numbers, or more.
#[derive(Debug, Drop)]
pub struct EndBounds {
    rides: usize,
    seconds: Seconds,
    points: Points,
    starts: Vec<usize>,
}

impl EndBounds {
    /// For how many rides they are.
    pub fn rides(&self) -> usize
        ensures { result ≡ rides_of self.now }
    {
        self.rides
    }

    /// The seconds from having alighted at a stop, `FAR` where the destination isn't reached.
    pub fn alight(&self, stop: StopNo) -> &[u32]
        ensures { IsRowOf ((bounds_of self.now).alight stop) result.now }
    {
        row(&self.seconds.alight, self.rides, stop as usize)
    }

    /// The points beyond 100 a second from having alighted at a stop.
    pub fn alight_points(&self, stop: StopNo) -> &[u32]
        ensures { IsRowOf ((bounds_of self.now).alight_points stop) result.now }
    {
        row(&self.points.alight, self.rides, stop as usize)
    }

    /// The seconds from being ready at a stop for a ride, which is none of those more; `FAR` where the destination isn't
    /// reached.
    pub fn ready(&self, stop: StopNo) -> &[u32]
        ensures { IsRowOf ((bounds_of self.now).ready stop) result.now }
    {
        row(
            &self.seconds.ready,
            self.rides.saturating_sub(1),
            stop as usize,
        )
    }

    /// The points beyond 100 a second from being ready at a stop for a ride, which is none of those more.
    pub fn ready_points(&self, stop: StopNo) -> &[u32]
        ensures { IsRowOf ((bounds_of self.now).ready_points stop) result.now }
    {
        row(
            &self.points.ready,
            self.rides.saturating_sub(1),
            stop as usize,
        )
    }

    /// The seconds from the departure of a block's run at a position, riding on; `FAR` where the destination isn't reached.
    pub fn place(&self, block: usize, position: usize) -> &[u32]
        ensures { IsRowOf ((bounds_of self.now).place block position) result.now }
    {
        place_row(
            &self.seconds.place,
            self.rides.saturating_sub(1),
            &self.starts,
            block,
            position,
        )
    }
}

/// The row of a block's position.
fn place_row<'a>(
    place: &'a [u32],
    columns: usize,
    starts: &[usize],
    block: usize,
    position: usize,
) -> &'a [u32]
    ensures { result.now ≡ row_at columns place.now starts.now block position }
{
    match starts.get(block) {
        None => &[],
        Some(start) => row_behind(place, columns, *start, position),
    }
}

/// The bounds of a request over a timetable. `egress` are the stops from which the destination is reached on foot.
pub fn end_bounds<T: Timetable>(
    alloc: Global,
    timetable: &T,
    edges: &Edges,
    request: &Request,
    egress: &[Reach],
) -> Result<EndBounds, Memory>
    requires numbers { IsRequestInRange request.now }
    requires egress { AreReached edges.now request.now.to egress.now }
    ensures rides { IfOk result (λ found. rides_of found ≡ request.now.rides) }
    ensures bounds { IfOk result (λ found. AreBounds (T.blocks timetable.now) edges.now request.now (bounds_of found)) }
    ensures boardings { IfOk result (λ found. CoverBoardings request.now (bounds_of found)) }
{
    let rides = request.rides as usize;
    let rates = Rates {
        walk: request.walk_points - 100,
        board: request.board_points,
    };
    let stops = stop_count(timetable, edges);
    let layout = lay(alloc, timetable)?;
    let starts = starts_of(alloc, timetable, &layout.bases)?;
    let exits = from_exits(alloc, stops, egress, 1)?;
    let seconds = least_seconds(
        alloc,
        timetable,
        edges,
        request.slack,
        &layout,
        rides,
        exits,
    )?;
    let exits = from_exits(alloc, stops, egress, rates.walk)?;
    let points = least_points(alloc, timetable, edges, &rates, rides, exits)?;
    Ok(EndBounds {
        rides,
        seconds,
        points,
        starts,
    })
}

ghost use Rattle.std.specs.Prelude.{◌≡◌, ◌≤◌, ◌-◌, IfOk, length};
ghost use Rattle.end_bounds.specs.Levels.{AreAllStopsBelow, AreLaid, AreLevels};

use crate::layout::Layout;
use crate::level::{pull_all, rescan};
use crate::table::{blank, write_column};
use otp_base::Memory;
use otp_model::Edges;
use std::alloc::Global;
use trip_patterns::Timetable;

/// Tables of seconds by the number of rides more: a row for each stop, alighted there and ready there for a ride, and for each
/// place, departing there.
#[derive(Debug, Drop)]
pub struct Seconds {
    pub alight: Vec<u32>,
    pub ready: Vec<u32>,
    pub place: Vec<u32>,
}

/// The seconds for up to so many rides less one, from those without a ride.
pub fn least_seconds<T: Timetable>(
    alloc: Global,
    timetable: &T,
    edges: &Edges,
    slack: u32,
    layout: &Layout,
    rides: usize,
    first: Vec<u32>,
) -> Result<Seconds, Memory>
    requires some { 1 ≤ rides }
    requires stops { AreAllStopsBelow (length first.items) (T.shapes timetable.now) }
    requires laid { AreLaid (T.shapes timetable.now) (length (T.shapes timetable.now)) layout.now.bases.items layout.now.places }
    ensures { IfOk result (λ tables. AreLevels edges.now.from slack (length first.items) (T.shapes timetable.now) layout.now.bases.items rides first.items (rides - 1) tables.alight.items tables.ready.items tables.place.items) }
{
    let stops = first.len();
    let mut alight = blank(alloc, stops, rides)?;
    let mut ready = blank(alloc, stops, rides - 1)?;
    let mut place = blank(alloc, layout.places, rides - 1)?;
    let mut readies = blank(alloc, stops, 1)?;
    let mut places = blank(alloc, layout.places, 1)?;
    let mut before = blank(alloc, stops, 1)?;
    let mut now = first;
    write_column(&mut alight, rides, 0, &now);
    for more in 0..rides - 1 {
        rescan(
            timetable,
            &layout.bases,
            &before,
            &now,
            &mut readies,
            &mut places,
        );
        let next = pull_all(alloc, edges.from.as_slice(), slack, &readies, &now)?;
        write_column(&mut ready, rides - 1, more, &readies);
        write_column(&mut place, rides - 1, more, &places);
        write_column(&mut alight, rides, more + 1, &next);
        before = now;
        now = next;
    }
    Ok(Seconds {
        alight,
        ready,
        place,
    })
}

ghost use Rattle.std.specs.Prelude.{◌≡◌, ◌<◌, ◌≤◌, ◌^◌, IfOk, map, length};
ghost use Rattle.std.specs.List.{All};
ghost use Rattle.otp_model.specs.Limits.{most_scale};
ghost use Rattle.otp_model.specs.Rows.{IsStopRow};
ghost use Rattle.gtfs_links.specs.Linked.{number_if, stop_at};

use name_index::Names;
use otp_base::{Copied, List, Memory, Text};
use otp_model::{Point, Stop, StopNo, StopRow};
use std::alloc::Global;

/// The number of the stop that a field names, if it names one.
pub fn number_if(stops: &Names, id: &Text) -> Option<StopNo>
    requires { length stops.now < 2 ^ 32 }
    ensures { result ≡ number_if stops.now id.now }
{
    let id = id.as_str();
    if id.len() == 0 {
        return None;
    }
    Some(stops.place(id) as StopNo)
}

/// The rows of `stops.txt`, with their places in the plane and their parents by number.
pub fn linked_stops(
    alloc: Global,
    scale: u32,
    stops: &Names,
    rows: &[StopRow],
) -> Result<List<Stop>, Memory>
    requires scale { scale ≤ most_scale }
    requires few { length stops.now < 2 ^ 32 }
    requires rows { All IsStopRow rows.now }
    ensures { IfOk result (λ linked. linked ≡ map (stop_at scale stops.now) rows.now) }
{
    let mut linked = List::new(alloc);
    for row in rows {
        let stop = linked_stop(alloc, scale, stops, row)?;
        linked.push(stop)?;
    }
    Ok(linked)
}

fn linked_stop(alloc: Global, scale: u32, stops: &Names, row: &StopRow) -> Result<Stop, Memory>
    requires scale { scale ≤ most_scale }
    requires few { length stops.now < 2 ^ 32 }
    requires row { IsStopRow row.now }
    ensures { IfOk result (λ stop. stop ≡ stop_at scale stops.now row.now) }
{
    let id = row.stop_id.copy(alloc)?;
    let name = row.stop_name.copy(alloc)?;
    let point = Point::at_degrees(scale, row.stop_lat, row.stop_lon);
    Ok(Stop {
        id,
        name,
        x: point.x,
        y: point.y,
        kind: row.location_type as u8,
        parent: number_if(stops, &row.parent_station),
    })
}

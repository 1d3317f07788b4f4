ghost use Rattle.std.specs.Prelude.{◌≡◌, IfOk};

use otp_base::{Copied, List, Memory};
use otp_model::Stop;
use std::alloc::Global;

/// The same stops.
pub fn copied_stops(alloc: Global, stops: &[Stop]) -> Result<List<Stop>, Memory>
    ensures { IfOk result (λ list. list ≡ stops.now) }
{
    let mut list = List::new(alloc);
    for stop in stops {
        list.push(copied_stop(alloc, stop)?)?;
    }
    Ok(list)
}

fn copied_stop(alloc: Global, stop: &Stop) -> Result<Stop, Memory>
    ensures { IfOk result (λ copy. copy ≡ stop.now) }
{
    Ok(Stop {
        id: stop.id.copy(alloc)?,
        name: stop.name.copy(alloc)?,
        x: stop.x,
        y: stop.y,
        kind: stop.kind,
        parent: stop.parent,
    })
}

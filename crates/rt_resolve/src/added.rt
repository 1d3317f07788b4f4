ghost use Rattle.std.specs.Prelude.{◌≡◌, ◌<◌, ◌^◌, IfOk, length};
ghost use Rattle.std.specs.Option.{option_map};
ghost use Rattle.otp_model.specs.Moves.{event_time, first_of, given_call, given_from, is_served, raised};

use crate::course::Course;
use crate::lookup::Lookup;
use otp_base::{List, Memory};
use otp_model::{Call, Event, StopUpdate, Time};
use std::alloc::Global;

const SCHEDULED: u64 = 0;

const SKIPPED: u64 = 1;

/// Whether an update of this relation gives a call that may be boarded and alighted at.
fn is_served(relation: u64) -> Option<bool>
    ensures { result ≡ is_served relation }
{
    match relation {
        SCHEDULED => Some(true),
        SKIPPED => Some(false),
        _ => None,
    }
}

/// The time of an event, or else that of another.
fn time_of(event: Option<Event>, other: Option<Event>) -> Option<Time>
    ensures { result ≡ first_of (event_time event) (event_time other) }
{
    if let Some(
        Event {
            time: Some(time),
            ..
        },
    ) = event
    {
        return Some(time);
    }
    match other {
        Some(other) => other.time,
        None => None,
    }
}

/// The call that an update gives, if it names a stop or platform and a time.
fn given_call(lookup: &Lookup, seq: u32, update: &StopUpdate) -> Option<Call>
    ensures { result ≡ given_call lookup.now.stops seq update.now }
{
    let served = is_served(update.relation)?;
    let id = update.stop_id.as_ref()?;
    let stop = lookup.platform(id.as_str())?;
    let arrival = time_of(update.arrival, update.departure)?;
    let departure = time_of(update.departure, update.arrival)?;
    Some(Call {
        stop,
        seq,
        arrival,
        departure,
        board: served,
        alight: served,
    })
}

/// The calls that updates give, numbered from 1 and raised; none where one of them gives no call.
pub fn given_calls(
    alloc: Global,
    lookup: &Lookup,
    updates: &[StopUpdate],
) -> Result<Option<List<Call>>, Memory>
    requires { length updates.now < 2 ^ 32 }
    ensures { IfOk result (λ calls. calls ≡ option_map raised (given_from lookup.now.stops 1 updates.now)) }
{
    let mut course = Course::new(alloc);
    let mut seq = 0u32;
    for update in updates {
        seq += 1;
        let Some(call) = given_call(lookup, seq, update) else {
            return Ok(None);
        };
        course.push(call)?;
    }
    Ok(Some(course.finish()))
}

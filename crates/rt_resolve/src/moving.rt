ghost use Rattle.std.specs.Prelude.{◌≡◌, pos, map, IfOk, IfSome, IsTrue, ◌^◌};
ghost use Rattle.otp_model.specs.Rows.{IsWithin};
ghost use Rattle.std.specs.Option.{option_copied, option_map};
ghost use Rattle.std.specs.List.{All};
ghost use Rattle.otp_model.specs.Moves.{are_events, delay_of, is_event, moved_along, moved_at, moved_by, moved_calls, moved_from, predicted, raised, shifted, skipped};
ghost use Rattle.rt_resolve.specs.Meaning.{HasEvents, MeansWithEvents, meant_of};
ghost use Rattle.rt_resolve.specs.Moving.{IsMovable, moved_of, seconds_of};

use crate::course::Course;
use crate::delay::Delay;
use crate::meaning::{Meant, behind, here, meant_by};
use otp_base::{List, Memory};
use otp_model::{Call, Event, Stop, StopUpdate, Time};
use std::alloc::Global;

/// A call once it is moved, and the delay that goes on to the calls behind it.
#[derive(Clone, Copy)]
pub struct Moved {
    pub call: Call,
    pub delay: Delay,
}

/// The delay of an event that the feed has at a time: what its own time is past that, or else its own delay.
fn delay_of(event: Option<Event>, planned: Time) -> Option<Delay>
    requires event { IsTrue (is_event event) }
    requires planned { IsWithin (2 ^ 36) planned }
    ensures { option_map seconds_of result ≡ delay_of planned event }
{
    let event = event?;
    if let Some(time) = event.time {
        return Some(Delay {
            seconds: time - planned,
        });
    }
    match event.delay {
        Some(seconds) => Some(Delay { seconds }),
        None => None,
    }
}

const SKIPPED: u64 = 1;

const NO_DATA: u64 = 2;

/// The call with its arrival and its departure so much later.
fn shifted(call: &Call, arrival: Delay, departure: Delay) -> Call
    requires { IsMovable call.now }
    ensures { result ≡ shifted arrival.seconds departure.seconds call.now }
{
    Call {
        arrival: call.arrival + arrival.seconds,
        departure: call.departure + departure.seconds,
        ..*call
    }
}

/// A call to which a delay comes without an update of its own.
fn moved_along(call: &Call, delay: Delay) -> Moved
    requires { IsMovable call.now }
    ensures { moved_of result ≡ moved_along delay.seconds call.now }
{
    let call = shifted(call, delay, delay);
    Moved { call, delay }
}

/// A call that is passed without boarding and alighting.
fn skipped(call: &Call, delay: Delay) -> Moved
    requires { IsMovable call.now }
    ensures { moved_of result ≡ skipped delay.seconds call.now }
{
    let shifted = shifted(call, delay, delay);
    let call = Call {
        board: false,
        alight: false,
        ..shifted
    };
    Moved { call, delay }
}

/// A call whose arrival and departure are predicted.
fn predicted(call: &Call, update: &StopUpdate, delay: Delay) -> Moved
    requires call { IsMovable call.now }
    requires update { HasEvents update.now }
    ensures { moved_of result ≡ predicted delay.seconds update.now call.now }
{
    let arrival = delay_of(update.arrival, call.arrival).unwrap_or(delay);
    let departure = delay_of(update.departure, call.departure).unwrap_or(arrival);
    let call = shifted(call, arrival, departure);
    Moved {
        call,
        delay: departure,
    }
}

/// A call that an update moves.
fn moved_by(call: &Call, update: &StopUpdate, delay: Delay) -> Moved
    requires call { IsMovable call.now }
    requires update { HasEvents update.now }
    ensures { moved_of result ≡ moved_by delay.seconds update.now call.now }
{
    if update.relation == SKIPPED {
        return skipped(call, delay);
    }
    if update.relation == NO_DATA {
        return moved_along(call, Delay::none());
    }
    predicted(call, update, delay)
}

fn moved_at(call: &Call, update: Option<&StopUpdate>, delay: Delay) -> Moved
    requires call { IsMovable call.now }
    requires update { IfSome (option_copied update) HasEvents }
    ensures { moved_of result ≡ moved_at delay.seconds (option_copied update.entry) call.now }
{
    match update {
        Some(update) => moved_by(call, update, delay),
        None => moved_along(call, delay),
    }
}

/// The calls as these updates move them, raised.
fn along(alloc: Global, meant: &[Meant], calls: &[Call]) -> Result<List<Call>, Memory>
    requires events { All MeansWithEvents meant.now }
    requires calls { All IsMovable calls.now }
    ensures { IfOk result (λ moved. moved ≡ raised (moved_from (pos 0) 0 (map meant_of meant.now) calls.now)) }
{
    let mut course = Course::new(alloc);
    let mut delay = Delay::none();
    let mut left = meant;
    for (place, call) in calls.iter().enumerate() {
        let moved = moved_at(call, here(left, place), delay);
        left = behind(left, place);
        delay = moved.delay;
        course.push(moved.call)?;
    }
    Ok(course.finish())
}

/// The calls of a run as the updates of its trip move them.
pub fn moved_calls(
    alloc: Global,
    stops: &[Stop],
    updates: &[StopUpdate],
    calls: &[Call],
) -> Result<List<Call>, Memory>
    requires events { IsTrue (are_events updates.now) }
    requires calls { All IsMovable calls.now }
    ensures { IfOk result (λ moved. moved ≡ moved_calls stops.now updates.now calls.now) }
{
    let meant = meant_by(alloc, stops, calls, updates)?;
    along(alloc, meant.as_slice(), calls)
}

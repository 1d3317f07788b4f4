ghost use Rattle.std.specs.Prelude.{◌≡◌, ◌&&◌, true, IfOk, IsTrue};
ghost use Rattle.std.specs.List.{All};
ghost use Rattle.std.specs.Option.{option_map_or};
ghost use Rattle.otp_base.specs.Answers.{Gives};
ghost use Rattle.otp_model.specs.Moves.{are_events, is_delay, is_event, is_event_time};
ghost use Rattle.otp_model.specs.Resolution.{are_enough, changed_run, is_added, is_of_feed, judged, judged_added, judged_planned, judged_update};
ghost use Rattle.rt_resolve.specs.Moving.{IsMovable};
ghost use Rattle.rt_resolve.specs.Reasons.{told_reason};

use crate::added::given_calls;
use crate::lookup::Lookup;
use crate::moving::moved_calls;
use crate::reason::{Reason, Unresolved};
use otp_base::{Copied, List, Memory};
use otp_model::{
    Call, Change, Entity, Event, Run, RunName, StopUpdate, Time, TripName, TripUpdate,
};
use std::alloc::Global;

// The relations of a trip that are read.
const SCHEDULED: u64 = 0;

const ADDED: u64 = 1;

const CANCELED: u64 = 3;

const DELETED: u64 = 7;

const NEW: u64 = 8;

fn is_of_feed(relation: u64) -> bool
    ensures { result ≡ is_of_feed relation }
{
    relation == SCHEDULED || relation == CANCELED || relation == DELETED
}

fn is_added(relation: u64) -> bool
    ensures { result ≡ is_added relation }
{
    relation == ADDED || relation == NEW
}

/// The greatest time of an event.
const LATEST: Time = 1 << 40;

/// Whether a delay is of 32 bits, and a time from 0 to 2^40.
fn is_event(event: Option<Event>) -> bool
    ensures { result ≡ is_event event }
{
    let Some(event) = event else {
        return true;
    };
    is_delay(event.delay) && is_time(event.time)
}

fn is_delay(delay: Option<i64>) -> bool
    ensures { result ≡ option_map_or is_delay delay true }
{
    match delay {
        Some(delay) => i64::from(i32::MIN) <= delay && delay <= i64::from(i32::MAX),
        None => true,
    }
}

fn is_time(time: Option<Time>) -> bool
    ensures { result ≡ option_map_or is_event_time time true }
{
    match time {
        Some(time) => 0 <= time && time <= LATEST,
        None => true,
    }
}

fn has_events(update: &StopUpdate) -> bool
    ensures { result ≡ (is_event update.now.arrival && is_event update.now.departure) }
{
    is_event(update.arrival) && is_event(update.departure)
}

fn are_events(updates: &[StopUpdate]) -> bool
    ensures { result ≡ are_events updates.now }
{
    updates.iter().all(has_events)
}

/// The most calls that a sequence counts.
const MOST_CALLS: usize = 4_294_967_295;

fn are_enough(updates: &[StopUpdate]) -> bool
    ensures { result ≡ are_enough updates.now }
{
    2 <= updates.len() && updates.len() <= MOST_CALLS
}

/// The calls that a run of the feed has by an update, or none where the run is out of the schedule.
fn changed_calls(
    alloc: Global,
    lookup: &Lookup,
    update: &TripUpdate,
    run: &Run,
) -> Result<Option<List<Call>>, Memory>
    requires events { IsTrue (are_events update.now.updates) }
    requires calls { All IsMovable run.now.calls }
    ensures { IfOk result (λ calls. calls ≡ (changed_run lookup.now update.now run.now).calls) }
{
    if update.relation != SCHEDULED {
        return Ok(None);
    }
    let updates = update.updates.as_slice();
    let calls = moved_calls(alloc, lookup.stops(), updates, run.calls.as_slice())?;
    Ok(Some(calls))
}

/// What an update says of a run of the feed.
fn judge_planned(
    alloc: Global,
    lookup: &Lookup,
    timestamp: Option<u64>,
    update: &TripUpdate,
) -> Result<Change, Unresolved>
    ensures { Gives (λ change. change) told_reason result (judged_planned lookup.now timestamp update.now) }
{
    let id = update
        .trip_id
        .as_ref()
        .ok_or(Unresolved::Ignored(Reason::NoTripId))?;
    let trip = lookup
        .trip(id.as_str())
        .ok_or(Unresolved::Ignored(Reason::WrongTrip))?;
    let day = lookup.service_day(timestamp, update)?;
    let day = day.ok_or(Unresolved::Ignored(Reason::NoDay))?;
    let run = lookup
        .run_meant(trip, day, update)
        .ok_or(Unresolved::Ignored(Reason::NoRun))?;
    if !are_events(update.updates.as_slice()) {
        return Err(Unresolved::Ignored(Reason::BadCalls));
    }
    let calls = changed_calls(alloc, lookup, update, run)?;
    let name = run.name.copy(alloc)?;
    Ok(Change { name, calls })
}

/// What an update says of a run that the feed doesn't have.
fn judge_added(
    alloc: Global,
    lookup: &Lookup,
    timestamp: Option<u64>,
    update: &TripUpdate,
) -> Result<Change, Unresolved>
    ensures { Gives (λ change. change) told_reason result (judged_added lookup.now timestamp update.now) }
{
    let id = update
        .trip_id
        .as_ref()
        .ok_or(Unresolved::Ignored(Reason::NoTripId))?;
    if !lookup.is_new_trip(id.as_str()) {
        return Err(Unresolved::Ignored(Reason::WrongTrip));
    }
    let day = lookup.service_day(timestamp, update)?;
    let day = day.ok_or(Unresolved::Ignored(Reason::NoDay))?;
    if !lookup.is_in_horizon(day) {
        return Err(Unresolved::Ignored(Reason::NoRun));
    }
    let updates = update.updates.as_slice();
    if !(are_events(updates) && are_enough(updates)) {
        return Err(Unresolved::Ignored(Reason::BadCalls));
    }
    let calls = given_calls(alloc, lookup, updates)?;
    let calls = calls.ok_or(Unresolved::Ignored(Reason::BadCalls))?;
    let name = RunName {
        trip: TripName::Added(id.copy(alloc)?),
        day,
        start: None,
    };
    Ok(Change {
        name,
        calls: Some(calls),
    })
}

fn judge_update(
    alloc: Global,
    lookup: &Lookup,
    timestamp: Option<u64>,
    update: &TripUpdate,
) -> Result<Change, Unresolved>
    ensures { Gives (λ change. change) told_reason result (judged_update lookup.now timestamp update.now) }
{
    if is_of_feed(update.relation) {
        return judge_planned(alloc, lookup, timestamp, update);
    }
    if is_added(update.relation) {
        return judge_added(alloc, lookup, timestamp, update);
    }
    Err(Unresolved::Ignored(Reason::OtherRelation))
}

/// What an entity says by itself, or the first of the reasons that holds. `timestamp` is that of its message.
pub fn judge(
    alloc: Global,
    lookup: &Lookup,
    timestamp: Option<u64>,
    entity: &Entity,
) -> Result<Change, Unresolved>
    ensures { Gives (λ change. change) told_reason result (judged lookup.now timestamp entity.now) }
{
    if entity.deleted {
        return Err(Unresolved::Ignored(Reason::Deleted));
    }
    match &entity.update {
        Some(update) => judge_update(alloc, lookup, timestamp, update),
        None => Err(Unresolved::Ignored(Reason::NoUpdate)),
    }
}

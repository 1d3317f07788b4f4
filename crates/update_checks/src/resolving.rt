//! What a message says of the run of a feed: what no value of a plan shows.
ghost use Rattle.otp_model.specs.Sound.{IsSound};

use crate::sample::{entity, feed};
use otp_base::{List, Memory};
use otp_model::{Change, Entity, Event, Feed, Message, StopUpdate, Time};
use rt_resolve::{Resolved, resolve};
use std::alloc::Global;
use std::test::Fail;

const SCHEDULED: u64 = 0;

const ADDED: u64 = 1;

const CANCELED: u64 = 3;

const UNSCHEDULED: u64 = 2;

/// The day of the feed's run, and the day behind it.
const DAY: &str = "19700102";

const NEXT_DAY: &str = "19700103";

/// The sequence of a call, what is said of it (0 its delay, 1 that it is skipped, 2 that nothing is known), and its delay.
type Update = (u64, u64, i64);

/// What updates make of the run's two calls: when each is, and whether it may be boarded.
type Moved = ([Update; 2], [(Time, bool); 2]);

const MOVED: [Moved; 3] = [
    ([(1, 0, 60), (2, 2, 0)], [(1_060, true), (2_000, true)]),
    ([(1, 1, 0), (2, 0, 7)], [(1_000, false), (2_007, true)]),
    // The second means a call before that of the first, and is passed over.
    ([(2, 0, 30), (1, 0, 5)], [(1_000, true), (2_030, true)]),
];

fn updates(alloc: Global, given: &[Update]) -> Result<List<StopUpdate>, Memory> {
    let mut updates = List::new(alloc);
    for (seq, relation, delay) in given {
        updates.push(StopUpdate {
            seq: Some(*seq),
            stop_id: None,
            relation: *relation,
            arrival: Some(Event {
                delay: Some(*delay),
                time: None,
            }),
            departure: None,
        })?;
    }
    Ok(updates)
}

/// What entities say over a feed.
fn resolved(alloc: Global, feed: &Feed, entities: List<Entity>) -> Result<Resolved, Memory>
    requires { IsSound feed.now }
{
    let message = Message {
        timestamp: None,
        entities,
    };
    resolve(alloc, feed, &message)
}

/// Whether the calls of a change are as expected.
fn has_calls(change: &Change, expected: &[(Time, bool)]) -> bool {
    let Some(calls) = &change.calls else {
        return false;
    };
    for (call, (time, board)) in calls.as_slice().iter().zip(expected) {
        if call.arrival != *time || call.departure != *time || call.board != *board {
            return false;
        }
    }
    calls.len() == expected.len()
}

fn is_moved(alloc: Global, feed: &Feed, case: &Moved) -> Result<bool, Memory>
    requires { IsSound feed.now }
{
    let (given, expected) = case;
    let mut entities = List::new(alloc);
    let updates = updates(alloc, given.as_slice())?;
    entities.push(entity(alloc, "t", DAY, SCHEDULED, updates)?)?;
    let resolved = resolved(alloc, feed, entities)?;
    match resolved.changes.as_slice() {
        [change] => Ok(has_calls(change, expected.as_slice())),
        _ => Ok(false),
    }
}

#[test]
fn moves_calls(rt: HostRuntime) -> Result<(), Fail> {
    let alloc = rt.alloc();
    let feed = feed(alloc)?;
    for case in &MOVED {
        assert!(rt; is_moved(alloc, &feed, case)?);
    }
    Ok(())
}

/// An entity without a trip update.
fn bare(deleted: bool) -> Entity {
    Entity {
        deleted,
        update: None,
    }
}

/// Entities of trips without updates, each the first of which a reason holds: that its relation isn't read, that it has no id,
/// that the feed lacks the trip, that no day is told, that no run is on the day, that an added run has no calls. The one before
/// the last is resolved, and the last repeats its name.
const TRIPS: [(&str, &str, u64); 8] = [
    ("t", DAY, UNSCHEDULED),
    ("", DAY, SCHEDULED),
    ("u", DAY, SCHEDULED),
    ("t", "1970", SCHEDULED),
    ("t", NEXT_DAY, SCHEDULED),
    ("u", DAY, ADDED),
    ("t", DAY, CANCELED),
    ("t", DAY, SCHEDULED),
];

fn nine_reasons(alloc: Global) -> Result<List<Entity>, Memory> {
    let mut entities = List::new(alloc);
    entities.push(bare(true))?;
    entities.push(bare(false))?;
    for (trip, date, relation) in TRIPS {
        entities.push(entity(alloc, trip, date, relation, List::new(alloc))?)?;
    }
    Ok(entities)
}

#[test]
fn counts_reasons(rt: HostRuntime) -> Result<(), Fail> {
    let alloc = rt.alloc();
    let feed = feed(alloc)?;
    let resolved = resolved(alloc, &feed, nine_reasons(alloc)?)?;
    assert_eq!(rt; resolved.ignored, [1; 9]);
    assert_eq!(rt; resolved.changes.len(), 1);
    Ok(())
}

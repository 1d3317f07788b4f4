ghost use Rattle.std.specs.Prelude.{◌≡◌, ◌≤◌, length};
ghost use Rattle.otp_model.specs.Sound.{IsSound};
ghost use Rattle.change_buffer.specs.Forms.{AreResolved};

use crate::sample::{entity, feed};
use change_buffer::{Buffer, OfferFault};
use otp_base::{List, Memory, Text};
use otp_model::{Change, Event, Feed, Message, StopUpdate};
use rt_resolve::{Resolved, resolve};
use std::alloc::Global;
use std::test::Fail;

/// The updates of a message: of a stop, by its sequence or by its id, with the delay or the time of its departure.
fn update(seq: Option<u64>, stop_id: Option<Text>, departure: Event) -> StopUpdate {
    StopUpdate {
        seq,
        stop_id,
        relation: 0,
        arrival: None,
        departure: Some(departure),
    }
}

/// A message of one trip update for the day of the run.
fn message_of(
    alloc: Global,
    trip: &str,
    relation: u64,
    updates: List<StopUpdate>,
) -> Result<Message, Memory> {
    let mut entities = List::new(alloc);
    entities.push(entity(alloc, trip, "19700102", relation, updates)?)?;
    Ok(Message {
        timestamp: None,
        entities,
    })
}

/// The run leaves its first stop late by so many seconds.
fn late(alloc: Global, seconds: i64) -> Result<Message, Memory> {
    let mut updates = List::new(alloc);
    let departure = Event {
        delay: Some(seconds),
        time: None,
    };
    updates.push(update(Some(1), None, departure))?;
    message_of(alloc, "t", 0, updates)
}

/// The run doesn't run.
fn canceled(alloc: Global) -> Result<Message, Memory> {
    message_of(alloc, "t", 3, List::new(alloc))
}

/// A trip "x" leaves the stop at 500 seconds and is there again at 600.
fn added(alloc: Global) -> Result<Message, Memory> {
    let mut updates = List::new(alloc);
    for time in [500, 600] {
        let departure = Event {
            delay: None,
            time: Some(time),
        };
        updates.push(update(None, Some(Text::from_str(alloc, "s")?), departure))?;
    }
    message_of(alloc, "x", 1, updates)
}

fn message(alloc: Global, timestamp: Option<u64>) -> Message {
    Message {
        timestamp,
        entities: List::new(alloc),
    }
}

/// When the run of a change arrives at last, if it runs.
fn last_arrival(change: &Change) -> Option<i64> {
    match &change.calls {
        Some(calls) => calls.as_slice().last().map(|call| call.arrival),
        None => None,
    }
}

/// What a feed says in a step of the test.
#[derive(Clone, Copy)]
enum Said {
    Late(i64),
    Canceled,
    Added,
    Nothing,
}

fn message_saying(alloc: Global, said: Said) -> Result<Message, Memory> {
    match said {
        Said::Late(seconds) => late(alloc, seconds),
        Said::Canceled => canceled(alloc),
        Said::Added => added(alloc),
        Said::Nothing => Ok(message(alloc, None)),
    }
}

/// The last arrivals of the runs that a message of one of two feeds changes, once it is committed.
fn commit(
    alloc: Global,
    buffer: &mut Buffer,
    feed: &Feed,
    feed_no: u32,
    message: Message,
) -> Result<Vec<Option<i64>>, Fail>
    requires sound { IsSound feed.now }
    requires two { length buffer.old ≡ 2 }
    requires resolved { AreResolved feed.now buffer.old }
    ensures two { length buffer.new ≡ 2 }
    ensures resolved { AreResolved feed.now buffer.new }
{
    if feed_no < 1 || feed_no > 2 {
        return Err(Fail::new("there are two feeds"));
    }
    let Resolved { changes, .. } = resolve(alloc, feed, &message)?;
    buffer.offer(feed_no, message, changes)?;
    let prepared = buffer.prepare(alloc, feed)?;
    buffer.settle();
    let mut arrivals = Vec::new(alloc);
    for change in prepared.changes.as_slice() {
        arrivals.push(last_arrival(change))?;
    }
    Ok(arrivals)
}

#[test]
fn tells_what_each_commit_changes(rt: HostRuntime) -> Result<(), Fail> {
    let alloc = rt.alloc();
    let feed = feed(alloc)?;
    let mut buffer = Buffer::new(alloc, 2)?;
    let steps: [(u32, Said, &[Option<i64>]); 10] = [
        (1, Said::Late(60), &[Some(2_060)]),
        (2, Said::Late(120), &[Some(2_120)]),
        (1, Said::Late(30), &[]),
        (2, Said::Nothing, &[Some(2_030)]),
        (1, Said::Nothing, &[Some(2_000)]),
        (1, Said::Late(0), &[]),
        (2, Said::Canceled, &[None]),
        (2, Said::Added, &[Some(2_000), Some(600)]),
        (2, Said::Added, &[]),
        (2, Said::Nothing, &[None]),
    ];
    for (feed_no, what, changed) in steps {
        let arrivals = commit(
            alloc,
            &mut buffer,
            &feed,
            feed_no,
            message_saying(alloc, what)?,
        )?;
        assert!(rt; arrivals.as_slice() == changed);
    }
    Ok(())
}

/// Offers a message that says nothing.
fn offer(
    alloc: Global,
    buffer: &mut Buffer,
    feed_no: u32,
    timestamp: Option<u64>,
) -> Result<u64, OfferFault>
    requires first { 1 ≤ feed_no }
    requires last { feed_no ≤ length buffer.old }
    ensures { length buffer.new ≡ length buffer.old }
{
    buffer.offer(feed_no, message(alloc, timestamp), List::new(alloc))
}

#[test]
fn keeps_the_timestamp_and_the_count_of_each_feed(rt: HostRuntime) -> Result<(), Fail> {
    let alloc = rt.alloc();
    let mut buffer = Buffer::new(alloc, 2)?;
    assert!(rt; !buffer.pending());
    assert_eq!(rt; offer(alloc, &mut buffer, 1, Some(100)), Ok(1));
    assert_eq!(rt; offer(alloc, &mut buffer, 1, None), Ok(2));
    assert_eq!(rt;
        offer(alloc, &mut buffer, 1, Some(99)),
        Err(OfferFault::Older { have: 100 })
    );
    assert_eq!(rt; offer(alloc, &mut buffer, 2, Some(99)), Ok(1));
    assert!(rt; buffer.pending());
    buffer.settle();
    assert!(rt; !buffer.pending());
    assert_eq!(rt; offer(alloc, &mut buffer, 1, Some(100)), Ok(3));
    Ok(())
}

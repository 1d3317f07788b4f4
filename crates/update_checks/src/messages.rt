use otp_base::Text;
use otp_model::{Entity, Event, Message, StopUpdate, TripUpdate};
use pb_wire::WireFault;
use rt_reader::{MessageFault, read_message};
use std::alloc::Global;
use std::test::Fail;

/// A header with version 2.0.
const HEADER: [u8; 7] = [0x0A, 0x05, 0x0A, 0x03, 0x32, 0x2E, 0x30];

/// The arrival of trip T1 on 20240506 at sequence 2 is delayed by 61 seconds.
const LATE: [u8; 31] = [
    0x12, 0x1D, 0x0A, 0x01, 0x31, 0x1A, 0x18, 0x0A, 0x0E, 0x0A, 0x02, 0x54, 0x31, 0x1A, 0x08, 0x32,
    0x30, 0x32, 0x34, 0x30, 0x35, 0x30, 0x36, 0x12, 0x06, 0x08, 0x02, 0x12, 0x02, 0x08, 0x3D,
];

/// The same with 62 seconds.
const LATER: [u8; 31] = [
    0x12, 0x1D, 0x0A, 0x01, 0x31, 0x1A, 0x18, 0x0A, 0x0E, 0x0A, 0x02, 0x54, 0x31, 0x1A, 0x08, 0x32,
    0x30, 0x32, 0x34, 0x30, 0x35, 0x30, 0x36, 0x12, 0x06, 0x08, 0x02, 0x12, 0x02, 0x08, 0x3E,
];

/// Trip T1 on 20240506 is canceled.
const CANCELED: [u8; 25] = [
    0x12, 0x17, 0x0A, 0x01, 0x31, 0x1A, 0x12, 0x0A, 0x10, 0x0A, 0x02, 0x54, 0x31, 0x1A, 0x08, 0x32,
    0x30, 0x32, 0x34, 0x30, 0x35, 0x30, 0x36, 0x20, 0x03,
];

/// Trip T1 on 20240506 skips sequence 2.
const SKIPPED: [u8; 29] = [
    0x12, 0x1B, 0x0A, 0x01, 0x31, 0x1A, 0x16, 0x0A, 0x0E, 0x0A, 0x02, 0x54, 0x31, 0x1A, 0x08, 0x32,
    0x30, 0x32, 0x34, 0x30, 0x35, 0x30, 0x36, 0x12, 0x04, 0x08, 0x02, 0x28, 0x01,
];

/// The arrival of trip T1 on 20240506 at sequence 2 is 660 seconds early.
const EARLY: [u8; 40] = [
    0x12, 0x26, 0x0A, 0x01, 0x31, 0x1A, 0x21, 0x0A, 0x0E, 0x0A, 0x02, 0x54, 0x31, 0x1A, 0x08, 0x32,
    0x30, 0x32, 0x34, 0x30, 0x35, 0x30, 0x36, 0x12, 0x0F, 0x08, 0x02, 0x12, 0x0B, 0x08, 0xEC, 0xFA,
    0xFF, 0xFF, 0xFF, 0xFF, 0xFF, 0xFF, 0xFF, 0x01,
];

/// These bytes one after the other.
fn joined(alloc: Global, parts: &[&[u8]]) -> Result<Vec<u8>, Fail> {
    let mut bytes = Vec::new(alloc);
    for part in parts {
        bytes.extend_from_slice(part)?;
    }
    Ok(bytes)
}

fn is_text(text: &Option<Text>, wanted: &str) -> bool {
    match text {
        Some(text) => text.is(wanted),
        None => false,
    }
}

/// The trip update of the one entity.
fn only_update(message: &Message) -> Option<&TripUpdate> {
    match message.entities.as_slice() {
        [
            Entity {
                deleted: false,
                update: Some(update),
            },
        ] => Some(update),
        _ => None,
    }
}

/// Whether it is an update of trip T1 on 20240506.
fn is_of_t1(update: &TripUpdate, relation: u64) -> bool {
    if update.relation != relation {
        return false;
    }
    if !is_text(&update.trip_id, "T1") {
        return false;
    }
    is_text(&update.start_date, "20240506")
}

/// Whether it means the call of sequence 2, with this relation and delay of the arrival alone.
fn is_of_call_2(update: &StopUpdate, relation: u64, delay: Option<i64>) -> bool {
    let arrival = match delay {
        Some(delay) => Some(Event {
            delay: Some(delay),
            time: None,
        }),
        None => None,
    };
    if update.seq != Some(2) {
        return false;
    }
    if update.relation != relation {
        return false;
    }
    if update.arrival != arrival {
        return false;
    }
    update.departure.is_none() && update.stop_id.is_none()
}

#[test]
fn reads_updates_of_stops(rt: HostRuntime) -> Result<(), Fail> {
    let cases: [(&[u8], u64, Option<i64>); 4] = [
        (&LATER, 0, Some(62)),
        (&LATE, 0, Some(61)),
        (&SKIPPED, 1, None),
        (&EARLY, 0, Some(-660)),
    ];
    for (entity, relation, delay) in cases {
        let bytes = joined(rt.alloc(), &[&HEADER, entity])?;
        let message = read_message(rt.alloc(), &bytes)?;
        assert_eq!(rt; message.timestamp, None);
        let update = only_update(&message).ok_or("one entity with an update")?;
        assert!(rt; is_of_t1(update, 0));
        assert!(rt; update.start_time.is_none() && update.route_id.is_none());
        match update.updates.as_slice() {
            [stop] => assert!(rt; is_of_call_2(stop, relation, delay)),
            _ => assert!(rt; false, "one update of a stop"),
        }
    }
    Ok(())
}

#[test]
fn reads_a_canceled_trip(rt: HostRuntime) -> Result<(), Fail> {
    let bytes = joined(rt.alloc(), &[&HEADER, &CANCELED])?;
    let message = read_message(rt.alloc(), &bytes)?;
    let update = only_update(&message).ok_or("one entity with an update")?;
    assert!(rt; is_of_t1(update, 3));
    assert!(rt; update.updates.is_empty());
    Ok(())
}

/// The answer's fault, if it is one.
fn fault_of(alloc: Global, bytes: &[u8]) -> Option<MessageFault> {
    match read_message(alloc, bytes) {
        Ok(_) => None,
        Err(fault) => Some(fault),
    }
}

#[test]
fn cut_at_each_length(rt: HostRuntime) -> Result<(), Fail> {
    let bytes = joined(rt.alloc(), &[&HEADER, &LATE])?;
    assert_eq!(rt; bytes.len(), 38);
    for len in 0..bytes.len() + 1 {
        let wanted = match len {
            0 => Some(MessageFault::NoHeader),
            1..=6 => Some(MessageFault::Wire(WireFault::Cut { at: 0 })),
            7 | 38 => None,
            _ => Some(MessageFault::Wire(WireFault::Cut { at: 7 })),
        };
        assert_eq!(rt;
            fault_of(rt.alloc(), &bytes[..len]),
            wanted,
            "at length {len}"
        );
    }
    Ok(())
}

#[test]
fn finds_the_first_fault(rt: HostRuntime) -> Result<(), Fail> {
    let cases: [(&[u8], MessageFault); 13] = [
        (&[0x0B], MessageFault::Wire(WireFault::Group { at: 7 })),
        (&[0x00], MessageFault::Wire(WireFault::ZeroField { at: 7 })),
        (
            &[0xFF; 10],
            MessageFault::Wire(WireFault::LongVarint { at: 7 }),
        ),
        (&HEADER, MessageFault::Repeated { at: 7 }),
        // a header of another wire type, then again as a message: the wire type comes first
        (&[0x08, 0x01, 0x0A, 0x00], MessageFault::WrongType { at: 7 }),
        // a fault of the whole comes before one inside, though it stands after it
        (
            &[0x12, 0x02, 0x18, 0x01, 0x0B],
            MessageFault::Wire(WireFault::Group { at: 11 }),
        ),
        // of two faults inside the first
        (
            &[0x12, 0x04, 0x11, 0x01, 0x18, 0x01],
            MessageFault::Wire(WireFault::Cut { at: 9 }),
        ),
        (
            &[0x12, 0x04, 0x18, 0x01, 0x12, 0x00],
            MessageFault::WrongType { at: 9 },
        ),
        // two trip updates in an entity
        (
            &[0x12, 0x04, 0x1A, 0x00, 0x1A, 0x00],
            MessageFault::Repeated { at: 11 },
        ),
        // a second trip update that is wrong inside is a second one before that
        (
            &[0x12, 0x06, 0x1A, 0x00, 0x1A, 0x02, 0x08, 0x01],
            MessageFault::Repeated { at: 11 },
        ),
        // two arrivals, whose inside is cut
        (
            &[0x12, 0x07, 0x1A, 0x05, 0x12, 0x03, 0x12, 0x01, 0x08],
            MessageFault::Wire(WireFault::Cut { at: 15 }),
        ),
        // a text that a later one replaces
        (
            &[
                0x12, 0x0B, 0x1A, 0x09, 0x0A, 0x07, 0x0A, 0x02, 0xFF, 0x31, 0x0A, 0x01, 0x31,
            ],
            MessageFault::NotText { at: 13 },
        ),
        // an unknown field is skipped whatever it is; the departure's delay of four bytes is cut
        (
            &[
                0x12, 0x11, 0x21, 0, 0, 0, 0, 0, 0, 0, 0, 0x1A, 0x06, 0x12, 0x04, 0x1A, 0x02, 0x0D,
                0x00,
            ],
            MessageFault::Wire(WireFault::Cut { at: 24 }),
        ),
    ];
    for (rest, fault) in cases {
        let bytes = joined(rt.alloc(), &[&HEADER, rest])?;
        assert_eq!(rt; fault_of(rt.alloc(), &bytes), Some(fault));
    }
    let alone: [(&[u8], MessageFault); 4] = [
        (&[0x08, 0x01], MessageFault::WrongType { at: 0 }),
        (&[0x12, 0x00], MessageFault::NoHeader),
        (
            &[0x0A, 0x07, 0x0A, 0x03, 0x32, 0x2E, 0x30, 0x10, 0x01],
            MessageFault::Differential,
        ),
        // a fault in a later field comes before what is wrong with the whole
        (
            &[0x0A, 0x02, 0x10, 0x01, 0x10, 0x00],
            MessageFault::WrongType { at: 4 },
        ),
    ];
    for (bytes, fault) in alone {
        assert_eq!(rt; fault_of(rt.alloc(), bytes), Some(fault));
    }
    let mut bytes = joined(rt.alloc(), &[&HEADER, &CANCELED])?;
    assert_eq!(rt; bytes.len(), 32);
    bytes[18] = 0xFF;
    assert_eq!(rt;
        fault_of(rt.alloc(), &bytes),
        Some(MessageFault::NotText { at: 16 })
    );
    Ok(())
}

#[test]
fn the_last_scalar_wins(rt: HostRuntime) -> Result<(), Fail> {
    // An entity whose stop_time_update stands before its trip, in the update the departure before the
    // arrival and two stops; then the header, with two values of each of its scalars; then an entity that
    // is deleted by the last of two flags, the first of them and an unknown field in between.
    let bytes = [
        0x12, 0x16, 0x1A, 0x14, // entity, trip_update
        0x12, 0x0E, 0x1A, 0x02, 0x10, 0x07, 0x22, 0x01, 0x41, 0x12, 0x00, 0x22, 0x03, 0xE2, 0x82,
        0xAC, // update
        0x0A, 0x02, 0x20, 0x00, // trip
        0x0A, 0x09, 0x10, 0x01, 0x18, 0x05, 0x10, 0x00, 0x18, 0xAC, 0x02, // header
        0x12, 0x09, 0x10, 0x00, 0x7D, 1, 2, 3, 4, 0x10, 0x02, // entity
    ];
    let message = read_message(rt.alloc(), &bytes)?;
    assert_eq!(rt; message.timestamp, Some(300));
    let [first, second] = message.entities.as_slice() else {
        assert!(rt; false, "two entities");
        return Ok(());
    };
    assert!(rt; second.deleted && second.update.is_none());
    let Some(update) = &first.update else {
        assert!(rt; false, "an update");
        return Ok(());
    };
    assert!(rt; update.trip_id.is_none());
    let [stop] = update.updates.as_slice() else {
        assert!(rt; false, "one update of a stop");
        return Ok(());
    };
    assert!(rt; is_text(&stop.stop_id, "\u{20AC}"));
    let departure = Event {
        delay: None,
        time: Some(7),
    };
    let arrival = Event {
        delay: None,
        time: None,
    };
    assert_eq!(rt; stop.departure, Some(departure));
    assert_eq!(rt; stop.arrival, Some(arrival));
    Ok(())
}

//! Plans once messages are committed: which values they have, or why a message is refused.

use super::{folder, words};
use crate::offline::run_offline;
use crate::status::Status;
use otp_base::{FileEntry, List, MemoryFolder, MemorySink, Text};
use std::alloc::Global;
use std::process::Abort;
use std::test::Fail;
use worked_feeds::{
    ADDED_TRIP, CANCELED, CANCELED_START, EARLY_BY_660, EMPTY, LATE_BY_61, LATE_BY_62, SKIPPED,
    SampleFile,
};

/// The bytes of a message that says nothing, of this second.
const AT_100: &[u8] = &[0x0a, 0x07, 0x0a, 0x03, 0x32, 0x2e, 0x30, 0x18, 0x64];

const AT_99: &[u8] = &[0x0a, 0x07, 0x0a, 0x03, 0x32, 0x2e, 0x30, 0x18, 0x63];

/// A header that breaks off.
const CUT: &[u8] = &[0x0a, 0x05, 0x0a, 0x03, 0x32, 0x2e];

const FILES: [(&str, &[u8]); 11] = [
    ("late61", LATE_BY_61),
    ("late62", LATE_BY_62),
    ("canceled", CANCELED),
    ("skipped", SKIPPED),
    ("early", EARLY_BY_660),
    ("added", ADDED_TRIP),
    ("start", CANCELED_START),
    ("empty", EMPTY),
    ("at100", AT_100),
    ("at99", AT_99),
    ("cut", CUT),
];

/// The trip T1 at 08:00, 08:20 and 08:40.
const THREE_STARTS: &[SampleFile] = &[SampleFile {
    name: "f/frequencies.txt",
    text: "trip_id,start_time,end_time,headway_secs
T1,08:00:00,09:00:00,1200
",
}];

/// When the day of service starts, 6 May 2024.
const START: u64 = 1_714_953_600;

/// The words behind the query, the number of commits, and each value: departure, arrival, rides and cost, the times in
/// seconds of the day.
type Planned = (&'static str, u32, &'static [Worth]);

const PLANNED: &[Planned] = &[
    // T1 is 61 seconds late at B, and the change to T2 is just caught.
    (
        "1=late61",
        1,
        &[
            (28_200, 31_200, 1, 360_000),
            (28_800, 30_600, 2, 341_900),
            (28_800, 31_261, 1, 306_100),
        ],
    ),
    (
        "1=late62",
        1,
        &[(28_200, 31_200, 1, 360_000), (28_800, 31_262, 1, 306_200)],
    ),
    ("1=canceled", 1, &[(28_200, 31_200, 1, 360_000)]),
    // A dataset that says nothing takes the change back.
    (
        "1=canceled 1=empty",
        2,
        &[(28_800, 30_600, 2, 341_900), (28_800, 31_200, 1, 300_000)],
    ),
    ("1=skipped", 1, &[(28_800, 31_200, 1, 300_000)]),
    // It would be at B before it leaves A, and is raised to that moment.
    ("1=early", 1, &[(28_800, 30_540, 1, 234_000)]),
    ("1=added", 1, &[(28_900, 30_500, 1, 220_000)]),
    (
        "1=added 1=empty",
        2,
        &[(28_800, 30_600, 2, 341_900), (28_800, 31_200, 1, 300_000)],
    ),
    // Of two feeds that of the greater number counts, until it says nothing any more.
    (
        "1=late62 2=canceled --feeds 2",
        2,
        &[(28_200, 31_200, 1, 360_000)],
    ),
    (
        "2=canceled 1=late62 2=empty --feeds 2",
        3,
        &[(28_200, 31_200, 1, 360_000), (28_800, 31_262, 1, 306_200)],
    ),
];

/// The same of T1's three starts, over an hour.
const STARTED: &[Planned] = &[
    (
        "1=start",
        1,
        &[
            (28_800, 30_600, 2, 341_900),
            (28_800, 31_200, 1, 300_000),
            (31_200, 33_600, 1, 300_000),
        ],
    ),
    // A trip that runs by headways isn't meant without a start.
    (
        "1=canceled",
        1,
        &[
            (28_800, 30_600, 2, 341_900),
            (28_800, 31_200, 1, 300_000),
            (30_000, 32_400, 1, 300_000),
            (31_200, 33_600, 1, 300_000),
        ],
    ),
];

/// The words behind the query, what is written, and the bytes of the file `large`.
const REFUSED: [(&str, &str, usize); 5] = [
    ("1=cut", "message 1 cut 0\n", 0),
    ("1=at100 1=at99", "message 2 older 100\n", 0),
    ("1=empty 1=nowhere", "message 2 missing -\n", 0),
    ("1=large", "message 1 large -\n", 16_777_217),
    // An older one of another feed is none.
    ("1=at100 2=at99 1=cut --feeds 2", "message 3 cut 0\n", 0),
];

fn planned_cases() -> &'static [Planned] {
    PLANNED
}

fn started_cases() -> &'static [Planned] {
    STARTED
}

fn refused_cases() -> &'static [(&'static str, &'static str, usize)] {
    &REFUSED
}

fn message_files() -> &'static [(&'static str, &'static [u8])] {
    &FILES
}

fn entry(alloc: Global, name: &str, bytes: Vec<u8>) -> Result<FileEntry, Fail> {
    Ok(FileEntry {
        name: Text::from_str(alloc, name)?,
        bytes: List::from_vec(bytes),
    })
}

/// The feed's folder with the files of messages, one of which is of so many bytes.
fn with_messages(
    alloc: Global,
    changes: &[SampleFile],
    large: usize,
) -> Result<MemoryFolder, Fail> {
    let mut entries = folder(alloc, changes, &[])?.files;
    for (name, bytes) in message_files() {
        entries.push(entry(alloc, name, Vec::from_slice(alloc, bytes)?)?)?;
    }
    entries.push(entry(alloc, "large", vec![in alloc; 0u8; large]?)?)?;
    Ok(MemoryFolder::new(entries, List::new(alloc)))
}

/// What a plan from A to D writes with these words behind it.
fn planned(
    rt: &impl Abort,
    alloc: Global,
    changes: &[SampleFile],
    line: &str,
    status: Status,
    large: usize,
) -> Result<List<u8>, Fail> {
    let mut folder = with_messages(alloc, changes, large)?;
    let mut out = MemorySink::new(List::new(alloc), List::new(alloc), 4_096);
    let words = words(alloc, line)?;
    assert_eq!(rt;
        run_offline(alloc, &words, &mut folder, &mut out),
        status,
        "{line}"
    );
    Ok(out.bytes)
}

/// A value: departure, arrival, rides and cost, the times in seconds of the day.
type Worth = (u64, u64, u32, u32);

/// Whether the text of a journey, from its arrival on, has this value.
fn has_value(alloc: Global, journey: &str, worth: &Worth) -> Result<bool, Fail> {
    let (departure, arrival, rides, cost) = *worth;
    let arrival = START.wrapping_add(arrival);
    let departure = START.wrapping_add(departure);
    let front = format!(in alloc; "{arrival},\"cost\":{cost},\"departure\":{departure},")?;
    let back = format!(in alloc; "\"rides\":{rides}}}")?;
    Ok(journey.starts_with(front.as_str()) && journey.contains(back.as_str()))
}

/// Whether a reply has exactly the journeys of these values, in order.
fn has_values(alloc: Global, text: &str, values: &[Worth]) -> Result<bool, Fail> {
    let mut journeys = text.split("{\"arrival\":");
    journeys.next();
    for worth in values {
        let Some(journey) = journeys.next() else {
            return Ok(false);
        };
        if !has_value(alloc, journey, worth)? {
            return Ok(false);
        }
    }
    Ok(journeys.next().is_none())
}

/// Compares the number of commits and the values of a reply.
fn expect(
    rt: &impl Abort,
    alloc: Global,
    changes: &[SampleFile],
    window: u32,
    case: Planned,
) -> Result<(), Fail> {
    let (told, commits, values) = case;
    let line = format!(in alloc;
        "plan f from=stop:A&to=stop:D&time=1714981600&window={window} {told}"
    )?;
    let bytes = planned(rt, alloc, changes, &line, Status::Done, 0)?;
    let text = str::from_utf8(bytes.as_slice())?;
    let head = format!(in alloc; "{{\"behind\":false,\"commit\":{commits},")?;
    assert!(rt;
        text.starts_with(head.as_str()) && has_values(alloc, text, values)?,
        "{told}: {text}"
    );
    Ok(())
}

#[test]
fn plans_after_messages(rt: HostRuntime) -> Result<(), Fail> {
    let alloc = rt.alloc();
    for case in planned_cases() {
        expect(&rt, alloc, &[], 1_800, *case)?;
    }
    for case in started_cases() {
        expect(&rt, alloc, THREE_STARTS, 3_600, *case)?;
    }
    Ok(())
}

#[test]
fn refuses_messages(rt: HostRuntime) -> Result<(), Fail> {
    let alloc = rt.alloc();
    for (told, output, large) in refused_cases() {
        let line = format!(in alloc;
            "plan f from=stop:A&to=stop:D&time=1714981600&window=1800 {told}"
        )?;
        let bytes = planned(&rt, alloc, &[], &line, Status::Message, *large)?;
        assert!(rt; bytes.as_slice() == output.as_bytes(), "{told}");
    }
    Ok(())
}

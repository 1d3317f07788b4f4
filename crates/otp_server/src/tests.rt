mod messages;
mod replies;

use crate::offline::run_offline;
use crate::status::Status;
use otp_base::{List, MemoryFolder, MemorySink};
use replies::{
    BEFORE_THE_DAY, BEHIND_MIDNIGHT, BETWEEN_TIMES, BOTH, BY_RIDE, BY_STARTS, EARLIER_TRIP,
    FIRST_PAGE, FROM_A_POINT, MOVED_AND_BEHIND, NOTHING, ON_FOOT, SECOND_PAGE,
    START_BEHIND_MIDNIGHT,
};
use std::alloc::Global;
use std::process::Abort;
use std::test::Fail;
use worked_feeds::{AFTER_MIDNIGHT, SampleFile, TWO_WAYS, WALK_OR_RIDE, files_of};

/// Seven days, of which trips run on the first.
const OPTIONS: &str = "--zone Etc/UTC=UTC0 --from 20240506";

const COUNTS: &str = "stops=4 trips=3 runs=3 calls=7 passed=0\n";

/// A command over the feed with some files changed, and what it ends with and writes.
#[derive(Clone, Copy)]
struct Case {
    changes: &'static [SampleFile],
    line: &'static str,
    status: Status,
    output: &'static str,
}

/// `check f` over the feed with one file changed.
const CHECKS: [(&str, &str, Status, &str); 16] = [
    ("", "", Status::Done, COUNTS),
    // A byte order mark, and a field in quotes.
    (
        "f/stops.txt",
        "\u{feff}stop_id,stop_name,stop_lat,stop_lon
\"A\",A,0.0,0.0
B,B,0.1,0.0
C,C,0.1,0.005
D,D,0.3,0.0
",
        Status::Done,
        COUNTS,
    ),
    (
        "f/stop_times.txt",
        "trip_id,arrival_time,departure_time,stop_id,stop_sequence
",
        Status::Done,
        "stops=4 trips=0 runs=0 calls=0 passed=3\n",
    ),
    (
        "f/stop_times.txt",
        "trip_id,arrival_time,departure_time,stop_sequence
",
        Status::Feed,
        "feed 2 stop_times.txt 0 stop_id\n",
    ),
    // A trip whose first call has no times, and one whose times fall.
    (
        "f/stop_times.txt",
        "trip_id,arrival_time,departure_time,stop_id,stop_sequence
T1,,,A,1
T1,08:10:00,08:10:00,B,2
",
        Status::Feed,
        "feed 10 stop_times.txt 1 arrival_time\n",
    ),
    (
        "f/stop_times.txt",
        "trip_id,arrival_time,departure_time,stop_id,stop_sequence
T1,08:00:00,08:00:00,A,1
T1,07:59:59,07:59:59,B,2
",
        Status::Feed,
        "feed 11 stop_times.txt 2 arrival_time\n",
    ),
    // A stop_sequence that stands twice in a trip.
    (
        "f/stop_times.txt",
        "trip_id,arrival_time,departure_time,stop_id,stop_sequence
T1,08:00:00,08:00:00,A,1
T1,08:10:00,08:10:00,B,2
T2,08:20:00,08:20:00,C,1
T1,08:00:00,08:00:00,A,1
",
        Status::Feed,
        "feed 7 stop_times.txt 4 stop_sequence\n",
    ),
    (
        "f/trips.txt",
        "route_id,service_id,trip_id
R,S,T1
R,S,T2
Q,S,T3
",
        Status::Feed,
        "feed 8 trips.txt 3 route_id\n",
    ),
    (
        "f/calendar.txt",
        "",
        Status::Feed,
        "feed 1 calendar.txt 0 -\n",
    ),
    (
        "f/agency.txt",
        "agency_id,agency_timezone
X,Europe/Berlin
",
        Status::Feed,
        "feed 9 agency.txt 1 agency_timezone\n",
    ),
    // Starts at 08:00, 08:20 and 08:40.
    (
        "f/frequencies.txt",
        "trip_id,start_time,end_time,headway_secs
T1,08:00:00,09:00:00,1200
",
        Status::Done,
        "stops=4 trips=3 runs=5 calls=13 passed=0\n",
    ),
    (
        "f/frequencies.txt",
        "trip_id,start_time,end_time,headway_secs
T1,08:00:00,09:00:00,1200
T1,8:00:00,10:00:00,600
",
        Status::Feed,
        "feed 7 frequencies.txt 2 start_time\n",
    ),
    // Starts that two rows give count once; a row that ends when it starts gives none.
    (
        "f/frequencies.txt",
        "trip_id,start_time,end_time,headway_secs
T1,08:00:00,09:00:00,1200
T1,08:20:00,09:20:00,1200
T2,08:00:00,08:00:00,60
",
        Status::Done,
        "stops=4 trips=3 runs=5 calls=14 passed=0\n",
    ),
    // Of seven days from a Monday on its weekdays are Monday, Tuesday and Sunday, and the last is after its end.
    (
        "f/calendar.txt",
        "service_id,monday,tuesday,wednesday,thursday,friday,saturday,sunday,start_date,end_date
S,1,1,0,0,0,0,1,20240501,20240511
",
        Status::Done,
        "stops=4 trips=3 runs=6 calls=14 passed=0\n",
    ),
    // Two days are added, and the Monday is removed.
    (
        "f/calendar_dates.txt",
        "service_id,date,exception_type
S,20240507,1
S,20240508,1
S,20240506,2
",
        Status::Done,
        "stops=4 trips=3 runs=6 calls=14 passed=0\n",
    ),
    // A trip whose last call has no times.
    (
        "f/stop_times.txt",
        "trip_id,arrival_time,departure_time,stop_id,stop_sequence
T1,08:00:00,08:00:00,A,1
T1,,,B,2
",
        Status::Feed,
        "feed 10 stop_times.txt 2 arrival_time\n",
    ),
];

/// Commands over the feed with some files changed.
const PLANS: [Case; 26] = [
    Case {
        changes: &[],
        line: "plan f from=stop:A&to=stop:D&time=1714981600&window=1800&page=1",
        status: Status::Done,
        output: FIRST_PAGE,
    },
    Case {
        changes: &[],
        line: "plan f from=stop:A&to=stop:D&time=1714981600&window=1800&page=1&cursor=v1-0-1714982400-1714984200-2-341900",
        status: Status::Done,
        output: SECOND_PAGE,
    },
    Case {
        changes: &[],
        line: "plan f from=stop:A&to=stop:D&time=1714981600&window=1800&page=1&cursor=v1-0-1714982400-1714984800-1-300000",
        status: Status::Done,
        output: NOTHING,
    },
    // The cursor is of another commit, and the client was told of a later one.
    Case {
        changes: &[],
        line: "plan f from=stop:A&to=stop:D&time=1714981600&window=1800&cursor=v1-7-1714982400-1714984800-1-300000&at_least=8",
        status: Status::Done,
        output: MOVED_AND_BEHIND,
    },
    Case {
        changes: &[],
        line: "plan f from=stop:B&to=stop:C&time=1714981600&window=60",
        status: Status::Done,
        output: ON_FOOT,
    },
    Case {
        changes: &[],
        line: "plan f from=stop:A&to=stop:D&time=1714981600&window=1800&rides=1",
        status: Status::Done,
        output: SECOND_PAGE,
    },
    Case {
        changes: &[],
        line: "plan f from=stop:A&to=stop:D&time=1714981800&window=600",
        status: Status::Done,
        output: EARLIER_TRIP,
    },
    Case {
        changes: &[],
        line: "plan f from=at:0,0.004&to=stop:D&time=1714981600&window=1800",
        status: Status::Done,
        output: FROM_A_POINT,
    },
    Case {
        changes: &[],
        line: "plan f from=stop:A&time=1714981600&window=1800",
        status: Status::Request,
        output: "request missing to\n",
    },
    Case {
        changes: &[],
        line: "plan f from=stop:A&to=stop:Q&time=1714981600",
        status: Status::Request,
        output: "request unknown to\n",
    },
    Case {
        changes: &[],
        line: "plan f from=stop:A&to=stop:D&time=1714981600&window=86401",
        status: Status::Request,
        output: "request bad window\n",
    },
    Case {
        changes: &[],
        line: "plan f from=stop:A&to=stop:D&time=1714981600&page=1&page=1",
        status: Status::Request,
        output: "request twice page\n",
    },
    // A bad query over a bad feed; words that are no command.
    Case {
        changes: &[],
        line: "plan g to=stop:D",
        status: Status::Feed,
        output: "feed 1 agency.txt 0 -\n",
    },
    Case {
        changes: &[],
        line: "plan f",
        status: Status::Words,
        output: "words\n",
    },
    Case {
        changes: &[],
        line: "check f f",
        status: Status::Words,
        output: "words\n",
    },
    Case {
        changes: &[],
        line: "serve f",
        status: Status::Words,
        output: "words\n",
    },
    // A least time of the change, kept and missed by a second.
    Case {
        changes: &[SampleFile {
            name: "f/transfers.txt",
            text: "from_stop_id,to_stop_id,transfer_type,min_transfer_time
B,C,2,600
",
        }],
        line: "plan f from=stop:A&to=stop:D&time=1714981600&window=1800",
        status: Status::Done,
        output: BOTH,
    },
    Case {
        changes: &[SampleFile {
            name: "f/transfers.txt",
            text: "from_stop_id,to_stop_id,transfer_type,min_transfer_time
B,C,2,601
",
        }],
        line: "plan f from=stop:A&to=stop:D&time=1714981600&window=1800",
        status: Status::Done,
        output: SECOND_PAGE,
    },
    // A call whose times stand between two others, and no trips at all.
    Case {
        changes: &[SampleFile {
            name: "f/stop_times.txt",
            text: "trip_id,arrival_time,departure_time,stop_id,stop_sequence
T1,08:00:00,08:00:00,A,1
T1,,,B,2
T1,08:40:00,08:40:00,D,3
",
        }],
        line: "plan f from=stop:A&to=stop:B&time=1714981600&window=1800",
        status: Status::Done,
        output: BETWEEN_TIMES,
    },
    Case {
        changes: &[SampleFile {
            name: "f/stop_times.txt",
            text: "trip_id,arrival_time,departure_time,stop_id,stop_sequence
",
        }],
        line: "plan f from=stop:A&to=stop:D&time=1714981600&window=1800",
        status: Status::Done,
        output: NOTHING,
    },
    Case {
        changes: &AFTER_MIDNIGHT,
        line: "plan f --days 2 from=stop:A&to=stop:B&time=1715040000&window=1800",
        status: Status::Done,
        output: BEHIND_MIDNIGHT,
    },
    Case {
        changes: &WALK_OR_RIDE,
        line: "plan f from=stop:E&to=stop:D&time=1714989600&window=60",
        status: Status::Done,
        output: BY_RIDE,
    },
    // More calls than are allowed, of starts that are counted and never listed.
    Case {
        changes: &[
            SampleFile {
                name: "f/stop_times.txt",
                text: "trip_id,arrival_time,departure_time,stop_id,stop_sequence
T1,00:01:00,00:01:00,A,1
T1,00:02:00,00:02:00,A,2
T1,00:03:00,00:03:00,A,3
T1,00:04:00,00:04:00,A,4
T1,00:05:00,00:05:00,A,5
T1,00:06:00,00:06:00,A,6
T1,00:07:00,00:07:00,A,7
T1,00:08:00,00:08:00,A,8
T1,00:09:00,00:09:00,A,9
T1,00:10:00,00:10:00,A,10
T1,00:11:00,00:11:00,A,11
T1,00:12:00,00:12:00,A,12
",
            },
            SampleFile {
                name: "f/frequencies.txt",
                text: "trip_id,start_time,end_time,headway_secs
T1,00:00:00,999:59:59,1
T1,00:00:01,999:59:59,1
T1,00:00:02,999:59:59,2
",
            },
        ],
        line: "check f",
        status: Status::Feed,
        output: "feed 13 stop_times.txt 0 -\n",
    },
    Case {
        changes: &[SampleFile {
            name: "f/frequencies.txt",
            text: "trip_id,start_time,end_time,headway_secs
T1,08:00:00,09:00:00,1200
",
        }],
        line: "plan f from=stop:A&to=stop:D&time=1714981600&window=3600",
        status: Status::Done,
        output: BY_STARTS,
    },
    // The first arrival is moved to before the day of service.
    Case {
        changes: &[
            SampleFile {
                name: "f/stop_times.txt",
                text: "trip_id,arrival_time,departure_time,stop_id,stop_sequence
T1,07:50:00,08:00:00,A,1
T1,08:40:00,08:40:00,D,3
",
            },
            SampleFile {
                name: "f/frequencies.txt",
                text: "trip_id,start_time,end_time,headway_secs
T1,00:05:00,00:06:00,60
",
            },
        ],
        line: "plan f from=stop:A&to=stop:D&time=1714953600&window=600",
        status: Status::Done,
        output: BEFORE_THE_DAY,
    },
    // The second start stands behind midnight.
    Case {
        changes: &[SampleFile {
            name: "f/frequencies.txt",
            text: "trip_id,start_time,end_time,headway_secs
T1,23:50:00,24:10:00,600
",
        }],
        line: "plan f from=stop:A&to=stop:D&time=1715040000&window=600",
        status: Status::Done,
        output: START_BEHIND_MIDNIGHT,
    },
];

fn check_cases() -> &'static [(&'static str, &'static str, Status, &'static str)] {
    &CHECKS
}

fn plan_cases() -> &'static [Case] {
    &PLANS
}

fn words(alloc: Global, line: &str) -> Result<Vec<String>, Fail> {
    let mut words = Vec::new(alloc);
    for word in line.split(' ') {
        words.push(String::from_str(alloc, word)?)?;
    }
    for word in OPTIONS.split(' ') {
        words.push(String::from_str(alloc, word)?)?;
    }
    Ok(words)
}

/// A body without the blanks of its layout, and a line feed; another line as it stands.
fn bytes_of(alloc: Global, output: &str) -> Result<Vec<u8>, Fail> {
    let is_body = output.contains('{');
    let mut bytes = Vec::new(alloc);
    for byte in output.as_bytes() {
        if !is_body || (*byte != b' ' && *byte != b'\n') {
            bytes.push(*byte)?;
        }
    }
    if is_body {
        bytes.push(b'\n')?;
    }
    Ok(bytes)
}

/// Runs a command over a folder and a sink that takes 7 bytes at a time, and compares the status and what was
/// written.
fn expect(
    rt: &impl Abort,
    alloc: Global,
    folder: &mut MemoryFolder,
    write_fails: &[u64],
    line: &str,
    status: Status,
    output: &str,
) -> Result<(), Fail> {
    let fails = List::from_vec(Vec::from_slice(alloc, write_fails)?);
    let mut out = MemorySink::new(List::new(alloc), fails, 7);
    let words = words(alloc, line)?;
    let ended = run_offline(alloc, &words, folder, &mut out);
    assert_eq!(rt; ended, status, "{line}");
    let output = bytes_of(alloc, output)?;
    assert_eq!(rt; out.bytes.as_slice(), output.as_slice(), "{line}");
    Ok(())
}

fn folder(alloc: Global, changes: &[SampleFile], fails: &[u64]) -> Result<MemoryFolder, Fail> {
    let files = files_of(alloc, &TWO_WAYS, changes)?;
    let fails = List::from_vec(Vec::from_slice(alloc, fails)?);
    Ok(MemoryFolder::new(files, fails))
}

#[test]
fn checks(rt: HostRuntime) -> Result<(), Fail> {
    let alloc = rt.alloc();
    for (name, text, status, output) in check_cases() {
        let mut folder = folder(alloc, &[SampleFile { name, text }], &[])?;
        expect(&rt, alloc, &mut folder, &[], "check f", *status, output)?;
    }
    Ok(())
}

#[test]
fn plans(rt: HostRuntime) -> Result<(), Fail> {
    let alloc = rt.alloc();
    for case in plan_cases() {
        let mut folder = folder(alloc, case.changes, &[])?;
        expect(
            &rt,
            alloc,
            &mut folder,
            &[],
            case.line,
            case.status,
            case.output,
        )?;
    }
    Ok(())
}

/// How much of the counts was written before the write of this number, which fails.
const FRONTS: [(u64, &str); 6] = [
    (1, ""),
    (2, "stops=4"),
    (3, "stops=4 trips="),
    (4, "stops=4 trips=3 runs="),
    (5, "stops=4 trips=3 runs=3 calls"),
    (6, "stops=4 trips=3 runs=3 calls=7 pass"),
];

/// The feed and the command once more for each read of a file and each piece of the output, which fails.
#[test]
fn failures(rt: HostRuntime) -> Result<(), Fail> {
    let alloc = rt.alloc();
    for read in 1..=15u64 {
        let mut folder = folder(alloc, &[], &[read])?;
        expect(
            &rt,
            alloc,
            &mut folder,
            &[],
            "check f",
            Status::Read,
            "read\n",
        )?;
    }
    for (write, output) in FRONTS {
        let mut folder = folder(alloc, &[], &[])?;
        let status = Status::Write;
        expect(&rt, alloc, &mut folder, &[write], "check f", status, output)?;
    }
    // The line of a refusal can't be written.
    let mut folder = folder(alloc, &[], &[1])?;
    expect(&rt, alloc, &mut folder, &[1], "check f", Status::Write, "")
}

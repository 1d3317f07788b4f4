use jiff::tz::TimeZone;
use otp_base::{List, Text};
use otp_model::{Cursor, Edges, Feed, Place, Profile, Request, Stop, Value, Zone};
use query_form::{QueryFault, TargetFault, read_query};
use std::alloc::Global;
use std::test::Fail;

fn stop(alloc: Global, id: &str, kind: u8) -> Result<Stop, Fail> {
    Ok(Stop {
        id: Text::from_str(alloc, id)?,
        name: Text::from_str(alloc, "")?,
        x: 0,
        y: 0,
        kind,
        parent: None,
    })
}

/// Two stops, a station, an entrance, and two stops whose ids need escapes.
pub fn feed(alloc: Global) -> Result<Feed, Fail> {
    let mut stops = List::new(alloc);
    stops.push(stop(alloc, "A", 0)?)?;
    stops.push(stop(alloc, "D", 0)?)?;
    stops.push(stop(alloc, "S", 1)?)?;
    stops.push(stop(alloc, "E", 2)?)?;
    stops.push(stop(alloc, "a+b&c", 0)?)?;
    stops.push(stop(alloc, "é x:y", 0)?)?;
    Ok(Feed {
        stops,
        trips: List::new(alloc),
        runs: List::new(alloc),
        zone: Zone {
            rule: TimeZone::UTC,
        },
        first_day: 0,
        days: 1,
    })
}

pub fn edges(alloc: Global) -> Edges {
    Edges {
        stops: List::new(alloc),
        from: List::new(alloc),
        profile: Profile {
            speed: 1_330,
            reach: 1_000_000,
            scale: 70_000,
        },
    }
}

/// What `from=stop:A&to=stop:D&time=1714981600` asks for.
pub const PLAIN: Request = Request {
    from: Place::Stop(0),
    to: Place::Stop(1),
    time: 1_714_981_600,
    window: 3_600,
    rides: 4,
    slack: 120,
    walk_points: 200,
    board_points: 60_000,
    page: 20,
    cursor: None,
    at_least: 0,
    pin: false,
};

/// What queries ask for.
fn asked() -> [(&'static str, Request); 5] {
    let cursor = Cursor {
        commit: 7,
        value: Value {
            departure: 1,
            arrival: 2,
            rides: 3,
            cost: 4,
        },
    };
    [
        ("from=stop:A&to=stop:D&time=1714981600", PLAIN),
        // Any order, others passed over, leading zeros, escaped names, empty pairs.
        (
            "time=01714981600&&x=1&x=2&t%6F=stop%3AD&from=stop:A&flag",
            PLAIN,
        ),
        (
            "from=stop:A&to=stop:D&time=1714981600&window=86400&rides=8&page=200",
            Request {
                window: 86_400,
                rides: 8,
                page: 200,
                ..PLAIN
            },
        ),
        (
            "from=stop:S&to=stop:a%2Bb%26c&time=0&window=1&rides=1&slack=0&walk_points=100&board_points=0&page=1&cursor=v1-7-1-2-3-4&at_least=1099511627776&pin=1",
            Request {
                from: Place::Stop(2),
                to: Place::Stop(4),
                time: 0,
                window: 1,
                rides: 1,
                slack: 0,
                walk_points: 100,
                board_points: 0,
                page: 1,
                cursor: Some(cursor),
                at_least: 1 << 40,
                pin: true,
            },
        ),
        // A latitude of 50.5 degrees and a longitude of -0.000001 degrees, rounded down.
        (
            "from=at:50.5,-0.000001&to=stop:%C3%A9+x:y&time=9999999999&slack=3600&walk_points=2000&board_points=1000000",
            Request {
                from: Place::At {
                    x: -70,
                    y: 5_615_347_500,
                },
                to: Place::Stop(5),
                time: 9_999_999_999,
                slack: 3_600,
                walk_points: 2_000,
                board_points: 1_000_000,
                ..PLAIN
            },
        ),
    ]
}

/// A query, its first fault, and the parameter that is named.
const FAULTS: [(&str, QueryFault, &str); 37] = [
    ("", QueryFault::Missing, "from"),
    ("from=stop:A&time=0", QueryFault::Missing, "to"),
    ("from=stop:A&to=stop:D", QueryFault::Missing, "time"),
    (
        "from=stop:A&to=stop:Q&time=0",
        QueryFault::UnknownPlace,
        "to",
    ),
    (
        "from=stop:E&to=stop:D&time=0",
        QueryFault::UnknownPlace,
        "from",
    ),
    (
        "from=stop:&to=stop:D&time=0",
        QueryFault::UnknownPlace,
        "from",
    ),
    (
        "from=stop:+A&to=stop:D&time=0",
        QueryFault::UnknownPlace,
        "from",
    ),
    (
        "from=stop:A%FF&to=stop:D&time=0",
        QueryFault::UnknownPlace,
        "from",
    ),
    ("from=A&to=stop:D&time=0", QueryFault::Bad, "from"),
    ("from=&to=stop:D&time=0", QueryFault::Bad, "from"),
    ("from=at:0&to=stop:D&time=0", QueryFault::Bad, "from"),
    ("from=at:,&to=stop:D&time=0", QueryFault::Bad, "from"),
    ("from=at:0,0,0&to=stop:D&time=0", QueryFault::Bad, "from"),
    (
        "from=at:90.000001,0&to=stop:D&time=0",
        QueryFault::Bad,
        "from",
    ),
    (
        "from=at:0,180.000001&to=stop:D&time=0",
        QueryFault::Bad,
        "from",
    ),
    (
        "from=stop:A&to=stop:D&time=10000000000",
        QueryFault::Bad,
        "time",
    ),
    ("from=stop:A&to=stop:D&time=-1", QueryFault::Bad, "time"),
    ("from=stop:A&to=stop:D&time=", QueryFault::Bad, "time"),
    ("from=stop:A&to=stop:D&time=+1", QueryFault::Bad, "time"),
    (
        "from=stop:A&to=stop:D&time=0000000000000000000",
        QueryFault::Bad,
        "time",
    ),
    (
        "from=stop:A&to=stop:D&time=0&window=86401",
        QueryFault::Bad,
        "window",
    ),
    (
        "from=stop:A&to=stop:D&time=0&window=0",
        QueryFault::Bad,
        "window",
    ),
    (
        "from=stop:A&to=stop:D&time=0&rides=9",
        QueryFault::Bad,
        "rides",
    ),
    (
        "from=stop:A&to=stop:D&time=0&rides=0",
        QueryFault::Bad,
        "rides",
    ),
    (
        "from=stop:A&to=stop:D&time=0&slack=3601",
        QueryFault::Bad,
        "slack",
    ),
    (
        "from=stop:A&to=stop:D&time=0&walk_points=99",
        QueryFault::Bad,
        "walk_points",
    ),
    (
        "from=stop:A&to=stop:D&time=0&walk_points=2001",
        QueryFault::Bad,
        "walk_points",
    ),
    (
        "from=stop:A&to=stop:D&time=0&board_points=1000001",
        QueryFault::Bad,
        "board_points",
    ),
    (
        "from=stop:A&to=stop:D&time=0&page=0",
        QueryFault::Bad,
        "page",
    ),
    (
        "from=stop:A&to=stop:D&time=0&page=201",
        QueryFault::Bad,
        "page",
    ),
    (
        "from=stop:A&to=stop:D&time=0&page=1&page=1",
        QueryFault::Twice,
        "page",
    ),
    (
        "from=stop:A&to=stop:D&time=0&cursor=v1-0-1-2-3-04",
        QueryFault::Bad,
        "cursor",
    ),
    (
        "from=stop:A&to=stop:D&time=0&cursor=",
        QueryFault::Bad,
        "cursor",
    ),
    (
        "from=stop:A&to=stop:D&time=0&at_least=1099511627777",
        QueryFault::Bad,
        "at_least",
    ),
    // The first of two faults, in the order of the parameters; of one, that it stands twice.
    (
        "page=0&to=stop:Q&from=stop:A&time=0",
        QueryFault::UnknownPlace,
        "to",
    ),
    (
        "at_least=x&cursor=x&from=stop:A&to=stop:D&time=0",
        QueryFault::Bad,
        "cursor",
    ),
    ("from=x&from=x&to=stop:D&time=0", QueryFault::Twice, "from"),
];

fn faults() -> &'static [(&'static str, QueryFault, &'static str)] {
    &FAULTS
}

/// What a query over the feed asks for, or its first fault, where the feed is small.
fn read(
    alloc: Global,
    query: &str,
    feed: &Feed,
    edges: &Edges,
) -> Option<Result<Request, TargetFault>> {
    if feed.stops.len() > 100 || edges.profile.scale > 111_195 {
        return None;
    }
    Some(read_query(alloc, query, feed, edges))
}

fn asks_for(answer: Option<Result<Request, TargetFault>>, wanted: &Request) -> bool {
    match answer {
        Some(Ok(request)) => request == *wanted,
        _ => false,
    }
}

fn has_fault(answer: Option<Result<Request, TargetFault>>, wanted: QueryFault, name: &str) -> bool {
    match answer {
        Some(Err(TargetFault::Query { cause, parameter })) => {
            cause == wanted && parameter.as_str() == name
        }
        _ => false,
    }
}

#[test]
fn reads_queries(rt: HostRuntime) -> Result<(), Fail> {
    let alloc = rt.alloc();
    let feed = feed(alloc)?;
    let edges = edges(alloc);
    for (query, wanted) in &asked() {
        assert!(rt;
            asks_for(read(alloc, query, &feed, &edges), wanted),
            "{query}"
        );
    }
    for (query, wanted, name) in faults() {
        assert!(rt;
            has_fault(read(alloc, query, &feed, &edges), *wanted, name),
            "{query}"
        );
    }
    Ok(())
}

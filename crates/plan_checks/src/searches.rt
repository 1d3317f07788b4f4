use otp_base::{List, Text};
use otp_model::{
    Call, Edge, Edges, Found, Place, Profile, Request, Run, RunName, Stop, StopNo, TripName, Value,
};
use plain_search::all_best;
use std::alloc::Global;
use std::process::Abort;
use std::test::Fail;

const A: StopNo = 0;

const B: StopNo = 1;

const C: StopNo = 2;

const D: StopNo = 3;

fn call(stop: StopNo, time: i64) -> Call {
    Call {
        stop,
        seq: 0,
        arrival: time,
        departure: time,
        board: true,
        alight: true,
    }
}

fn name_of(trip: u32) -> RunName {
    RunName {
        trip: TripName::Planned(trip),
        day: 0,
        start: None,
    }
}

fn run(alloc: Global, trip: u32, calls: &[Call]) -> Result<Run, Fail> {
    let calls = List::from_vec(Vec::from_slice(alloc, calls)?);
    Ok(Run {
        name: name_of(trip),
        calls,
    })
}

fn stop(alloc: Global, x: i64, y: i64, kind: u8, parent: Option<StopNo>) -> Result<Stop, Fail> {
    Ok(Stop {
        id: Text::from_str(alloc, "")?,
        name: Text::from_str(alloc, "")?,
        x,
        y,
        kind,
        parent,
    })
}

fn edge(to: StopNo, walk: u32, minimum: u32) -> Edge {
    Edge { to, walk, minimum }
}

/// Four stops: A; B and, 555,975 mm beside it, C; and D. A fifth is a station with B and C as children.
/// The change from B to C takes no less than `minimum`.
fn edges(alloc: Global, minimum: u32) -> Result<Edges, Fail> {
    let mut stops = List::new(alloc);
    stops.push(stop(alloc, 0, 0, 0, None)?)?;
    stops.push(stop(alloc, 0, 11_119_500, 0, Some(4))?)?;
    stops.push(stop(alloc, 555_975, 11_119_500, 0, Some(4))?)?;
    stops.push(stop(alloc, 0, 33_358_500, 0, None)?)?;
    stops.push(stop(alloc, 0, 22_000_000, 1, None)?)?;
    let mut from = List::new(alloc);
    for row in [
        [edge(A, 0, 0)].as_slice(),
        [edge(B, 0, 0), edge(C, 419, minimum)].as_slice(),
        [edge(B, 419, 0), edge(C, 0, 0)].as_slice(),
        [edge(D, 0, 0)].as_slice(),
        [].as_slice(),
    ] {
        from.push(List::from_vec(Vec::from_slice(alloc, row)?))?;
    }
    Ok(Edges {
        stops,
        from,
        profile: Profile {
            speed: 1_330,
            reach: 1_000_000,
            scale: 111_195,
        },
    })
}

/// Three trips: A 08:00, B 08:10, D 08:40; C 08:20, D 08:30; A 07:50, D 08:40.
fn timetable(alloc: Global) -> Result<Vec<Run>, Fail> {
    let mut runs = Vec::new(alloc);
    runs.push(run(
        alloc,
        0,
        &[call(A, 28_800), call(B, 29_400), call(D, 31_200)],
    )?)?;
    runs.push(run(alloc, 1, &[call(C, 30_000), call(D, 30_600)])?)?;
    runs.push(run(alloc, 2, &[call(A, 28_200), call(D, 31_200)])?)?;
    Ok(runs)
}

/// A request with the usual numbers for departures from 28,000 on within half an hour.
fn between(from: Place, to: Place) -> Request {
    Request {
        from,
        to,
        time: 28_000,
        window: 1_800,
        rides: 4,
        slack: 120,
        walk_points: 200,
        board_points: 60_000,
        page: 20,
        cursor: None,
        at_least: 0,
        pin: false,
    }
}

fn a_to_d() -> Request {
    between(Place::Stop(A), Place::Stop(D))
}

fn value(departure: i64, arrival: i64, rides: u32, cost: u64) -> Value {
    Value {
        departure,
        arrival,
        rides,
        cost,
    }
}

fn search(
    rt: &impl Abort,
    alloc: Global,
    runs: &[Run],
    edges: &Edges,
    request: &Request,
) -> Result<Vec<Found>, Fail> {
    if !request.can_search(runs, edges) {
        assert!(rt; false, "what is searched is out of range");
        return Ok(Vec::new(alloc));
    }
    Ok(all_best(alloc, runs, edges, request)?)
}

/// Compares the values that a search finds.
fn expect(
    rt: &impl Abort,
    alloc: Global,
    runs: &[Run],
    edges: &Edges,
    request: &Request,
    values: &[Value],
) -> Result<(), Fail> {
    let found = search(rt, alloc, runs, edges, request)?;
    let found: Vec<Value> = found.iter().map(|found| found.value).collect(alloc)?;
    assert_eq!(rt; found.as_slice(), values);
    Ok(())
}

/// Stations and coordinates at both ends, and a change on foot that is just caught.
#[test]
fn finds_the_worked_values(rt: HostRuntime) -> Result<(), Fail> {
    let alloc = rt.alloc();
    let runs = timetable(alloc)?;
    let edges = edges(alloc, 600)?;
    let near_a = Place::At { x: 444_780, y: 0 };
    let near_d = Place::At {
        x: 0,
        y: 33_491_500,
    };
    for (request, values) in [
        (
            between(near_a, near_d),
            [
                value(28_465, 30_700, 2, 428_900),
                value(28_465, 31_300, 1, 387_000),
            ]
            .as_slice(),
        ),
        (
            between(Place::Stop(A), Place::Stop(4)),
            [value(28_800, 29_400, 1, 120_000)].as_slice(),
        ),
        (
            Request {
                slack: 182,
                ..a_to_d()
            },
            [value(28_800, 31_200, 1, 300_000)].as_slice(),
        ),
    ] {
        expect(&rt, alloc, &runs, &edges, &request, values)?;
    }
    Ok(())
}

/// Ties in arrival, in rides and in cost.
#[test]
fn keeps_each_best_value(rt: HostRuntime) -> Result<(), Fail> {
    let alloc = rt.alloc();
    let edges = edges(alloc, 0)?;
    let mut ties = Vec::new(alloc);
    ties.push(run(alloc, 0, &[call(A, 28_000), call(D, 29_000)])?)?;
    ties.push(run(alloc, 1, &[call(A, 28_100), call(B, 28_400)])?)?;
    ties.push(run(alloc, 2, &[call(B, 28_520), call(D, 29_000)])?)?;
    ties.push(run(alloc, 3, &[call(A, 28_200), call(D, 29_200)])?)?;
    expect(
        &rt,
        alloc,
        &ties,
        &edges,
        &a_to_d(),
        &[
            value(28_000, 29_000, 1, 160_000),
            value(28_100, 29_000, 2, 210_000),
            value(28_200, 29_200, 1, 160_000),
        ],
    )
}

use otp_base::{List, Text};
use otp_model::{Edge, Edges, Place, Profile, Stop, StopNo, TransferRow};
use std::alloc::Global;
use std::test::Fail;
use walk_table::{direct, edges, reach_of};

fn stop(alloc: Global, x: i64, kind: u8, parent: Option<StopNo>) -> Result<Stop, Fail> {
    Ok(Stop {
        id: Text::from_str(alloc, "")?,
        name: Text::from_str(alloc, "")?,
        x,
        y: 0,
        kind,
        parent,
    })
}

/// Stops at 0, 300 and 1,300 mm, a station of the last two, and an entrance at 0. The reach is 1,000 mm.
fn small_edges(alloc: Global) -> Result<Edges, Fail> {
    let mut stops = List::new(alloc);
    stops.push(stop(alloc, 0, 0, None)?)?;
    stops.push(stop(alloc, 300, 0, Some(3))?)?;
    stops.push(stop(alloc, 1_300, 0, Some(3))?)?;
    stops.push(stop(alloc, 500, 1, None)?)?;
    stops.push(stop(alloc, 0, 2, Some(3))?)?;
    Ok(Edges {
        stops,
        from: List::new(alloc),
        profile: Profile {
            speed: 200,
            reach: 1_000,
            scale: 111_195,
        },
    })
}

/// A place, and each stop within reach of it with its seconds.
const REACHED: [(Place, &[(StopNo, u32)]); 7] = [
    // 1,300 mm are out of reach; 300 mm take two seconds.
    (Place::Stop(0), &[(0, 0), (1, 2)]),
    // Exactly at the reach: 1,000 mm take five seconds.
    (Place::Stop(1), &[(0, 2), (1, 0), (2, 5)]),
    // The children of the station, each at its own point; the stop at 0 from the nearer one.
    (Place::Stop(3), &[(0, 2), (1, 0), (2, 0)]),
    // An entrance has its own point and is not reached.
    (Place::Stop(4), &[(0, 0), (1, 2)]),
    (Place::At { x: 2_301, y: 0 }, &[]),
    (Place::At { x: 2_300, y: 0 }, &[(2, 5)]),
    // A square of 601 * 601 + 1 has the distance 602, four seconds.
    (Place::At { x: 901, y: 1 }, &[(0, 5), (1, 4), (2, 2)]),
];

/// Two places, and the seconds of the walk between them.
const DIRECT: [(Place, Place, Option<u32>); 10] = [
    (Place::Stop(0), Place::Stop(1), Some(2)),
    // Exactly at the reach, and beyond it.
    (Place::Stop(1), Place::Stop(2), Some(5)),
    (Place::Stop(0), Place::Stop(2), None),
    // The nearer child of a station, be it the first or the last.
    (Place::Stop(0), Place::Stop(3), Some(2)),
    (Place::At { x: 600, y: 0 }, Place::Stop(3), Some(2)),
    (Place::Stop(3), Place::At { x: 2_000, y: 0 }, Some(4)),
    (Place::Stop(3), Place::Stop(3), Some(0)),
    // An entrance has its own point.
    (Place::Stop(4), Place::At { x: 1_000, y: 0 }, Some(5)),
    (Place::Stop(4), Place::At { x: 1_001, y: 0 }, None),
    (Place::At { x: 0, y: 3 }, Place::At { x: 4, y: 0 }, Some(1)),
];

fn reaches(
    alloc: Global,
    edges: &Edges,
    place: &Place,
    wanted: &[(StopNo, u32)],
) -> Result<bool, Fail> {
    let stops = edges.stops.as_slice();
    if !edges.profile.can_walk() || stops.len() > 100 || !place.is_of(stops) {
        return Ok(false);
    }
    let found = reach_of(alloc, edges, place)?;
    Ok(
        found
            .iter()
            .map(|reach| (reach.stop, reach.seconds))
            .eq(wanted.iter().copied()),
    )
}

fn walks(edges: &Edges, from: &Place, to: &Place, wanted: Option<u32>) -> bool {
    let stops = edges.stops.as_slice();
    if !edges.profile.can_walk() || !from.is_of(stops) || !to.is_of(stops) {
        return false;
    }
    direct(edges, from, to) == wanted
}

#[test]
fn reaches_stops_and_walks_directly(rt: HostRuntime) -> Result<(), Fail> {
    let alloc = rt.alloc();
    let edges = small_edges(alloc)?;
    for (place, wanted) in &REACHED {
        assert!(rt; reaches(alloc, &edges, place, wanted)?, "{place:?}");
    }
    for (from, to, wanted) in &DIRECT {
        assert!(rt; walks(&edges, from, to, *wanted), "{from:?} {to:?}");
    }
    Ok(())
}

/// B and C of 555,975 mm between them; a station with two children that are 1,000,000 mm apart, exactly the
/// reach; one millimetre farther a stop that is 5,000,001 mm from B; an entrance; a station without
/// children; and a stop that is near the second child of the station alone.
fn stops(alloc: Global) -> Result<List<Stop>, Fail> {
    let mut stops = List::new(alloc);
    for (x, kind, parent) in [
        (0, 0, None),
        (555_975, 0, None),
        (0, 1, None),
        (3_000_000, 0, Some(2)),
        (4_000_000, 0, Some(2)),
        (5_000_001, 0, None),
        (0, 2, None),
        (0, 1, None),
        (8_500_000, 0, None),
    ] {
        stops.push(stop(alloc, x, kind, parent)?)?;
    }
    Ok(stops)
}

/// Rows of transfers as (from, to, transfer type, least time), and the edges from a stop then as (to, walk, least time), with how
/// many rows are passed over.
struct Case {
    rows: &'static [(StopNo, StopNo, u8, u32)],
    from: usize,
    edges: &'static [(StopNo, u32, u32)],
    passed: u64,
}

const CASES: &[Case] = &[
    Case {
        rows: &[],
        from: 0,
        edges: &[(0, 0, 0), (1, 419, 0)],
        passed: 0,
    },
    // Exactly at the reach; the next stop is one millimetre beyond it.
    Case {
        rows: &[],
        from: 4,
        edges: &[(3, 752, 0), (4, 0, 0)],
        passed: 0,
    },
    // An entrance and a station lead to themselves.
    Case {
        rows: &[],
        from: 6,
        edges: &[(6, 0, 0)],
        passed: 0,
    },
    Case {
        rows: &[(0, 1, 2, 600)],
        from: 0,
        edges: &[(0, 0, 0), (1, 419, 600)],
        passed: 0,
    },
    // The greatest minimum; only type 2 has one.
    Case {
        rows: &[(0, 1, 2, 600), (0, 1, 2, 601), (0, 1, 2, 9), (0, 1, 1, 700)],
        from: 0,
        edges: &[(0, 0, 0), (1, 419, 601)],
        passed: 0,
    },
    // Type 3 wins, in its direction alone.
    Case {
        rows: &[(0, 1, 3, 0), (0, 1, 2, 600)],
        from: 0,
        edges: &[(0, 0, 0)],
        passed: 0,
    },
    Case {
        rows: &[(0, 1, 3, 0)],
        from: 1,
        edges: &[(0, 419, 0), (1, 0, 0)],
        passed: 0,
    },
    Case {
        rows: &[(0, 0, 3, 0)],
        from: 0,
        edges: &[(1, 419, 0)],
        passed: 0,
    },
    // A station stands for both its children.
    Case {
        rows: &[(0, 2, 1, 0)],
        from: 0,
        edges: &[(0, 0, 0), (1, 419, 0), (3, 2_256, 0), (4, 3_008, 0)],
        passed: 0,
    },
    Case {
        rows: &[(2, 2, 2, 60)],
        from: 3,
        edges: &[(3, 0, 60), (4, 752, 60)],
        passed: 0,
    },
    // Of two pairs one is near.
    Case {
        rows: &[(8, 2, 0, 0)],
        from: 8,
        edges: &[(4, 3_384, 0), (8, 0, 0)],
        passed: 0,
    },
    // Type 3 holds beyond 5,000,000 mm too.
    Case {
        rows: &[(0, 5, 3, 0)],
        from: 5,
        edges: &[(5, 0, 0)],
        passed: 0,
    },
    Case {
        rows: &[
            (0, 1, 4, 600),
            (0, 1, 5, 600),
            (6, 1, 3, 0),
            (0, 7, 3, 0),
            (0, 5, 2, 600),
        ],
        from: 0,
        edges: &[(0, 0, 0), (1, 419, 0)],
        passed: 5,
    },
];

fn cases() -> &'static [Case] {
    CASES
}

fn rows_of(alloc: Global, case: &Case) -> Result<Vec<TransferRow>, Fail> {
    let mut rows = Vec::new(alloc);
    for (from, to, kind, minimum) in case.rows {
        rows.push(TransferRow {
            from: Some(*from),
            to: Some(*to),
            kind: *kind,
            minimum: *minimum,
            narrow: false,
        })?;
    }
    Ok(rows)
}

fn are_edges(found: &[Edge], wanted: &[(StopNo, u32, u32)]) -> bool {
    found
        .iter()
        .map(|edge| (edge.to, edge.walk, edge.minimum))
        .eq(wanted.iter().copied())
}

/// Whether the edges are those of the case.
fn is_right(alloc: Global, stops: &[Stop], case: &Case) -> Result<bool, Fail> {
    let profile = Profile {
        speed: 1_330,
        reach: 1_000_000,
        scale: 111_195,
    };
    if stops.len() > 100 {
        return Ok(false);
    }
    let rows = rows_of(alloc, case)?;
    let walks = edges(alloc, stops, &rows, &profile)?;
    let list = walks
        .edges
        .from
        .as_slice()
        .get(case.from)
        .ok_or("no such stop")?;
    Ok(are_edges(list.as_slice(), case.edges) && walks.passed == case.passed)
}

#[test]
fn leads_from_stop_to_stop(rt: HostRuntime) -> Result<(), Fail> {
    let alloc = rt.alloc();
    let stops = stops(alloc)?;
    for case in cases() {
        assert!(rt;
            is_right(alloc, stops.as_slice(), case)?,
            "{:?} from {}",
            case.rows,
            case.from
        );
    }
    Ok(())
}

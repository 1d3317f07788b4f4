ghost use Rattle.std.specs.List.{All};
ghost use Rattle.otp_model.specs.Ranges.{CanSearch, IsTimely};
ghost use Rattle.plan_bench.specs.Ready.{IsReady};
ghost use Rattle.query_form.specs.Query.{IsAsked};
ghost use Rattle.snapshot_store.specs.Snapshots.{runs_of};

use crate::stop::Stop;
use crate::sums::Sums;
use command_words::MessageWord;
use feed_load::Loaded;
use otp_base::{DiskFolder, read_file};
use otp_model::{Found, Request};
use plain_search::all_best;
use query_form::read_query;
use range_search::best;
use snapshot_store::Snapshot;
use std::time::Instant;

/// The most bytes of a file of queries.
const MOST_BYTES: u64 = 16_777_216;

/// What is told beside sums.
#[derive(Clone, Copy)]
pub struct Telling {
    pub times: bool,
    pub values: bool,
    pub compares: bool,
}

/// What plans gave, and the microseconds that they took, each the least of its repetitions.
#[derive(Clone, Copy)]
struct Measured {
    sums: Sums,
    queries: u64,
    micros: u128,
}

/// Plans the queries of a file, one a line.
pub fn plan_file(
    rt: &HostRuntime,
    telling: Telling,
    loaded: &Loaded,
    snapshot: &Snapshot,
    file: &MessageWord<'_>,
) -> Result<(), Stop>
    requires ready { IsReady loaded.now.feed loaded.now.edges }
    requires timely { All IsTimely (runs_of snapshot.now) }
{
    let mut folder = DiskFolder::new(rt);
    let Ok(bytes) = read_file(rt.alloc(), &mut folder, file.name, MOST_BYTES) else {
        return Err(Stop::Queries);
    };
    let Ok(text) = std::str::from_utf8(bytes.as_slice()) else {
        return Err(Stop::Queries);
    };
    let mut measured = Measured {
        sums: Sums::NONE,
        queries: 0,
        micros: 0,
    };
    for line in text.lines() {
        measured = with_query(rt, telling, loaded, snapshot, line, file.feed_no, &measured)?;
    }
    report(rt, telling, &measured)
}

fn report(rt: &HostRuntime, telling: Telling, measured: &Measured) -> Result<(), Stop> {
    let Measured {
        sums,
        queries,
        micros,
    } = *measured;
    if telling.times {
        println!(rt; "mean us={}", micros / u128::from(queries.max(1)))?;
    }
    println!(rt;
        "plans queries={queries} journeys={} rides={} cost={}",
        sums.journeys, sums.rides, sums.cost
    )?;
    Ok(())
}

/// With what the plans of a query gave.
fn with_query(
    rt: &HostRuntime,
    telling: Telling,
    loaded: &Loaded,
    snapshot: &Snapshot,
    line: &str,
    times: u32,
    measured: &Measured,
) -> Result<Measured, Stop>
    requires ready { IsReady loaded.now.feed loaded.now.edges }
    requires timely { All IsTimely (runs_of snapshot.now) }
{
    let Ok(request) = read_query(rt.alloc(), line, &loaded.feed, &loaded.edges) else {
        return Err(Stop::Queries);
    };
    let number = measured.queries.saturating_add(1);
    let mut least = u128::MAX;
    for _ in 1..times {
        least = least.min(planned(rt, loaded, snapshot, &request)?.micros);
    }
    let Plan { list, micros } = planned(rt, loaded, snapshot, &request)?;
    let least = least.min(micros);
    tell(rt, telling, number, &list, least)?;
    if telling.compares {
        compare(rt, loaded, &request, &list)?;
    }
    Ok(Measured {
        sums: measured.sums.with(&list),
        queries: number,
        micros: measured.micros.saturating_add(least),
    })
}

/// The whole list of a request, and the microseconds of its search.
#[derive(Drop)]
struct Plan {
    list: Vec<Found>,
    micros: u128,
}

fn planned(
    rt: &HostRuntime,
    loaded: &Loaded,
    snapshot: &Snapshot,
    request: &Request,
) -> Result<Plan, Stop>
    requires ready { IsReady loaded.now.feed loaded.now.edges }
    requires timely { All IsTimely (runs_of snapshot.now) }
    requires asked { IsAsked loaded.now.feed.stops request.now }
{
    let start = Instant::now(rt)?;
    let list = best(rt.alloc(), snapshot, &loaded.edges, request)?;
    let micros = start.elapsed(rt)?.as_micros();
    Ok(Plan { list, micros })
}

/// Tells of a plan what is asked for.
fn tell(
    rt: &HostRuntime,
    telling: Telling,
    number: u64,
    list: &[Found],
    micros: u128,
) -> Result<(), Stop> {
    if telling.times {
        println!(rt; "query number={number} us={micros} journeys={}", list.len())?;
    }
    if telling.values {
        tell_values(rt, number, list)?;
    }
    Ok(())
}

fn tell_values(rt: &HostRuntime, number: u64, list: &[Found]) -> Result<(), Stop> {
    for found in list {
        let value = found.value;
        println!(rt;
            "value query={number} departure={} arrival={} rides={} cost={}",
            value.departure, value.arrival, value.rides, value.cost
        )?;
    }
    Ok(())
}

/// Compares a whole list with that by enumeration.
fn compare(rt: &HostRuntime, loaded: &Loaded, request: &Request, list: &[Found]) -> Result<(), Stop>
    requires ready { IsReady loaded.now.feed loaded.now.edges }
    requires asked { IsAsked loaded.now.feed.stops request.now }
{
    let other = all_best(
        rt.alloc(),
        loaded.feed.runs.as_slice(),
        &loaded.edges,
        request,
    )?;
    if !have_same_values(list, &other) {
        return Err(Stop::Other);
    }
    Ok(())
}

fn have_same_values(list: &[Found], other: &[Found]) -> bool {
    if list.len() != other.len() {
        return false;
    }
    for n in 0..list.len() {
        if list[n].value != other[n].value {
            return false;
        }
    }
    true
}

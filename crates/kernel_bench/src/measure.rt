//! One kernel and its plain loop over the same columns.
ghost use Rattle.std.specs.Prelude.{◌≡◌, ◌<◌, ◌≤◌, length};
ghost use Rattle.std.specs.List.{All};
ghost use Rattle.lane_kernels.specs.Columns.{IsCoordinate, IsReach};

use crate::columns;
use lane_kernels::plain;
use std::io;
use std::time::{Duration, Instant};

// How a kernel is run.
#[derive(Clone, Copy, PartialEq, Eq)]
enum Form {
    Plain,
    Lanes,
}

// Each length is run over as many entries, and the least time of several runs counts, since the machine does other work too.
const ENTRIES: usize = 4_000_000;

const RUNS: usize = 15;

fn repeats(length: usize) -> usize {
    ENTRIES.checked_div(length).unwrap_or(0)
}

fn nanoseconds(time: Duration) -> u64 {
    time.as_secs()
        .wrapping_mul(1_000_000_000)
        .wrapping_add(u64::from(time.subsec_nanos()))
}

fn report(rt: &HostRuntime, name: &str, length: usize, plain: u64, lanes: u64) -> io::Result<()> {
    let percent = plain.wrapping_mul(100).checked_div(lanes).unwrap_or(0);
    println!(rt;
        "{name} {length} plain {plain} lanes {lanes} ratio {}.{:02}",
        percent / 100,
        percent % 100
    )
}

// No entry is as great, so the whole column is read.
fn time_first(rt: &HostRuntime, column: &[i64], form: Form) -> io::Result<u64> {
    let mut best = Duration::from_secs(1000);
    let mut total: usize = 0;
    for _ in 0..RUNS {
        let start = Instant::now(rt)?;
        for round in 0..repeats(column.len()) {
            let t = 3_000_000_000 + (round % 1024) as i64;
            total = total.wrapping_add(match form {
                Form::Plain => plain::first_at_least(column, t),
                Form::Lanes => lane_kernels::first_at_least(column, t),
            });
        }
        best = best.min(start.elapsed(rt)?);
    }
    keep(rt, total)?;
    Ok(nanoseconds(best))
}

// The total is looked at, so that no call is left out.
fn keep(rt: &HostRuntime, total: usize) -> io::Result<()> {
    if total == 1 {
        println!(rt; "one")?;
    }
    Ok(())
}

// Half of the times are early enough and no penalty is low enough.
fn time_covers(rt: &HostRuntime, times: &[i64], pens: &[i64], form: Form) -> io::Result<u64>
    requires { length times.now ≡ length pens.now }
{
    let mut best = Duration::from_secs(1000);
    let mut total: usize = 0;
    for _ in 0..RUNS {
        let start = Instant::now(rt)?;
        for round in 0..repeats(times.len()) {
            let t = 500_000_000 + (round % 1024) as i64;
            total = total.wrapping_add(match form {
                Form::Plain => plain::any_covers(times, pens, t, -1),
                Form::Lanes => lane_kernels::any_covers(times, pens, t, -1),
            } as usize);
        }
        best = best.min(start.elapsed(rt)?);
    }
    keep(rt, total)?;
    Ok(nanoseconds(best))
}

fn run_within(xs: &[i64], ys: &[i64], x: i64, reach: i64, out: &mut [bool], form: Form)
    requires lengths { (length xs.now ≡ length ys.now) × (length xs.now ≡ length out.old) }
    requires coordinates { All IsCoordinate xs.now × All IsCoordinate ys.now × IsCoordinate x }
    requires reachable { IsReach reach }
{
    match form {
        Form::Plain => plain::within(xs, ys, x, x, reach, out),
        Form::Lanes => lane_kernels::within(xs, ys, x, x, reach, out),
    }
}

fn time_within(
    rt: &HostRuntime,
    xs: &[i64],
    ys: &[i64],
    middle: u32,
    reach: u16,
    out: &mut [bool],
    form: Form,
) -> io::Result<u64>
    requires lengths { (length xs.now ≡ length ys.now) × (length xs.now ≡ length out.old) }
    requires coordinates { All IsCoordinate xs.now × All IsCoordinate ys.now }
{
    let mut best = Duration::from_secs(1000);
    for _ in 0..RUNS {
        let start = Instant::now(rt)?;
        for round in 0..repeats(xs.len()) {
            let x = i64::from(middle) + (round % 1024) as i64;
            run_within(xs, ys, x, i64::from(reach) * 16, out, form);
        }
        best = best.min(start.elapsed(rt)?);
    }
    Ok(nanoseconds(best))
}

pub fn time_all(rt: &HostRuntime, length: usize) -> io::Result<()> {
    let times = columns::numbers(rt.alloc(), length, 1, 1_000_000_000)?;
    let pens = columns::numbers(rt.alloc(), length, 2, 1_000_000_000)?;
    let plain = time_first(rt, &times, Form::Plain)?;
    report(
        rt,
        "first_at_least",
        length,
        plain,
        time_first(rt, &times, Form::Lanes)?,
    )?;
    let plain = time_covers(rt, &times, &pens, Form::Plain)?;
    report(
        rt,
        "any_covers",
        length,
        plain,
        time_covers(rt, &times, &pens, Form::Lanes)?,
    )?;
    time_points(rt, "within_far_apart", length, 200_000_000, 31_250)?;
    time_points(rt, "within_close_by", length, 2_000_000, 62_500)
}

// Points in a square of the given side, and a circle round its middle.
fn time_points(rt: &HostRuntime, name: &str, length: usize, side: u32, reach: u16) -> io::Result<()>
    requires { 0 < side }
{
    let xs = columns::numbers(rt.alloc(), length, 3, u64::from(side))?;
    let ys = columns::numbers(rt.alloc(), length, 4, u64::from(side))?;
    let mut out = columns::marks(rt.alloc(), length)?;
    let plain = time_within(rt, &xs, &ys, side / 2, reach, &mut out, Form::Plain)?;
    let lanes = time_within(rt, &xs, &ys, side / 2, reach, &mut out, Form::Lanes)?;
    report(rt, name, length, plain, lanes)
}

pub fn compare_all(rt: &HostRuntime, length: usize) -> io::Result<()> {
    let xs = columns::numbers(rt.alloc(), length, 1, 2_000_000)?;
    let ys = columns::numbers(rt.alloc(), length, 2, 2_000_000)?;
    let mut marked = columns::marks(rt.alloc(), length)?;
    let mut by_plain = columns::marks(rt.alloc(), length)?;
    run_within(&xs, &ys, 1_000_000, 1_000_000, &mut marked, Form::Lanes);
    run_within(&xs, &ys, 1_000_000, 1_000_000, &mut by_plain, Form::Plain);
    let first = lane_kernels::first_at_least(&xs, 1_999_000)
        == plain::first_at_least(&xs, 1_999_000);
    let covers = lane_kernels::any_covers(&xs, &ys, 1000, 1000)
        == plain::any_covers(&xs, &ys, 1000, 1000);
    println!(rt;
        "{length} entries: first_at_least {first}, any_covers {covers}, within {}",
        marked.as_slice() == by_plain.as_slice()
    )
}

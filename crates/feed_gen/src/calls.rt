//! `stop_times.txt`.
ghost use Rattle.std.specs.Prelude.{◌≡◌, ◌++◌, ◌+◌, ◌<◌, IfOk, OnOk, codes, decimal, length, string_bytes};
ghost use Rattle.otp_base.specs.EachAt.{EachAt};
ghost use Rattle.feed_gen.specs.Draws.{start_of, state_after};
ghost use Rattle.feed_gen.specs.Lines.{before_trip, stop_of};
ghost use Rattle.feed_gen.specs.Tables.{call_rows, call_text, line_rows, stop_times_file};
ghost use Rattle.feed_gen.specs.Texts.{clock, joined, trip_id};

use crate::draws::Draws;
use crate::lines::stops_of;
use crate::texts::{clock, trip_id, with_header};
use otp_base::Memory;
use std::alloc::{AllocError, Global};

/// `stop_times.txt`.
pub fn stop_times_file(alloc: Global, seed: u64) -> Result<String, Memory>
    ensures { IfOk result (λ text. string_bytes text ≡ stop_times_file seed) }
{
    let rows = all_rows(alloc, seed)?;
    let text = with_header(
        alloc,
        "trip_id,arrival_time,departure_time,stop_id,stop_sequence\n",
        &rows,
    )?;
    Ok(text)
}

#[tactic(auto, unfolding(crate::specs::Texts::joined))]
fn all_rows(alloc: Global, seed: u64) -> Result<String, Memory>
    ensures { IfOk result (λ text. string_bytes text ≡ joined (line_rows seed) 60) }
{
    let mut rows = String::new(alloc);
    for line in 0..60u32 {
        let more = line_rows(alloc, seed, line)?;
        rows.push_str(&more)?;
    }
    Ok(rows)
}

/// The rows of a line's trips.
fn line_rows(alloc: Global, seed: u64, line: u32) -> Result<String, Memory>
    ensures { IfOk result (λ text. string_bytes text ≡ line_rows seed line) }
{
    let mut draws = Draws::of(seed, line);
    let stops = stops_of(alloc, seed, line, &mut draws)?;
    trips_along(alloc, seed, line, &stops, &mut draws)
}

/// The rows of the trips along these stops.
#[tactic(auto, unfolding(crate::specs::Texts::joined))]
fn trips_along(
    alloc: Global,
    seed: u64,
    line: u32,
    stops: &[u32],
    draws: &mut Draws,
) -> Result<String, Memory>
    requires count { length stops.now ≡ 12 }
    requires each { EachAt (λ call stop. stop ≡ stop_of seed line call) stops.now }
    requires state { draws.old.state ≡ state_after (start_of seed line) 12 }
    ensures { IfOk result (λ text. string_bytes text ≡ line_rows seed line) }
{
    let mut rows = String::new(alloc);
    for trip in 0..100u32 {
        let more = call_rows(alloc, seed, line, trip, stops, draws)?;
        rows.push_str(&more)?;
    }
    Ok(rows)
}

/// The rows of one trip.
fn call_rows(
    alloc: Global,
    seed: u64,
    line: u32,
    trip: u32,
    stops: &[u32],
    draws: &mut Draws,
) -> Result<String, Memory>
    requires trip { trip < 100 }
    requires count { length stops.now ≡ 12 }
    requires each { EachAt (λ call stop. stop ≡ stop_of seed line call) stops.now }
    requires state { draws.old.state ≡ state_after (start_of seed line) (before_trip trip) }
    ensures rows { IfOk result (λ text. string_bytes text ≡ call_rows seed line trip) }
    ensures state { OnOk result (draws.new.state ≡ state_after (start_of seed line) (before_trip (trip + 1))) }
{
    let id = trip_id(alloc, line, trip)?;
    let mut time = 18_000 + 600 * trip + draws.draw(300);
    let mut rows = call_row(alloc, &id, time, stops[0], 1)?;
    for call in 0..11u32 {
        time += 60 + draws.draw(120);
        let row = call_row(alloc, &id, time, stops[call as usize + 1], call + 2)?;
        rows.push_str(&row)?;
    }
    Ok(rows)
}

fn call_row(
    alloc: Global,
    id: &str,
    time: u32,
    stop: u32,
    sequence: u32,
) -> Result<String, AllocError>
    ensures { IfOk result (λ text. string_bytes text ≡ call_text id.now (clock time) stop sequence) }
{
    let clock = clock(alloc, time)?;
    call_text(alloc, id, &clock, stop, sequence)
}

fn call_text(
    alloc: Global,
    id: &str,
    clock: &str,
    stop: u32,
    sequence: u32,
) -> Result<String, AllocError>
    ensures { IfOk result (λ text. string_bytes text ≡ call_text id.now clock.now stop sequence) }
{
    format!(in alloc; "{id},{clock},{clock},S{stop},{sequence}\n")
}

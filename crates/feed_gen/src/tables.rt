//! The files that say the same whatever the seed is.
ghost use Rattle.std.specs.Prelude.{◌≡◌, ◌++◌, ◌<◌, IfOk, codes, decimal, string_bytes};
ghost use Rattle.feed_gen.specs.Tables.{agency_file, calendar_file, route_row, routes_file, stop_row, stops_file, trip_row, trip_rows, trips_file};
ghost use Rattle.feed_gen.specs.Texts.{joined};

use crate::texts::{millionths, with_header};
use std::alloc::{AllocError, Global};

/// `agency.txt`.
pub const AGENCY: &str =
    "agency_id,agency_name,agency_url,agency_timezone\nX,Example,https://example.org,Etc/UTC\n";

/// `calendar.txt`.
pub const CALENDAR: &str =
    "service_id,monday,tuesday,wednesday,thursday,friday,saturday,sunday,start_date,end_date\nS,1,0,0,0,0,0,0,20240506,20240506\n";

/// `stops.txt`.
pub fn stops_file(alloc: Global) -> Result<String, AllocError>
    ensures { IfOk result (λ text. string_bytes text ≡ stops_file) }
{
    let rows = stop_rows(alloc)?;
    with_header(alloc, "stop_id,stop_name,stop_lat,stop_lon\n", &rows)
}

#[tactic(auto, unfolding(crate::specs::Texts::joined))]
fn stop_rows(alloc: Global) -> Result<String, AllocError>
    ensures { IfOk result (λ text. string_bytes text ≡ joined stop_row 400) }
{
    let mut rows = String::new(alloc);
    for stop in 0..400u32 {
        let row = stop_row(alloc, stop)?;
        rows.push_str(&row)?;
    }
    Ok(rows)
}

fn stop_row(alloc: Global, stop: u32) -> Result<String, AllocError>
    requires { stop < 400 }
    ensures { IfOk result (λ text. string_bytes text ≡ stop_row stop) }
{
    let lat = millionths(alloc, 4_000 * (stop / 20))?;
    let lon = millionths(alloc, 4_000 * (stop % 20))?;
    stop_at_degrees(alloc, stop, &lat, &lon)
}

fn stop_at_degrees(alloc: Global, stop: u32, lat: &str, lon: &str) -> Result<String, AllocError>
    ensures { IfOk result (λ text. string_bytes text ≡ codes "S" ++ (decimal stop ++ (codes ",S" ++ (decimal stop ++ (codes "," ++ (lat.now ++ (codes "," ++ (lon.now ++ codes "\n")))))))) }
{
    format!(in alloc; "S{stop},S{stop},{lat},{lon}\n")
}

/// `routes.txt`.
pub fn routes_file(alloc: Global) -> Result<String, AllocError>
    ensures { IfOk result (λ text. string_bytes text ≡ routes_file) }
{
    let rows = route_rows(alloc)?;
    with_header(
        alloc,
        "route_id,agency_id,route_short_name,route_type\n",
        &rows,
    )
}

#[tactic(auto, unfolding(crate::specs::Texts::joined))]
fn route_rows(alloc: Global) -> Result<String, AllocError>
    ensures { IfOk result (λ text. string_bytes text ≡ joined route_row 60) }
{
    let mut rows = String::new(alloc);
    for line in 0..60u32 {
        let row = route_row(alloc, line)?;
        rows.push_str(&row)?;
    }
    Ok(rows)
}

fn route_row(alloc: Global, line: u32) -> Result<String, AllocError>
    ensures { IfOk result (λ text. string_bytes text ≡ route_row line) }
{
    format!(in alloc; "L{line},X,L{line},3\n")
}

/// `trips.txt`.
pub fn trips_file(alloc: Global) -> Result<String, AllocError>
    ensures { IfOk result (λ text. string_bytes text ≡ trips_file) }
{
    let rows = all_trip_rows(alloc)?;
    with_header(alloc, "route_id,service_id,trip_id\n", &rows)
}

#[tactic(auto, unfolding(crate::specs::Texts::joined))]
fn all_trip_rows(alloc: Global) -> Result<String, AllocError>
    ensures { IfOk result (λ text. string_bytes text ≡ joined trip_rows 60) }
{
    let mut rows = String::new(alloc);
    for line in 0..60u32 {
        let more = trip_rows(alloc, line)?;
        rows.push_str(&more)?;
    }
    Ok(rows)
}

#[tactic(auto, unfolding(crate::specs::Texts::joined))]
fn trip_rows(alloc: Global, line: u32) -> Result<String, AllocError>
    ensures { IfOk result (λ text. string_bytes text ≡ trip_rows line) }
{
    let mut rows = String::new(alloc);
    for trip in 0..100u32 {
        let row = trip_row(alloc, line, trip)?;
        rows.push_str(&row)?;
    }
    Ok(rows)
}

fn trip_row(alloc: Global, line: u32, trip: u32) -> Result<String, AllocError>
    ensures { IfOk result (λ text. string_bytes text ≡ trip_row line trip) }
{
    format!(in alloc; "L{line},S,T{line}-{trip}\n")
}

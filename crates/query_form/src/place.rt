ghost use Rattle.std.specs.Prelude.{◌≡◌, ◌<◌, ◌≤◌, ◌^◌, IfOk, IfSome, length, option_map};
ghost use Rattle.std.specs.List.{position};
ghost use Rattle.otp_base.specs.Cut.{cut};
ghost use Rattle.otp_model.specs.Limits.{most_scale};
ghost use Rattle.otp_model.specs.Plane.{IsPlaceOf};
ghost use Rattle.query_form.specs.Place.{degrees_in, is_place, of_kind, place_of, stop_of};

use crate::fault::QueryFault;
use gtfs_records::degrees;
use otp_model::{Place, Point, Stop};

/// The place that a text spells: `stop:ID`, the id of a row of `location_type` 0 or 1, or `at:LAT,LON` in
/// degrees.
#[tactic(auto, unfolding(crate::specs::Place::place_of))]
pub fn place(stops: &[Stop], scale: u32, text: &str) -> Result<Place, QueryFault>
    requires few { length stops.now < 2 ^ 32 }
    requires scale { scale ≤ most_scale }
    ensures place { result ≡ place_of stops.now scale text.now }
    ensures of { IfOk result (IsPlaceOf stops.now) }
{
    match cut_at_colon(text) {
        Some((kind, rest)) => of_kind(stops, scale, kind, rest),
        None => Err(QueryFault::Bad),
    }
}

fn of_kind(stops: &[Stop], scale: u32, kind: &str, text: &str) -> Result<Place, QueryFault>
    requires few { length stops.now < 2 ^ 32 }
    requires scale { scale ≤ most_scale }
    ensures place { result ≡ of_kind stops.now scale kind.now text.now }
    ensures of { IfOk result (IsPlaceOf stops.now) }
{
    match kind {
        "stop" => stop(stops, text),
        "at" => point(scale, text),
        _ => Err(QueryFault::Bad),
    }
}

/// The stop, platform or station of this id.
fn stop(stops: &[Stop], id: &str) -> Result<Place, QueryFault>
    requires { length stops.now < 2 ^ 32 }
    ensures place { result ≡ stop_of stops.now id.now }
    ensures of { IfOk result (IsPlaceOf stops.now) }
{
    match number_of(stops, id) {
        Some(number) => Ok(Place::Stop(number as u32)),
        None => Err(QueryFault::UnknownPlace),
    }
}

fn number_of(stops: &[Stop], id: &str) -> Option<usize>
    ensures number { result ≡ position (is_place id.now) stops.now }
    ensures within { IfSome result (λ number. number < length stops.now) }
{
    stops.iter().position(|stop| is_place(stop, id))
}

fn is_place(stop: &Stop, id: &str) -> bool
    ensures { result ≡ is_place id.now stop.now }
{
    stop.is_nameable() && stop.id.is(id)
}

/// The point at a latitude and a longitude.
fn point(scale: u32, text: &str) -> Result<Place, QueryFault>
    requires { scale ≤ most_scale }
    ensures { result ≡ degrees_in scale (cut 44 text.now) }
{
    let Some((latitude, longitude)) = cut_at_comma(text) else {
        return Err(QueryFault::Bad);
    };
    let Some(latitude) = degrees(90_000_000, latitude.as_bytes()) else {
        return Err(QueryFault::Bad);
    };
    let Some(longitude) = degrees(180_000_000, longitude.as_bytes()) else {
        return Err(QueryFault::Bad);
    };
    let Point { x, y } = Point::at_degrees(scale, latitude, longitude);
    Ok(Place::At { x, y })
}

fn cut_at_colon(text: &str) -> Option<(&str, &str)>
    ensures { option_map (λ p. (p.0.now, p.1.now)) result ≡ cut 58 text.now }
{
    text.split_once(':')
}

fn cut_at_comma(text: &str) -> Option<(&str, &str)>
    ensures { option_map (λ p. (p.0.now, p.1.now)) result ≡ cut 44 text.now }
{
    text.split_once(',')
}

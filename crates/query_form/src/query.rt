ghost use Rattle.std.specs.Prelude.{◌≡◌, ◌≤◌, ◌<◌, ◌^◌, IfOk, IfSome, length};
ghost use Rattle.otp_model.specs.Limits.{most_scale};
ghost use Rattle.otp_model.specs.Plane.{IsPlaceOf};
ghost use Rattle.query_form.specs.Query.{Answers, IsAsked, cursor_at, number_at, place_at, query_of, request_in};

use crate::fault::{QueryFault, TargetFault};
use crate::pairs::{Pair, pairs_of, value_of};
use crate::parameter::{Parameter, Refusal};
use crate::place;
use otp_base::number_in;
use otp_model::{Cursor, Edges, Feed, Place, Request, Stop};
use paging::read_cursor;
use std::alloc::Global;

/// What a query asks for, over the stops of a feed and the plane of its edges.
///
/// The parameters are looked at in this order: `from` and `to`, each `stop:ID` of a row of location_type 0
/// or 1, or `at:LAT,LON`, and `time`, 0 to 9,999,999,999, are needed; `window`, 1 to 86,400 (3,600); `rides`,
/// 1 to 8 (4); `slack`, 0 to 3,600 (120); `walk_points`, 100 to 2,000 (200); `board_points`, 0 to 1,000,000
/// (60,000); `page`, 1 to 200 (20); `cursor`, the text of a cursor (none); `at_least`, 0 to 2^40 (0);
/// `pin`, 0 or 1 (0). The first fault is answered: a parameter stands more than once, is missing, isn't of the form or in the range, or
/// names no stop of the feed. Unknown parameters are passed over.
pub fn read_query(
    alloc: Global,
    query: &str,
    feed: &Feed,
    edges: &Edges,
) -> Result<Request, TargetFault>
    requires stops { length feed.now.stops < 2 ^ 32 }
    requires scale { edges.now.profile.scale ≤ most_scale }
    ensures request { Answers result (query_of query.now feed.now.stops edges.now.profile.scale) }
    ensures asked { IfOk result (IsAsked feed.now.stops) }
{
    let pairs = pairs_of(alloc, query)?;
    match request(&pairs, feed.stops.as_slice(), edges.profile.scale) {
        Ok(request) => Ok(request),
        Err(refusal) => Err(refusal.named(alloc)),
    }
}

/// The request of these parameters.
#[tactic(auto, unfolding(crate::specs::Query::request_in))]
fn request(pairs: &[Pair], stops: &[Stop], scale: u32) -> Result<Request, Refusal>
    requires stops { length stops.now < 2 ^ 32 }
    requires scale { scale ≤ most_scale }
    ensures request { result ≡ request_in pairs.now stops.now scale }
    ensures asked { IfOk result (IsAsked stops.now) }
{
    let from = place_at(pairs, Parameter::From, stops, scale)?;
    let to = place_at(pairs, Parameter::To, stops, scale)?;
    let time = number_at(pairs, Parameter::Time, 0, 9_999_999_999, None)?;
    let window = number_at(pairs, Parameter::Window, 1, 86_400, Some(3_600))?;
    let rides = number_at(pairs, Parameter::Rides, 1, 8, Some(4))?;
    let slack = number_at(pairs, Parameter::Slack, 0, 3_600, Some(120))?;
    let walk_points = number_at(pairs, Parameter::WalkPoints, 100, 2_000, Some(200))?;
    let board_points = number_at(pairs, Parameter::BoardPoints, 0, 1_000_000, Some(60_000))?;
    let page = number_at(pairs, Parameter::Page, 1, 200, Some(20))?;
    let cursor = cursor_at(pairs)?;
    let at_least = number_at(pairs, Parameter::AtLeast, 0, 1 << 40, Some(0))?;
    let pin = number_at(pairs, Parameter::Pin, 0, 1, Some(0))?;
    Ok(Request {
        from,
        to,
        time: time as i64,
        window: window as u32,
        rides: rides as u32,
        slack: slack as u32,
        walk_points: walk_points as u32,
        board_points: board_points as u32,
        page: page as u32,
        cursor,
        at_least,
        pin: pin == 1,
    })
}

/// The number of a parameter, from `low` to `high`, or the default if it may be missing.
#[tactic(auto, unfolding(crate::specs::Query::number_at))]
pub fn number_at(
    pairs: &[Pair],
    parameter: Parameter,
    low: u64,
    high: u64,
    default: Option<u64>,
) -> Result<u64, Refusal>
    requires { IfSome default (λ n. (low ≤ n) × (n ≤ high)) }
    ensures number { result ≡ number_at pairs.now parameter low high default }
    ensures range { IfOk result (λ n. (low ≤ n) × (n ≤ high)) }
{
    match value_of(pairs, parameter.name()) {
        Err(cause) => Err(parameter.refused(cause)),
        Ok(None) => match default {
            Some(number) => Ok(number),
            None => Err(parameter.refused(QueryFault::Missing)),
        },
        Ok(Some(text)) => match number_in(low, high, text) {
            Some(number) => Ok(number),
            None => Err(parameter.refused(QueryFault::Bad)),
        },
    }
}

/// The place of a parameter.
#[tactic(auto, unfolding(crate::specs::Query::place_at))]
fn place_at(
    pairs: &[Pair],
    parameter: Parameter,
    stops: &[Stop],
    scale: u32,
) -> Result<Place, Refusal>
    requires stops { length stops.now < 2 ^ 32 }
    requires scale { scale ≤ most_scale }
    ensures place { result ≡ place_at pairs.now parameter stops.now scale }
    ensures of { IfOk result (IsPlaceOf stops.now) }
{
    match value_of(pairs, parameter.name()) {
        Err(cause) => Err(parameter.refused(cause)),
        Ok(None) => Err(parameter.refused(QueryFault::Missing)),
        Ok(Some(text)) => match place::place(stops, scale, text) {
            Ok(place) => Ok(place),
            Err(cause) => Err(parameter.refused(cause)),
        },
    }
}

/// The cursor, if there is one.
#[tactic(auto, unfolding(crate::specs::Query::cursor_at))]
fn cursor_at(pairs: &[Pair]) -> Result<Option<Cursor>, Refusal>
    ensures { result ≡ cursor_at pairs.now }
{
    let parameter = Parameter::Cursor;
    match value_of(pairs, parameter.name()) {
        Err(cause) => Err(parameter.refused(cause)),
        Ok(None) => Ok(None),
        Ok(Some(text)) => match read_cursor(text) {
            Some(cursor) => Ok(Some(cursor)),
            None => Err(parameter.refused(QueryFault::Bad)),
        },
    }
}

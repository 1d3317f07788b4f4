ghost use Rattle.std.specs.Prelude.{◌≡◌, ◌≤◌, ◌^◌, IfOk};
ghost use Rattle.otp_model.specs.Sound.{AreServed};
ghost use Rattle.plan_json.specs.Body.{IsBodyOf};
ghost use Rattle.query_form.specs.Query.{IsAsked};
ghost use Rattle.reply_bodies.specs.Plans.{IsPlanOf, IsSearchable};

use otp_base::Memory;
use otp_model::{Edges, Feed, Request};
use plan_json::Body;
use planner::plan;
use std::alloc::Global;
use trip_patterns::Timetable;

/// The body of the reply to a request over a timetable, which stands for the schedule after so many commits: the page of its
/// best journeys and the direct walk.
pub fn plan_body<T: Timetable>(
    alloc: Global,
    feed: &Feed,
    edges: &Edges,
    request: &Request,
    timetable: &T,
    number: u64,
) -> Result<Body, Memory>
    requires searchable { IsSearchable feed.now edges.now }
    requires asked { IsAsked feed.now.stops request.now }
    requires served { AreServed feed.now (T.runs timetable.now) }
    requires few { number ≤ 2 ^ 40 }
    ensures plan { IfOk result (IsPlanOf (T.runs timetable.now) edges.now request.now number) }
    ensures body { IfOk result (IsBodyOf feed.now) }
{
    let page = plan(alloc, timetable, edges, request)?;
    Ok(Body::Plan {
        number,
        cursor: request.cursor,
        at_least: request.at_least,
        page,
    })
}

ghost use Rattle.std.specs.Prelude.{◌≡◌, ◌↔◌, ◌<◌, IfOk, IsTrue, length, take};
ghost use Rattle.std.specs.List.{All};
ghost use Rattle.otp_model.specs.Plane.{IsPlaceOf};
ghost use Rattle.otp_model.specs.Ranges.{CanSearch, CanWalk};
ghost use Rattle.otp_model.specs.Whole.{IsPage, left_of};
ghost use Rattle.walk_table.specs.Direct.{IsDirect};
ghost use Rattle.planner.specs.Entries.{IsEntry};

use otp_base::{List, Memory};
use otp_model::{Edges, Found, Page, Request, Run};
use paging::page;
use plain_search::all_best;
use range_search::best;
use std::alloc::Global;
use trip_patterns::Timetable;
use walk_table::direct;

/// The page of the best journeys over a timetable that a request asks for, whether more follow, and the least seconds of a
/// walk from one of its places to the other without a ride, if there is such a walk.
pub fn plan<T: Timetable>(
    alloc: Global,
    timetable: &T,
    edges: &Edges,
    request: &Request,
) -> Result<Page, Memory>
    requires { CanSearch (T.runs timetable.now) edges.now request.now }
    ensures page { IfOk result (λ page. IsPage (T.runs timetable.now) edges.now request.now page.found page.more) }
    ensures direct { IfOk result (λ page. IsDirect edges.now request.now.from request.now.to page.direct) }
    // Each entry of the page is a journey of the runs that departs in the window, with its value.
    ensures entries { IfOk result (λ page. All (IsEntry (T.runs timetable.now) edges.now request.now) page.found) }
{
    let best = best(alloc, timetable, edges, request)?;
    let page = page_of(alloc, edges, request, best)?;
    Ok(page)
}

/// The same over a list of runs, by enumeration.
pub fn plan_runs(
    alloc: Global,
    runs: &[Run],
    edges: &Edges,
    request: &Request,
) -> Result<Page, Memory>
    requires { CanSearch runs.now edges.now request.now }
    ensures page { IfOk result (λ page. IsPage runs.now edges.now request.now page.found page.more) }
    ensures direct { IfOk result (λ page. IsDirect edges.now request.now.from request.now.to page.direct) }
    ensures entries { IfOk result (λ page. All (IsEntry runs.now edges.now request.now) page.found) }
{
    let best = all_best(alloc, runs, edges, request)?;
    let page = page_of(alloc, edges, request, best)?;
    Ok(page)
}

/// The page of a whole list, and the direct walk.
fn page_of(
    alloc: Global,
    edges: &Edges,
    request: &Request,
    whole: Vec<Found>,
) -> Result<Page, Memory>
    requires walks { CanWalk edges.now.profile }
    requires from { IsPlaceOf edges.now.stops request.now.from }
    requires to { IsPlaceOf edges.now.stops request.now.to }
    ensures found { IfOk result (λ page. page.found ≡ take request.now.page (left_of request.now whole.items)) }
    ensures more { IfOk result (λ page. IsTrue page.more ↔ (request.now.page < length (left_of request.now whole.items))) }
    ensures direct { IfOk result (λ page. IsDirect edges.now request.now.from request.now.to page.direct) }
{
    let (found, more) = page_above(alloc, whole, request)?;
    let direct = direct(edges, &request.from, &request.to);
    Ok(Page {
        found,
        more,
        direct,
    })
}

/// The first entries of a whole list above the request's cursor, and whether more follow.
fn page_above(
    alloc: Global,
    whole: Vec<Found>,
    request: &Request,
) -> Result<(List<Found>, bool), Memory>
    ensures found { IfOk result (λ page. page.0 ≡ take request.now.page (left_of request.now whole.items)) }
    ensures more { IfOk result (λ page. IsTrue page.1 ↔ (request.now.page < length (left_of request.now whole.items))) }
{
    match &request.cursor {
        None => page(alloc, whole, None, request.page),
        Some(cursor) => page(alloc, whole, Some(&cursor.value), request.page),
    }
}

//! Plans and statuses, answered from views.
ghost use Rattle.std.specs.Prelude.{◌≡◌, None};
ghost use Rattle.std.specs.Arc.{arc_value};
ghost use Rattle.commit_history.specs.Entries.{IsEntry};
ghost use Rattle.otp_model.specs.Core.{History};
ghost use Rattle.otp_model.specs.declared.timetable.Feed.{Feed};
ghost use Rattle.pin_ring.specs.Kept.{IsViewOf};
ghost use Rattle.query_form.specs.Query.{IsAsked};
ghost use Rattle.query_form.specs.Target.{IsInRange};
ghost use Rattle.otp_session.specs.Grounds.{IsReady};
ghost use Rattle.otp_session.specs.Sessions.{StaysAt};
ghost use Rattle.otp_session.specs.Steps.{IsLook, IsPlanOver, IsSendable, LookStep, PlanStep, PlansOver, StatusStep, pin_of, pinned_by};

use crate::base::Ground;
use crate::session::Session;
use commit_history::{TakeFault, View};
use otp_model::Request;
use plan_json::Body;
use query_form::Asked;
use reply_bodies::{Reply, plan_body, turned_refusal};
use std::alloc::Global;

/// Answers a plan or a status from a view: a page that is pinned to a kept view from that one, and all else from one that the session
/// takes. It waits for nobody.
pub fn answer(alloc: Global, base: &Ground, session: &mut Session, asked: &Asked) -> Reply
    requires ready { IsReady base.now }
    requires feed { session.old.pass.feed ≡ arc_value base.now.feed }
    requires look { IsLook asked.now }
    requires range { IsInRange (arc_value base.now.feed).stops base.now.feeds asked.now }
    ensures step { LookStep (arc_value base.now.feed) base.now.edges asked.now session.old result session.new }
    ensures stays { StaysAt session.old session.new }
    ensures sendable { IsSendable (arc_value base.now.feed) result }
{
    match asked {
        Asked::Plan(request) => plan(alloc, base, session, request),
        Asked::Status => status(alloc, session),
        Asked::Update { .. } | Asked::Commit => unreachable!(),
    }
}

/// Answers a plan.
fn plan(alloc: Global, base: &Ground, session: &mut Session, request: &Request) -> Reply
    requires ready { IsReady base.now }
    requires feed { session.old.pass.feed ≡ arc_value base.now.feed }
    requires asked { IsAsked (arc_value base.now.feed).stops request.now }
    ensures step { PlanStep (arc_value base.now.feed) base.now.edges request.now session.old result session.new }
    ensures stays { StaysAt session.old session.new }
    ensures sendable { IsSendable (arc_value base.now.feed) result }
{
    if let Some(view) = pinned_view(session, request) {
        return page(alloc, base, request, view);
    }
    taken_plan(alloc, base, session, request)
}

/// The number of commits that a request pins its page to.
fn pin_of(request: &Request) -> Option<u64>
    ensures { result ≡ pin_of request.now }
{
    if !request.pin {
        return None;
    }
    match &request.cursor {
        Some(cursor) => Some(cursor.commit),
        None => None,
    }
}

/// The kept view that a request is pinned to, if there is one.
fn pinned_view<'a>(session: &'a Session, request: &Request) -> Option<&'a View>
    ensures { IsViewOf session.now.pass.feed (pinned_by request.now session.now.kept) result }
{
    match pin_of(request) {
        Some(number) => session.pinned(number),
        None => None,
    }
}

/// Answers a plan from a view that the session takes, and then keeps.
fn taken_plan(alloc: Global, base: &Ground, session: &mut Session, request: &Request) -> Reply
    requires ready { IsReady base.now }
    requires feed { session.old.pass.feed ≡ arc_value base.now.feed }
    requires asked { IsAsked (arc_value base.now.feed).stops request.now }
    ensures step { PlansOver (arc_value base.now.feed) base.now.edges request.now None session.old result session.new }
    ensures stays { StaysAt session.old session.new }
    ensures sendable { IsSendable (arc_value base.now.feed) result }
{
    let view = match session.take() {
        Ok(view) => view,
        Err(TakeFault::Turned) => return turned_refusal(alloc),
        Err(TakeFault::Memory) => return Reply::Memory,
    };
    let reply = page(alloc, base, request, &view);
    session.keep(view);
    reply
}

/// The page of a request over a view.
fn page(alloc: Global, base: &Ground, request: &Request, view: &View) -> Reply
    requires ready { IsReady base.now }
    requires asked { IsAsked (arc_value base.now.feed).stops request.now }
    requires entry { (history : History) × IsEntry (arc_value base.now.feed) history view.now.number (arc_value view.now.snapshot) }
    ensures plan { (history : History) → IsEntry (arc_value base.now.feed) history view.now.number (arc_value view.now.snapshot)
        → IsPlanOver (arc_value base.now.feed) base.now.edges request.now history result }
    ensures sendable { IsSendable (arc_value base.now.feed) result }
{
    match plan_body(
        alloc,
        &base.feed,
        &base.edges,
        request,
        &*view.snapshot,
        view.number,
    ) {
        Ok(body) => Reply::Answer { status: 200, body },
        Err(_) => Reply::Memory,
    }
}

/// Answers a status.
fn status(alloc: Global, session: &mut Session) -> Reply
    ensures step { StatusStep session.old result session.new }
    ensures stays { StaysAt session.old session.new }
    ensures sendable { (feed : Feed) → IsSendable feed result }
{
    let view = match session.take() {
        Ok(view) => view,
        Err(TakeFault::Turned) => return turned_refusal(alloc),
        Err(TakeFault::Memory) => return Reply::Memory,
    };
    Reply::Answer {
        status: 200,
        body: Body::Status {
            number: view.number,
        },
    }
}

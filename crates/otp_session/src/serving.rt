//! One request.
ghost use Rattle.std.specs.Prelude.{◌≡◌};
ghost use Rattle.std.specs.Arc.{arc_value};
ghost use Rattle.query_form.specs.Target.{IsInRange};
ghost use Rattle.otp_session.specs.Desks.{AskedStep, RequestStep};
ghost use Rattle.otp_session.specs.Grounds.{IsAt, IsGroundOf};
ghost use Rattle.otp_session.specs.Sessions.{StaysAt};
ghost use Rattle.otp_session.specs.Steps.{IsSendable};

use crate::answering::answer;
use crate::base::Ground;
use crate::desks::DeskAt;
use crate::session::Session;
use http_read::HttpRequest;
use otp_base::List;
use query_form::{Asked, read_target};
use reply_bodies::{Reply, target_refusal};
use std::alloc::Global;
use std::sync::Wait;

/// Serves a request: a plan and a status from a view of the session's, an update and a commit on the desk.
pub fn serve_request<R: Wait, A: DeskAt>(
    rt: &R,
    alloc: Global,
    base: &Ground,
    desk: &mut A,
    session: &mut Session,
    request: &HttpRequest,
) -> Reply
    requires base { IsGroundOf base.now (A.place desk.old) }
    requires at { IsAt (A.place desk.old) session.old }
    ensures step { RequestStep (arc_value base.now.feed) base.now.edges base.now.feeds request.now (A.state desk.old) session.old result (A.state desk.new) session.new }
    ensures place { A.place desk.new ≡ A.place desk.old }
    ensures stays { StaysAt session.old session.new }
    ensures sendable { IsSendable (arc_value base.now.feed) result }
{
    match read_target(
        alloc,
        request.method,
        request.target.as_str(),
        &base.feed,
        &base.edges,
        base.feeds,
    ) {
        Ok(asked) => serve_asked(rt, alloc, base, desk, session, &asked, &request.body),
        Err(fault) => target_refusal(alloc, fault),
    }
}

/// Serves what is asked.
fn serve_asked<R: Wait, A: DeskAt>(
    rt: &R,
    alloc: Global,
    base: &Ground,
    desk: &mut A,
    session: &mut Session,
    asked: &Asked,
    body: &List<u8>,
) -> Reply
    requires base { IsGroundOf base.now (A.place desk.old) }
    requires at { IsAt (A.place desk.old) session.old }
    requires range { IsInRange (arc_value base.now.feed).stops base.now.feeds asked.now }
    ensures step { AskedStep (arc_value base.now.feed) base.now.edges asked.now body.now (A.state desk.old) session.old result (A.state desk.new) session.new }
    ensures place { A.place desk.new ≡ A.place desk.old }
    ensures stays { StaysAt session.old session.new }
    ensures sendable { IsSendable (arc_value base.now.feed) result }
{
    match asked {
        Asked::Plan(_) | Asked::Status => answer(alloc, base, session, asked),
        Asked::Update { .. } | Asked::Commit => {
            desk.change(rt, alloc, session, asked, body).into_reply()
        }
    }
}

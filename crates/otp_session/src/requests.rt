//! One connection.
ghost use Rattle.std.specs.Prelude.{◌≡◌, ◌≤◌};
ghost use Rattle.std.specs.Arc.{arc_value};
ghost use Rattle.link_stream.specs.Transcript.{Transcript};
ghost use Rattle.otp_base.specs.Faults.{Rose};
ghost use Rattle.otp_session.specs.Connections.{Grows, ServesAs, StepOver};
ghost use Rattle.otp_session.specs.Grounds.{IsAt, IsGroundOf};
ghost use Rattle.otp_session.specs.Replied.{memory_text, refusal_text};
ghost use Rattle.otp_session.specs.Sessions.{StaysAt, opened};

use crate::base::Ground;
use crate::desks::DeskAt;
use crate::said::{refusal, replied};
use crate::serving::serve_request;
use crate::session::Session;
use http_read::{HeadFault, HttpRequest};
use link_stream::{Replied, Service, StreamEnd, serve_stream};
use otp_base::{List, Memory, Sink, Source};
use plan_json::{MEMORY_REPLY, memory_reply};
use std::alloc::Global;
use std::sync::Wait;

/// Serves requests over a ground.
#[derive(Clone, Copy)]
struct Requests<'a> {
    base: &'a Ground,
}

impl<A: DeskAt> Service<A, Session> for Requests<'_> {
    ghost fits = { λ service desk session. IsGroundOf service.base.now (A.place desk) × IsAt (A.place desk) session };

    ghost answers = { λ service request last replied before old after now.
        ServesAs A.state A.place (arc_value service.base.now.feed) service.base.now.edges service.base.now.feeds request last replied before old after now };

    ghost refusal = { refusal_text };

    ghost no_memory = { memory_text };

    fn reply<R: Wait>(
        &self,
        rt: &R,
        alloc: Global,
        desk: &mut A,
        session: &mut Session,
        request: &HttpRequest,
        last: bool,
    ) -> Replied {
        let reply = serve_request(rt, alloc, self.base, desk, session, request);
        replied(alloc, &self.base.feed, reply, request.close, last)
    }

    fn refuse(&self, alloc: Global, fault: HeadFault) -> Result<List<u8>, Memory> {
        refusal(alloc, self.base, fault)
    }

    fn memory_reply(&self) -> &[u8] {
        memory_reply();
        MEMORY_REPLY
    }
}

/// Reads the requests of a connection, serves each and writes its reply, in order. The session keeps no view at its start.
///
/// # Errors
///
/// None: how the connection ended is the answer. `ReadFault` and `WriteFault` come only where that count rose in this call.
pub fn serve_connection<R: Wait, A: DeskAt, I: Source, O: Sink>(
    rt: &R,
    alloc: Global,
    base: &Ground,
    desk: &mut A,
    session: &mut Session,
    source: &mut I,
    sink: &mut O,
) -> StreamEnd
    requires base { IsGroundOf base.now (A.place desk.old) }
    requires at { IsAt (A.place desk.old) session.old }
    // The connection is a transcript of what was read: each request by its step.
    ensures transcript { Transcript refusal_text memory_text (StepOver A.state A.place (arc_value base.now.feed) base.now.edges base.now.feeds) 0 (I.left source.old) (desk.old, opened session.old) (O.contents sink.old) result (I.left source.new) (desk.new, session.new) (O.contents sink.new) }
    // What the session knew begins what it knows.
    ensures grows { Grows session.old session.new }
    ensures place { A.place desk.new ≡ A.place desk.old }
    ensures stays { StaysAt session.old session.new }
    ensures later_reads { I.faults source.old ≤ I.faults source.new }
    ensures later_writes { O.faults sink.old ≤ O.faults sink.new }
    ensures read_cause { result ≡ StreamEnd.ReadFault → Rose (I.faults source.old) (I.faults source.new) }
    ensures write_cause { result ≡ StreamEnd.WriteFault → Rose (O.faults sink.old) (O.faults sink.new) }
{
    session.open();
    serve_stream(rt, alloc, &Requests { base }, desk, session, source, sink)
}

ghost use Rattle.std.specs.Prelude.{◌≡◌, ◌≢◌, ◌≤◌};
ghost use Rattle.otp_base.specs.Faults.{Rose};
ghost use Rattle.link_stream.specs.Transcript.{Transcript, step_of};
ghost use Rattle.link_stream.specs.Turns.{Answered, Turns, WritesLast, stream_of};

use crate::service::{Replied, Service};
use http_read::{Buffer, HeadFault, HttpRequest, Next, buffer, next_request};
use otp_base::{Sink, Source, put_all};
use std::alloc::Global;
use std::sync::Wait;

/// How a connection ended.
#[derive(Clone, Copy, Debug, PartialEq, Eq)]
pub enum StreamEnd {
    /// The input ended between two requests, a head was refused, or a reply closed the connection.
    Ended,
    /// The input ended inside a request.
    CutShort,
    /// A read failed.
    ReadFault,
    /// A write failed.
    WriteFault,
    /// As many requests were served as one call serves.
    Spent,
    /// Memory ran out, and the reply that says so was written.
    Memory,
}

/// What one turn of a connection came to.
#[derive(Clone, Copy, Debug, PartialEq, Eq)]
pub enum Turn {
    /// A request was served, and the connection is open.
    Open,
    Ends(StreamEnd),
}

/// How many requests one call serves.
const MOST_REQUESTS: u64 = 1_000_000;

/// Serves the requests of a connection, one after the other, and writes their replies.
///
/// Nothing is written for a request that is cut short. After a failed write a front of the replies was
/// written. The session's and the shared state may have changed whatever the end.
pub fn serve_stream<R: Wait, D, S, V: Service<D, S>, I: Source, O: Sink>(
    rt: &R,
    alloc: Global,
    service: &V,
    shared: &mut D,
    session: &mut S,
    source: &mut I,
    sink: &mut O,
) -> StreamEnd
    requires { V.fits service.now shared.old session.old }
    ensures fits { V.fits service.now shared.new session.new }
    ensures transcript { Transcript V.refusal V.no_memory (step_of (V.answers service.now)) 0 (I.left source.old) (shared.old, session.old) (O.contents sink.old) result (I.left source.new) (shared.new, session.new) (O.contents sink.new) }
    ensures later_reads { I.faults source.old ≤ I.faults source.new }
    ensures later_writes { O.faults sink.old ≤ O.faults sink.new }
    ensures read_cause { result ≡ StreamEnd.ReadFault → Rose (I.faults source.old) (I.faults source.new) }
    ensures write_cause { result ≡ StreamEnd.WriteFault → Rose (O.faults sink.old) (O.faults sink.new) }
{
    let Ok(mut buffer) = buffer(alloc) else {
        return give_up(service, sink);
    };
    for turn in 0..MOST_REQUESTS {
        let last = turn + 1 == MOST_REQUESTS;
        match serve_next(
            rt,
            alloc,
            service,
            shared,
            session,
            source,
            &mut buffer,
            sink,
            last,
        ) {
            Turn::Open => {}
            Turn::Ends(end) => return end,
        }
    }
    StreamEnd::Spent
}

/// Reads one request, serves it, and writes its reply.
fn serve_next<R: Wait, D, S, V: Service<D, S>, I: Source, O: Sink>(
    rt: &R,
    alloc: Global,
    service: &V,
    shared: &mut D,
    session: &mut S,
    source: &mut I,
    buffer: &mut Buffer,
    sink: &mut O,
    last: bool,
) -> Turn
    requires { V.fits service.now shared.old session.old }
    ensures fits { V.fits service.now shared.new session.new }
    ensures turns { Turns V.refusal V.no_memory (step_of (V.answers service.now)) last (stream_of buffer.old (I.left source.old)) (shared.old, session.old) (O.contents sink.old) result (stream_of buffer.new (I.left source.new)) (I.left source.new) (shared.new, session.new) (O.contents sink.new) }
    ensures later_reads { I.faults source.old ≤ I.faults source.new }
    ensures later_writes { O.faults sink.old ≤ O.faults sink.new }
    ensures read_cause { result ≡ Turn.Ends StreamEnd.ReadFault → Rose (I.faults source.old) (I.faults source.new) }
    ensures write_cause { result ≡ Turn.Ends StreamEnd.WriteFault → Rose (O.faults sink.old) (O.faults sink.new) }
{
    match next_request(alloc, source, buffer) {
        Next::Request(request) => {
            answer(rt, alloc, service, shared, session, &request, sink, last)
        }
        Next::End => Turn::Ends(StreamEnd::Ended),
        Next::Refused(fault) => Turn::Ends(refuse(alloc, service, fault, sink)),
        Next::CutShort => Turn::Ends(StreamEnd::CutShort),
        Next::ReadFault => Turn::Ends(StreamEnd::ReadFault),
        Next::Memory => Turn::Ends(give_up(service, sink)),
    }
}

/// Serves a request, and writes its reply.
fn answer<R: Wait, D, S, V: Service<D, S>, O: Sink>(
    rt: &R,
    alloc: Global,
    service: &V,
    shared: &mut D,
    session: &mut S,
    request: &HttpRequest,
    sink: &mut O,
    last: bool,
) -> Turn
    requires { V.fits service.now shared.old session.old }
    ensures fits { V.fits service.now shared.new session.new }
    ensures answered { Answered V.no_memory (step_of (V.answers service.now)) last request.now (shared.old, session.old) (O.contents sink.old) result (shared.new, session.new) (O.contents sink.new) }
    ensures later_writes { O.faults sink.old ≤ O.faults sink.new }
    ensures no_read { result ≢ Turn.Ends StreamEnd.ReadFault }
    ensures write_cause { result ≡ Turn.Ends StreamEnd.WriteFault → Rose (O.faults sink.old) (O.faults sink.new) }
{
    match service.reply(rt, alloc, shared, session, request, last) {
        Replied::Bytes { bytes, closes } => {
            if put_all(sink, bytes.as_slice()).is_err() {
                return Turn::Ends(StreamEnd::WriteFault);
            }
            if closes {
                return Turn::Ends(StreamEnd::Ended);
            }
            Turn::Open
        }
        Replied::Memory => Turn::Ends(give_up(service, sink)),
    }
}

/// Writes the reply to a head that is refused.
fn refuse<D, S, V: Service<D, S>, O: Sink>(
    alloc: Global,
    service: &V,
    fault: HeadFault,
    sink: &mut O,
) -> StreamEnd
    ensures written { WritesLast (V.refusal fault) V.no_memory (O.contents sink.old) result (O.contents sink.new) }
    ensures later_writes { O.faults sink.old ≤ O.faults sink.new }
    ensures write_cause { result ≡ StreamEnd.WriteFault → Rose (O.faults sink.old) (O.faults sink.new) }
{
    let Ok(bytes) = service.refuse(alloc, fault) else {
        return give_up(service, sink);
    };
    if put_all(sink, bytes.as_slice()).is_err() {
        return StreamEnd::WriteFault;
    }
    StreamEnd::Ended
}

/// Writes that memory ran out.
fn give_up<D, S, V: Service<D, S>, O: Sink>(service: &V, sink: &mut O) -> StreamEnd
    ensures written { WritesLast V.no_memory V.no_memory (O.contents sink.old) result (O.contents sink.new) }
    ensures not_ended { result ≢ StreamEnd.Ended }
    ensures later_writes { O.faults sink.old ≤ O.faults sink.new }
    ensures write_cause { result ≡ StreamEnd.WriteFault → Rose (O.faults sink.old) (O.faults sink.new) }
{
    if put_all(sink, service.memory_reply()).is_err() {
        return StreamEnd::WriteFault;
    }
    StreamEnd::Memory
}

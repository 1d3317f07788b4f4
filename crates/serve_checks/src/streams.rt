ghost use Rattle.std.specs.Prelude.{codes};

use http_read::{HeadFault, HttpRequest};
use link_stream::{Replied, Service, StreamEnd, serve_stream};
use otp_base::{List, Memory, MemorySink, MemorySource};
use std::alloc::Global;
use std::sync::Wait;
use std::test::Fail;

/// Replies with the target of each request, and counts them in its session.
struct Targets;

impl Service<u64, u64> for Targets {
    ghost fits = { λ _ _ _. Unit {0} };

    ghost answers = { λ _ _ _ _ _ _ _ _. Unit {0} };

    ghost refusal = { λ _. codes "refused" };

    ghost no_memory = { codes "memory" };

    fn reply<R: Wait>(
        &self,
        _rt: &R,
        alloc: Global,
        _shared: &mut u64,
        session: &mut u64,
        request: &HttpRequest,
        _last: bool,
    ) -> Replied {
        *session = session.saturating_add(1);
        if request.target.is("/memory") {
            return Replied::Memory;
        }
        match Vec::from_slice(alloc, request.target.as_str().as_bytes()) {
            Ok(bytes) => Replied::Bytes {
                bytes: List::from_vec(bytes),
                closes: request.close,
            },
            Err(_) => Replied::Memory,
        }
    }

    fn refuse(&self, alloc: Global, _fault: HeadFault) -> Result<List<u8>, Memory> {
        Ok(List::from_vec(Vec::from_slice(alloc, b"refused")?))
    }

    fn memory_reply(&self) -> &[u8] {
        b"memory"
    }
}

/// A connection: what comes in, which read and which write fail, if not 0, and what has to come of it.
#[derive(Drop)]
struct Case {
    sent: &'static str,
    fails: [u64; 2],
    received: &'static str,
    served: u64,
    end: StreamEnd,
}

/// What the connection came to: all that was written, how many requests were served, and its end.
fn serve<R: Wait>(
    rt: &R,
    alloc: Global,
    sent: &str,
    fails: [u64; 2],
) -> Result<(List<u8>, u64, StreamEnd), Fail> {
    let [read, write] = fails;
    let sent = List::from_vec(Vec::from_slice(alloc, sent.as_bytes())?);
    let read_fails = List::from_vec(Vec::from_slice(alloc, &[read])?);
    let write_fails = List::from_vec(Vec::from_slice(alloc, &[write])?);
    let mut source = MemorySource::new(sent, read_fails, 40);
    let mut sink = MemorySink::new(List::new(alloc), write_fails, 4);
    let (mut shared, mut session) = (0, 0);
    let end = serve_stream(
        rt,
        alloc,
        &Targets,
        &mut shared,
        &mut session,
        &mut source,
        &mut sink,
    );
    Ok((sink.bytes, session, end))
}

#[test]
fn serves_a_connection(rt: HostRuntime) -> Result<(), Fail> {
    for case in [
        Case {
            sent: "GET /first HTTP/1.1\r\n\r\nGET /second HTTP/1.1\r\n\r\n",
            fails: [0, 0],
            received: "/first/second",
            served: 2,
            end: StreamEnd::Ended,
        },
        Case {
            sent: "GET /first HTTP/1.0\r\n\r\nGET /second HTTP/1.1\r\n\r\n",
            fails: [0, 0],
            received: "/first",
            served: 1,
            end: StreamEnd::Ended,
        },
        Case {
            sent: "GET /first HTTP/1.1\r\n\r\nnonsense\r\n\r\n",
            fails: [0, 0],
            received: "/firstrefused",
            served: 1,
            end: StreamEnd::Ended,
        },
        Case {
            sent: "GET /first HTTP/1.1\r\n\r\nGET /second",
            fails: [0, 0],
            received: "/first",
            served: 1,
            end: StreamEnd::CutShort,
        },
        Case {
            sent: "GET /first HTTP/1.1\r\n\r\nGET /second HTTP/1.1\r\n\r\n",
            fails: [2, 0],
            received: "/first",
            served: 1,
            end: StreamEnd::ReadFault,
        },
        Case {
            sent: "GET /first HTTP/1.1\r\n\r\nGET /second HTTP/1.1\r\n\r\n",
            fails: [0, 4],
            received: "/first/sec",
            served: 2,
            end: StreamEnd::WriteFault,
        },
        Case {
            sent: "GET /memory HTTP/1.1\r\n\r\nGET /second HTTP/1.1\r\n\r\n",
            fails: [0, 0],
            received: "memory",
            served: 1,
            end: StreamEnd::Memory,
        },
    ] {
        let (received, served, end) = serve(&rt, rt.alloc(), case.sent, case.fails)?;
        assert_eq!(rt;
            received.as_slice(),
            case.received.as_bytes(),
            "after {}",
            case.sent
        );
        assert_eq!(rt; served, case.served);
        assert_eq!(rt; end, case.end);
    }
    Ok(())
}

ghost use Rattle.std.specs.Prelude.{◌≤◌};

use crate::{HeadFault, Method, Next, buffer, next_request};
use otp_base::{List, MemorySource, SteadySource};
use std::alloc::Global;
use std::process::Abort;
use std::test::Fail;

/// What is to stand at the front of a stream.
#[derive(Clone, Copy, Debug)]
enum Wanted<'a> {
    Request {
        method: Method,
        target: &'a str,
        close: bool,
        body: &'a [u8],
    },
    End,
    Refused(HeadFault),
    CutShort,
    ReadFault,
}

impl Wanted<'_> {
    fn is(&self, next: &Next) -> bool {
        match (self, next) {
            (
                Wanted::Request {
                    method,
                    target,
                    close,
                    body,
                },
                Next::Request(request),
            ) => {
                *method == request.method
                    && request.target.is(target)
                    && *close == request.close
                    && request.body.as_slice() == *body
            }
            (Wanted::Refused(wanted), Next::Refused(fault)) => wanted == fault,
            (Wanted::End, Next::End) => true,
            (Wanted::CutShort, Next::CutShort) => true,
            (Wanted::ReadFault, Next::ReadFault) => true,
            _ => false,
        }
    }
}

fn get(target: &str) -> Wanted<'_> {
    Wanted::Request {
        method: Method::Get,
        target,
        close: false,
        body: b"",
    }
}

fn source(alloc: Global, bytes: &[u8], fails: &[u64], most: usize) -> Result<MemorySource, Fail>
    requires { 1 ≤ most }
{
    let bytes = List::from_vec(Vec::from_slice(alloc, bytes)?);
    let fails = List::from_vec(Vec::from_slice(alloc, fails)?);
    Ok(MemorySource::new(bytes, fails, most))
}

/// Reads the items of a stream, whose reads give so many bytes each, and compares them.
fn reads(
    rt: &(impl Abort),
    alloc: Global,
    source: &mut MemorySource,
    wanted: &[Wanted],
) -> Result<(), Fail> {
    let mut buffer = buffer(alloc)?;
    for item in wanted {
        let next = next_request(alloc, source, &mut buffer);
        assert!(rt; item.is(&next), "{next:?} in place of {item:?}");
    }
    Ok(())
}

/// The same bytes whole, in pieces of one byte and of seven.
fn reads_in_pieces(
    rt: &(impl Abort),
    alloc: Global,
    bytes: &[u8],
    wanted: &[Wanted],
) -> Result<(), Fail> {
    reads(rt, alloc, &mut source(alloc, bytes, &[], 100_000)?, wanted)?;
    reads(rt, alloc, &mut source(alloc, bytes, &[], 1)?, wanted)?;
    reads(rt, alloc, &mut source(alloc, bytes, &[], 7)?, wanted)
}

const STATUS: &[u8] = b"GET /status HTTP/1.1\r\nHost: a\r\n\r\n";

#[test]
fn reads_requests(rt: HostRuntime) -> Result<(), Fail> {
    let alloc = rt.alloc();
    let post = Wanted::Request {
        method: Method::Post,
        target: "/updates/1",
        close: false,
        body: b"0123456",
    };
    let closing = Wanted::Request {
        method: Method::Get,
        target: "/status",
        close: true,
        body: b"",
    };
    for (bytes, wanted) in [
        (STATUS, get("/status")),
        // As curl, wrk and nginx's proxy write them.
        (
            b"GET /status HTTP/1.1\r\nHost: 127.0.0.1:8080\r\nUser-Agent: curl/8.5.0\r\nAccept: */*\r\n\r\n".as_slice(),
            get("/status"),
        ),
        (
            b"GET /status HTTP/1.1\r\nHost: 127.0.0.1:8080\r\n\r\n".as_slice(),
            get("/status"),
        ),
        (
            b"GET /status HTTP/1.0\r\nHost: 127.0.0.1:8080\r\nConnection: close\r\nUser-Agent: curl/8.5.0\r\nAccept: */*\r\n\r\n".as_slice(),
            closing,
        ),
        (
            b"POST /updates/1 HTTP/1.1\r\nHost: 127.0.0.1:8080\r\nUser-Agent: curl/8.5.0\r\nAccept: */*\r\nContent-Length: 7\r\nContent-Type: application/x-www-form-urlencoded\r\n\r\n0123456".as_slice(),
            post,
        ),
        // Lone line feeds, empty lines before, a length line in another case, a body that is dropped.
        (
            b"GET /status HTTP/1.1\nHost: a\n\n".as_slice(),
            get("/status"),
        ),
        (
            b"\r\n\nGET /status HTTP/1.1\r\n\r\n".as_slice(),
            get("/status"),
        ),
        (
            b"POST /updates/1 HTTP/1.1\r\ncONTENT-lENGTH:\t007 \r\n\r\n0123456".as_slice(),
            post,
        ),
        (
            b"GET /status HTTP/1.1\r\nContent-Length: 3\r\n\r\nabc".as_slice(),
            get("/status"),
        ),
        // What closes.
        (b"GET /status HTTP/1.0\r\n\r\n".as_slice(), closing),
        (
            b"GET /status HTTP/1.1\r\nConnection: x ,\tCLOSE\r\n\r\n".as_slice(),
            closing,
        ),
        (
            b"GET /status HTTP/1.1\r\nConnection: closed, keep-alive\r\n\r\n".as_slice(),
            get("/status"),
        ),
    ] {
        reads_in_pieces(&rt, alloc, bytes, &[wanted, Wanted::End])?;
        let mut twice = Vec::from_slice(alloc, bytes)?;
        twice.extend_from_slice(bytes)?;
        reads_in_pieces(&rt, alloc, twice.as_slice(), &[wanted, wanted, Wanted::End])?;
    }
    Ok(())
}

#[test]
fn refuses_heads(rt: HostRuntime) -> Result<(), Fail> {
    let alloc = rt.alloc();
    for (bytes, wanted) in [
        (b"".as_slice(), Wanted::End),
        (
            b"GET /status HTTP/1.1\r\nHost: a".as_slice(),
            Wanted::CutShort,
        ),
        (
            b"GET /status HTTP/1.1\r\nHost: a\r\n".as_slice(),
            Wanted::CutShort,
        ),
        (b"\r\n".as_slice(), Wanted::CutShort),
        (
            b"POST /commit HTTP/1.1\r\nContent-Length: 2\r\n\r\na".as_slice(),
            Wanted::CutShort,
        ),
        (
            b"GET /status\r\n\r\n".as_slice(),
            Wanted::Refused(HeadFault::Head),
        ),
        (
            b"GET /status HTTP/1.1\r\nHost a\r\n\r\n".as_slice(),
            Wanted::Refused(HeadFault::Head),
        ),
        (
            b"GET /status HTTP/1.1\r\nContent-Length: x\r\n\r\n".as_slice(),
            Wanted::Refused(HeadFault::Length),
        ),
        (
            b"GET /status HTTP/1.1\r\nContent-Length: 1\r\ncontent-length: 1\r\n\r\nab".as_slice(),
            Wanted::Refused(HeadFault::Length),
        ),
        (
            b"GET /status HTTP/1.1\r\nContent-Length: 0000000000000000001\r\n\r\na".as_slice(),
            Wanted::Refused(HeadFault::Length),
        ),
        (
            b"POST /commit HTTP/1.1\r\nContent-Length: 16777217\r\n\r\n".as_slice(),
            Wanted::Refused(HeadFault::Large),
        ),
        (
            b"POST /commit HTTP/1.1\r\nHost: a\r\n\r\n".as_slice(),
            Wanted::Refused(HeadFault::NoLength),
        ),
        (
            b"POST /commit HTTP/1.1\r\nTransfer-Encoding: chunked\r\nContent-Length: x\r\n\r\n".as_slice(),
            Wanted::Refused(HeadFault::Coding),
        ),
    ] {
        reads_in_pieces(&rt, alloc, bytes, &[wanted])?;
    }
    Ok(())
}

/// A head with so many header lines, and so many empty lines before it.
fn head_of(alloc: Global, blank: usize, lines: usize) -> Result<Vec<u8>, Fail> {
    let mut head = Vec::new(alloc);
    for _ in 0..blank {
        head.extend_from_slice(b"\n")?;
    }
    head.extend_from_slice(b"GET / HTTP/1.1\r\n")?;
    for _ in 0..lines {
        head.extend_from_slice(b"a: b\r\n")?;
    }
    head.extend_from_slice(b"\r\n")?;
    Ok(head)
}

/// A head of so many bytes.
fn head_of_size(alloc: Global, size: usize) -> Result<Vec<u8>, Fail> {
    let mut head = Vec::from_slice(alloc, b"GET / HTTP/1.1\r\na: ")?;
    for _ in 23..size {
        head.push(b'b')?;
    }
    head.extend_from_slice(b"\r\n\r\n")?;
    Ok(head)
}

#[test]
fn keeps_limits(rt: HostRuntime) -> Result<(), Fail> {
    let alloc = rt.alloc();
    let refused = Wanted::Refused(HeadFault::Headers);
    for (blank, lines, wanted) in [
        (0, 64, get("/")),
        (1, 64, get("/")),
        (2, 64, refused),
        (0, 65, refused),
        (64, 1, get("/")),
        (65, 1, refused),
    ] {
        let head = head_of(alloc, blank, lines)?;
        reads_in_pieces(&rt, alloc, head.as_slice(), &[wanted])?;
    }
    for (size, wanted) in [(16_384, get("/")), (16_385, refused), (40_000, refused)] {
        let head = head_of_size(alloc, size)?;
        reads_in_pieces(&rt, alloc, head.as_slice(), &[wanted])?;
    }
    Ok(())
}

#[test]
fn tells_a_failed_read(rt: HostRuntime) -> Result<(), Fail> {
    let alloc = rt.alloc();
    // The request comes in four reads, and its end in a fifth.
    for fails in 1..5 {
        let mut failing = source(alloc, STATUS, &[fails], 9)?;
        reads(&rt, alloc, &mut failing, &[Wanted::ReadFault])?;
        assert_eq!(rt; failing.faults, 1);
    }
    let mut failing = source(alloc, STATUS, &[5], 9)?;
    reads(
        &rt,
        alloc,
        &mut failing,
        &[get("/status"), Wanted::ReadFault],
    )?;
    let post = b"POST /commit HTTP/1.1\r\nContent-Length: 9\r\n\r\n123456789";
    for fails in 1..4 {
        let mut failing = source(alloc, post.as_slice(), &[fails], 18)?;
        reads(&rt, alloc, &mut failing, &[Wanted::ReadFault])?;
    }
    Ok(())
}

#[test]
fn reads_a_steady_source(rt: HostRuntime) -> Result<(), Fail> {
    let alloc = rt.alloc();
    let bytes = List::from_vec(Vec::from_slice(alloc, STATUS)?);
    let mut buffer = buffer(alloc)?;
    let mut source = SteadySource::new(bytes);
    for wanted in [get("/status"), Wanted::End] {
        let next = next_request(alloc, &mut source, &mut buffer);
        assert!(rt; wanted.is(&next), "{next:?} in place of {wanted:?}");
    }
    Ok(())
}

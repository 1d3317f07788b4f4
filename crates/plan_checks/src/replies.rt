use crate::queries::feed;
use otp_base::{List, Text};
use otp_model::Feed;
use plan_json::{Body, body_bytes, reply_bytes};
use std::alloc::Global;
use std::test::Fail;

fn text(alloc: Global, text: &str) -> Result<Text, Fail> {
    Ok(Text::from_str(alloc, text)?)
}

/// One body of each kind but a plan's.
fn bodies(alloc: Global) -> Result<Vec<Body>, Fail> {
    let mut bodies = Vec::new(alloc);
    bodies.push(Body::Status { number: 3 })?;
    bodies.push(Body::Updated {
        accepted: 2,
        commit: None,
        ignored: [0, 1, 2, 3, 4, 5, 6, 7, 18_446_744_073_709_551_615],
    })?;
    bodies.push(Body::Committed {
        number: 3,
        fresh: false,
    })?;
    bodies.push(Body::Refused {
        name: text(alloc, "turned")?,
    })?;
    bodies.push(Body::Parameter {
        name: text(alloc, "twice")?,
        parameter: text(alloc, "at_least")?,
    })?;
    bodies.push(Body::Offset {
        name: text(alloc, "cut")?,
        at: Some(37),
    })?;
    bodies.push(Body::Kept {
        name: text(alloc, "older")?,
        have: 1_714_981_600,
    })?;
    Ok(bodies)
}

/// Their bytes over the feed, a line for each.
const LINES: &str = r#"{"commit":3,"runs":0,"stops":6}
{"accepted":2,"commit":null,"ignored":[0,1,2,3,4,5,6,7,18446744073709551615]}
{"commit":3,"done":false}
{"error":"turned"}
{"error":"twice","parameter":"at_least"}
{"at":37,"error":"cut"}
{"error":"older","have":1714981600}
"#;

fn lines() -> &'static [u8] {
    LINES.as_bytes()
}

/// Writes the line of a body that is no plan's.
fn write_line(alloc: Global, lines: &mut List<u8>, feed: &Feed, body: &Body) -> Result<(), Fail> {
    let bytes = match body {
        Body::Plan { .. } => return Ok(()),
        _ => body_bytes(alloc, feed, body)?,
    };
    lines.extend_from_slice(bytes.as_slice())?;
    lines.push(b'\n')?;
    Ok(())
}

#[test]
fn writes_bodies(rt: HostRuntime) -> Result<(), Fail> {
    let alloc = rt.alloc();
    let feed = feed(alloc)?;
    let mut written = List::new(alloc);
    for body in &bodies(alloc)? {
        write_line(alloc, &mut written, &feed, body)?;
    }
    assert!(rt; written.as_slice() == lines());
    Ok(())
}

#[test]
fn writes_a_reply(rt: HostRuntime) -> Result<(), Fail> {
    let alloc = rt.alloc();
    let reply = reply_bytes(alloc, 422, false, b"{\"error\":\"turned\"}")?;
    assert!(rt;
        reply.as_slice()
            == b"HTTP/1.1 422 Unprocessable Content\r\nContent-Type: application/json\r\nContent-Length: 18\r\nConnection: keep-alive\r\n\r\n{\"error\":\"turned\"}".as_slice()
    );
    Ok(())
}

ghost use Rattle.std.specs.Prelude.{◌≡◌, IfOk, List, codes, string_bytes, true};
ghost use Rattle.otp_model.specs.declared.timetable.Feed.{Feed};
ghost use Rattle.plan_json.specs.Body.{body_text};
ghost use Rattle.plan_json.specs.Reply.{connection, connection_line, content_lines, is_status, reason_of, reply_text, status_line};
ghost use Rattle.plan_json.specs.declared.body.Body.TheVariants.{Refused};

use otp_base::{List, Memory};
use std::alloc::{AllocError, Global};

/// The reply where memory ran out: 503, after which the connection closes. It takes no memory to send it.
pub const MEMORY_REPLY: &[u8] =
    b"HTTP/1.1 503 Service Unavailable\r\nContent-Type: application/json\r\nContent-Length: 18\r\nConnection: close\r\n\r\n{\"error\":\"memory\"}";

/// `MEMORY_REPLY` is the reply of 503 that closes, with the body of a refusal of the name `memory`. It does
/// nothing when it runs.
pub fn memory_reply()
    ensures { (feed : Feed) → MEMORY_REPLY.now ≡ reply_text 503 true (body_text feed (Refused (codes "memory"))) }
{}

/// The reason phrase of a status (RFC 9110, section 15; RFC 6585, section 5).
fn reason_of(status: u16) -> &'static str
    ensures { result.now ≡ reason_of status }
{
    match status {
        200 => "OK",
        400 => "Bad Request",
        404 => "Not Found",
        405 => "Method Not Allowed",
        411 => "Length Required",
        413 => "Content Too Large",
        422 => "Unprocessable Content",
        431 => "Request Header Fields Too Large",
        501 => "Not Implemented",
        _ => "Service Unavailable",
    }
}

fn connection(close: bool) -> &'static str
    ensures { result.now ≡ connection close }
{
    if close { "close" } else { "keep-alive" }
}

fn status_line(alloc: Global, status: u16, reason: &str) -> Result<String, AllocError>
    ensures { IfOk result (λ text. string_bytes text ≡ status_line status reason.now) }
{
    format!(in alloc; "HTTP/1.1 {status} {reason}\r\n")
}

fn content_lines(alloc: Global, bytes: usize) -> Result<String, AllocError>
    ensures { IfOk result (λ text. string_bytes text ≡ content_lines bytes) }
{
    format!(in alloc; "Content-Type: application/json\r\nContent-Length: {bytes}\r\n")
}

fn connection_line(alloc: Global, connection: &str) -> Result<String, AllocError>
    ensures { IfOk result (λ text. string_bytes text ≡ connection_line connection.now) }
{
    format!(in alloc; "Connection: {connection}\r\n")
}

/// The bytes of a reply with this body of JSON, after which the connection closes or is kept. The status is one
/// of 200, 400, 404, 405, 411, 413, 422, 431, 501 and 503.
pub fn reply_bytes(alloc: Global, status: u16, close: bool, body: &[u8]) -> Result<List<u8>, Memory>
    requires { is_status status ≡ true }
    ensures { IfOk result (λ bytes. bytes ≡ reply_text status close body.now) }
{
    let mut head = status_line(alloc, status, reason_of(status))?;
    let content = content_lines(alloc, body.len())?;
    let connection = connection_line(alloc, connection(close))?;
    head.push_str(&content)?;
    head.push_str(&connection)?;
    head.push_str("\r\n")?;
    let mut bytes = List::from_vec(head.into_bytes());
    bytes.extend_from_slice(body)?;
    Ok(bytes)
}

//! What the text of a head says.

ghost use Rattle.std.specs.Prelude.{◌≡◌, ◌==◌, ◌||◌, ◌<◌, IsUtf8, IfSome, length, map, All};
ghost use Rattle.httparse.specs.Spans.{IsHeaderWithin, header_bytes};
ghost use Rattle.http_read.specs.Fields.{asks_to_close};
ghost use Rattle.http_read.specs.Head.{StartOf, ParsesHead, SizeOf, method_of};

use crate::fields::{asks_to_close, content_length, has_line};
use crate::request::{HeadFault, Method};
use httparse::Status;
use httparse::spans::{EMPTY_HEADER_SPAN, HeaderSpan, RequestSpans, parse_request};
use otp_base::Text;
use std::alloc::Global;

/// How many header lines a head may have.
pub const HEAD_LINES: usize = 64;

/// How long a body may be.
const BODY_BYTES: u64 = 16_777_216;

/// What a head asks for.
#[derive(Debug, Drop)]
pub struct Asked {
    pub method: Method,
    pub target: Text,
    pub close: bool,
    /// How many bytes of body follow.
    pub length: usize,
}

/// What reading a head gave.
#[derive(Debug, Drop)]
pub enum Start {
    Asks(Asked),
    Refused(HeadFault),
    /// Memory ran out.
    Memory,
}

/// Reads the text of a head.
pub fn read_start(alloc: Global, text: &[u8]) -> Start
    ensures { StartOf text.now result }
{
    let mut lines = [EMPTY_HEADER_SPAN; HEAD_LINES];
    let Some(head) = parse_whole(text, &mut lines) else {
        return Start::Refused(HeadFault::Head);
    };
    let method = method_of(head.method.of(text));
    match size_of(text, &lines[..head.headers], method) {
        Err(fault) => Start::Refused(fault),
        Ok(length) => {
            let close = head.version == 0 || asks_to_close(text, &lines[..head.headers]);
            match target_of(alloc, head.path.of(text)) {
                Some(target) => Start::Asks(Asked {
                    method,
                    target,
                    close,
                    length,
                }),
                None => Start::Memory,
            }
        }
    }
}

/// Where the parts of the text are, if it is a head, whole.
fn parse_whole(text: &[u8], lines: &mut [HeaderSpan]) -> Option<RequestSpans>
    requires { length lines.old ≡ 64 }
    ensures { ParsesHead text.now lines.new result }
{
    match parse_request(text, lines) {
        Ok(Status::Complete(head)) if head.len == text.len() => Some(head),
        _ => None,
    }
}

/// How long the body is, where the request isn't refused.
fn size_of(text: &[u8], lines: &[HeaderSpan], method: Method) -> Result<usize, HeadFault>
    requires { All (IsHeaderWithin (length text.now)) lines.now }
    ensures { SizeOf method (map (header_bytes text.now) lines.now) result }
{
    if has_line(text, lines, b"transfer-encoding") {
        return Err(HeadFault::Coding);
    }
    match content_length(text, lines) {
        Err(fault) => Err(fault),
        Ok(Some(length)) => {
            if length > BODY_BYTES {
                return Err(HeadFault::Large);
            }
            Ok(length as usize)
        }
        Ok(None) => {
            if method == Method::Post {
                return Err(HeadFault::NoLength);
            }
            Ok(0)
        }
    }
}

/// The method of this name.
fn method_of(name: &[u8]) -> Method
    ensures { result ≡ method_of name.now }
{
    if name == b"GET".as_slice() {
        Method::Get
    } else if name == b"POST".as_slice() {
        Method::Post
    } else {
        Method::Other
    }
}

/// The target as text, if there is memory for it.
fn target_of(alloc: Global, target: &[u8]) -> Option<Text>
    requires { IsUtf8 target.now }
    ensures { IfSome result (λ t. t ≡ target.now) }
{
    match str::from_utf8(target) {
        Ok(text) => Text::from_str(alloc, text).ok(),
        Err(_) => None,
    }
}

ghost use Rattle.std.specs.Prelude.{◌≡◌, ◌≤◌, [], IfOk, length};
ghost use Rattle.otp_base.specs.Faults.{Rose};
ghost use Rattle.http_read.specs.Held.{Answers, AsksFor, BodyFollows};

use crate::ahead::{Ahead, look_ahead};
use crate::body::{Rest, read_rest};
use crate::buffered::Buffer;
use crate::head::{Asked, HEAD_LINES, Start, read_start};
use crate::request::{HeadFault, HttpRequest, Method, Next};
use otp_base::{List, Memory, Source};
use std::alloc::Global;

/// An empty buffer, for the requests of one source.
pub fn buffer(alloc: Global) -> Result<Buffer, Memory>
    ensures { IfOk result (λ b. b ≡ []) }
{
    Buffer::new(alloc)
}

/// Reads the next request off what the buffer holds and the source has left.
///
/// A request leaves in the buffer what was read behind it. After any other answer the buffer is given
/// up. No read is asked for once the answer is known, so where a read failed, the bytes that were held and
/// read end before a request or inside one.
pub fn next_request<S: Source>(alloc: Global, source: &mut S, buffer: &mut Buffer) -> Next
    ensures item { Answers (S.left source.old) buffer.old (S.left source.new) buffer.new result }
    ensures room { length buffer.new ≤ 24576 }
    ensures later { S.faults source.old ≤ S.faults source.new }
    ensures cause { result ≡ Next.ReadFault → Rose (S.faults source.old) (S.faults source.new) }
{
    match look_ahead(source, buffer) {
        Ahead::Head { size, lines } => {
            if lines > HEAD_LINES {
                return Next::Refused(HeadFault::Headers);
            }
            match read_start(alloc, &buffer.as_slice()[..size]) {
                Start::Asks(asked) => {
                    buffer.take_front(size);
                    read_body(alloc, source, buffer, asked)
                }
                Start::Refused(fault) => Next::Refused(fault),
                Start::Memory => Next::Memory,
            }
        }
        Ahead::Spent => Next::Refused(HeadFault::Headers),
        Ahead::End => Next::End,
        Ahead::CutShort => Next::CutShort,
        Ahead::ReadFault => Next::ReadFault,
        Ahead::Memory => Next::Memory,
    }
}

/// Reads the body that follows a head.
fn read_body<S: Source>(alloc: Global, source: &mut S, buffer: &mut Buffer, asked: Asked) -> Next
    ensures body { BodyFollows (S.left source.old) buffer.old (S.left source.new) buffer.new asked result }
    ensures room { length buffer.new ≤ 24576 }
    ensures later { S.faults source.old ≤ S.faults source.new }
    ensures cause { result ≡ Next.ReadFault → Rose (S.faults source.old) (S.faults source.new) }
{
    let held = buffer.as_slice();
    let front = held.len().min(asked.length);
    let Ok(mut body) = Vec::from_slice(alloc, &held[..front]) else {
        return Next::Memory;
    };
    buffer.take_front(front);
    match read_rest(source, &mut body, asked.length) {
        Rest::Whole => Next::Request(request_of(alloc, asked, body)),
        Rest::CutShort => Next::CutShort,
        Rest::ReadFault => Next::ReadFault,
        Rest::Memory => Next::Memory,
    }
}

/// The request of a head and its body, which only a POST keeps.
fn request_of(alloc: Global, asked: Asked, body: Vec<u8>) -> HttpRequest
    ensures { AsksFor asked body.items result }
{
    let Asked {
        method,
        target,
        close,
        length: _,
    } = asked;
    let body = match method {
        Method::Post => List::from_vec(body),
        Method::Get | Method::Other => List::new(alloc),
    };
    HttpRequest {
        method,
        target,
        close,
        body,
    }
}

use otp_base::{List, Text};

/// The method of a request, as far as it matters here.
#[derive(Clone, Copy, Debug, PartialEq, Eq)]
pub enum Method {
    Get,
    Post,
    Other,
}

/// A request.
#[derive(Debug, Drop)]
pub struct HttpRequest {
    pub method: Method,
    /// The request target as it stands (RFC 9112, section 3.2).
    pub target: Text,
    /// Whether the connection closes after the reply.
    pub close: bool,
    /// The body of a POST. That of another request is dropped.
    pub body: List<u8>,
}

/// Why a head is refused. After a refusal the connection closes.
#[derive(Clone, Copy, Debug, PartialEq, Eq)]
pub enum HeadFault {
    /// It is no head of the grammar: 400.
    Head,
    /// It has more than 64 header lines, or no end within 67 lines and 16,384 bytes: 431.
    Headers,
    /// It names a transfer coding: 501.
    Coding,
    /// It has two `Content-Length` lines, or one that isn't 1 to 18 digits: 400.
    Length,
    /// Its body is longer than 16,777,216 bytes: 413.
    Large,
    /// It is a POST without `Content-Length`: 411.
    NoLength,
}

/// What stands at the front of a stream.
#[derive(Debug, Drop)]
pub enum Next {
    Request(HttpRequest),
    /// The input ended, with no byte of a further request.
    End,
    Refused(HeadFault),
    /// The input ended inside a request.
    CutShort,
    /// A read failed, and the source counted it.
    ReadFault,
    /// Memory ran out.
    Memory,
}

//! What the header lines of a head say, each given by where its name and its value are.

ghost use Rattle.std.specs.Prelude.{◌≡◌, ◌∷◌, [], ℕ, length, map, All, codes};
ghost use Rattle.httparse.specs.Spans.{IsHeaderWithin, header_bytes};
ghost use Rattle.http_read.specs.Fields.{asks_to_close, has_line, lists_close, values_of, LengthOf};

use crate::request::HeadFault;
use crate::text::{is_same, trim};
use httparse::spans::HeaderSpan;
use otp_base::number_of_bytes;

/// Whether some line has the name.
pub fn has_line(text: &[u8], lines: &[HeaderSpan], name: &[u8]) -> bool
    requires { All (IsHeaderWithin (length text.now)) lines.now }
    ensures { result ≡ has_line name.now (map (header_bytes text.now) lines.now) }
{
    for line in lines {
        if is_same(line.name.of(text), name) {
            return true;
        }
    }
    false
}

/// The one `Content-Length`, if there is a line of that name.
pub fn content_length(text: &[u8], lines: &[HeaderSpan]) -> Result<Option<u64>, HeadFault>
    requires { All (IsHeaderWithin (length text.now)) lines.now }
    ensures { LengthOf (values_of (codes "content-length") (map (header_bytes text.now) lines.now)) result }
{
    let mut found = None;
    for line in lines {
        if is_same(line.name.of(text), b"content-length") {
            if found.is_some() {
                return Err(HeadFault::Length);
            }
            let Some(length) = number_of_bytes(line.value.of(text)) else {
                return Err(HeadFault::Length);
            };
            found = Some(length);
        }
    }
    Ok(found)
}

/// Whether a `Connection` line asks to close.
pub fn asks_to_close(text: &[u8], lines: &[HeaderSpan]) -> bool
    requires { All (IsHeaderWithin (length text.now)) lines.now }
    ensures { result ≡ asks_to_close (map (header_bytes text.now) lines.now) }
{
    for line in lines {
        if is_same(line.name.of(text), b"connection") && lists_close(line.value.of(text)) {
            return true;
        }
    }
    false
}

/// Whether one of the parts between commas is `close`.
fn lists_close(value: &[u8]) -> bool
    ensures { result ≡ lists_close value.now }
{
    value
        .split(|byte| *byte == b',')
        .any(|part| is_same(trim(part), b"close"))
}

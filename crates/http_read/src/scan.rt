//! The search for the end of a head. Each byte is looked at once, however the bytes come.

ghost use Rattle.std.specs.Prelude.{◌≡◌, ◌+◌, ◌<◌, ◌≤◌, [], length, take, MatchBool};
ghost use Rattle.http_read.specs.Lines.{is_empty_line};
ghost use Rattle.http_read.specs.Scan.{IsAtMark, IsScan, Sees};

/// The bytes in which a mark is looked for.
pub const HEAD_BYTES: usize = 16_384;

/// The line feeds in which a mark is looked for.
const HEAD_FEEDS: usize = 67;

/// How far the front of the buffer was looked at.
#[derive(Clone, Copy, Debug)]
pub struct Scan {
    /// How many bytes were looked at.
    at: usize,
    /// Where the line that isn't whole yet begins.
    line: usize,
    /// How many lines are whole.
    feeds: usize,
    /// How many empty lines stand before the request line.
    blank: usize,
    /// Whether the request line is whole.
    begun: bool,
}

/// What the search found.
#[derive(Clone, Copy, Debug)]
pub enum Seen {
    /// The head has this size, and this many lines between the request line and the mark.
    Mark { size: usize, lines: usize },
    /// There is no mark within the limits.
    Spent,
    /// There is no mark yet.
    More,
}

/// Whether a line has nothing in it but its end.
fn is_empty_line(line: &[u8]) -> bool
    ensures { result ≡ is_empty_line line.now }
{
    line == b"\r\n".as_slice() || line == b"\n".as_slice()
}

impl Scan {
    pub fn new() -> Scan
        ensures scan { IsScan [] result }
        ensures at { result.at ≡ 0 }
    {
        Scan {
            at: 0,
            line: 0,
            feeds: 0,
            blank: 0,
            begun: false,
        }
    }

    /// Looks on, up to the mark or the end of the bytes.
    pub fn go_on(&mut self, bytes: &[u8]) -> Seen
        requires room { self.old.at ≤ length bytes.now }
        requires scan { IsScan (take self.old.at bytes.now) self.old }
        ensures { Sees bytes.now self.new result }
    {
        while self.at < HEAD_BYTES && self.feeds < HEAD_FEEDS {
            if self.at == bytes.len() {
                return Seen::More;
            }
            if self.look(bytes) {
                return Seen::Mark {
                    size: self.at,
                    lines: self.feeds - self.blank - 2,
                };
            }
        }
        Seen::Spent
    }

    /// Looks at one byte more, and says whether the mark ends with it.
    fn look(&mut self, bytes: &[u8]) -> bool
        requires room { self.old.at < length bytes.now }
        requires few { self.old.feeds < 67 }
        requires small { self.old.at < 16384 }
        requires scan { IsScan (take self.old.at bytes.now) self.old }
        ensures size { self.new.at ≡ self.old.at + 1 }
        ensures found { MatchBool result (IsAtMark (take self.new.at bytes.now) self.new) (IsScan (take self.new.at bytes.now) self.new) }
    {
        let from = self.line;
        let end = self.at + 1;
        if bytes[self.at] != b'\n' {
            self.at = end;
            return false;
        }
        self.at = end;
        self.line = end;
        self.feeds += 1;
        if !is_empty_line(&bytes[from..end]) {
            self.begun = true;
            return false;
        }
        if self.begun {
            return true;
        }
        self.blank += 1;
        false
    }
}

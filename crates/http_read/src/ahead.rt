ghost use Rattle.std.specs.Prelude.{◌≡◌, ◌≤◌, length};
ghost use Rattle.otp_base.specs.Faults.{Rose};
ghost use Rattle.http_read.specs.Held.{EndsSo, IsAhead, LooksAhead};

use crate::buffered::{Buffer, Filled};
use crate::scan::{Scan, Seen};
use otp_base::Source;

/// What stands at the front of the stream, as far as the mark says.
#[derive(Clone, Copy, Debug)]
pub enum Ahead {
    /// A head of this size, with this many lines between the request line and the mark.
    Head { size: usize, lines: usize },
    /// No head within the limits.
    Spent,
    /// Nothing.
    End,
    /// Less than a whole head, and the input ended.
    CutShort,
    /// A read failed.
    ReadFault,
    /// Memory ran out.
    Memory,
}

/// Reads up to the mark.
pub fn look_ahead<S: Source>(source: &mut S, buffer: &mut Buffer) -> Ahead
    ensures stream { LooksAhead (S.left source.old) buffer.old (S.left source.new) buffer.new result }
    ensures found { IsAhead buffer.new result }
    ensures room { length buffer.new ≤ 24576 }
    ensures later { S.faults source.old ≤ S.faults source.new }
    ensures cause { result ≡ Ahead.ReadFault → Rose (S.faults source.old) (S.faults source.new) }
{
    let mut scan = Scan::new();
    'reads: loop {
        match scan.go_on(buffer.as_slice()) {
            Seen::Mark { size, lines } => return Ahead::Head { size, lines },
            Seen::Spent => return Ahead::Spent,
            Seen::More => match buffer.fill(source) {
                Filled::More => {}
                Filled::End => return at_end(buffer),
                Filled::Failed => return Ahead::ReadFault,
                Filled::Memory => return Ahead::Memory,
            },
        }
    }
}

/// What stands there where the input ended before a mark.
fn at_end(buffer: &Buffer) -> Ahead
    ensures { EndsSo buffer.now result }
{
    if buffer.as_slice().is_empty() {
        Ahead::End
    } else {
        Ahead::CutShort
    }
}

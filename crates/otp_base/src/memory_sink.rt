ghost use Rattle.std.specs.Prelude.{◌≡◌, Some, None, ◌≤◌};

use crate::list::List;
use crate::sink::{Put, Sink};

/// A sink in memory, whose calls with the numbers in `fails`, counted from 1, fail. A call takes at
/// most `most` bytes. A sink that can't grow fails, and counts it.
#[derive(Debug, Drop)]
pub struct MemorySink {
    pub bytes: List<u8>,
    pub fails: List<u64>,
    pub most: usize,
    pub calls: u64,
    pub faults: u64,
    pub ghost some: { 1 ≤ most },
}

impl MemorySink {
    /// A sink that holds these bytes.
    pub fn new(bytes: List<u8>, fails: List<u64>, most: usize) -> MemorySink
        requires { 1 ≤ most }
        ensures contents { result.bytes ≡ bytes }
        ensures none { result.faults ≡ 0 }
    {
        MemorySink {
            bytes,
            fails,
            most,
            calls: 0,
            faults: 0,
        }
    }
}

impl Sink for MemorySink {
    ghost contents = { λ s. Some s.bytes };

    ghost faults = { λ s. s.faults };

    fn write(&mut self, piece: &[u8]) -> Put {
        self.calls = self.calls.saturating_add(1);
        let count = piece.len().min(self.most);
        if self.fails.as_slice().contains(&self.calls)
            || self.bytes.extend_from_slice(&piece[..count]).is_err()
        {
            self.faults = self.faults.saturating_add(1);
            return Put::Failed;
        }
        Put::Took(count)
    }
}

/// A sink that never fails: it takes each piece whole and keeps no byte, so it tells nothing.
#[derive(Clone, Copy, Debug)]
pub struct SteadySink;

impl Sink for SteadySink {
    ghost contents = { λ _. None };

    ghost faults = { λ _. 0 };

    fn write(&mut self, piece: &[u8]) -> Put {
        Put::Took(piece.len())
    }
}

ghost use Rattle.std.specs.Prelude.{◌≡◌, ◌<◌, ◌≤◌, ◌++◌, Some, drop, length, take};
ghost use Rattle.otp_base.specs.Source.{Takes, WithinSlice};

use crate::list::List;
use crate::source::{Got, Source};

/// A source in memory, whose calls with the numbers in `fails`, counted from 1, fail. A call gives at
/// most `most` bytes.
#[derive(Debug, Drop)]
pub struct MemorySource {
    pub bytes: List<u8>,
    pub at: usize,
    pub fails: List<u64>,
    pub most: usize,
    pub calls: u64,
    pub faults: u64,
    pub ghost some: { 1 ≤ most },
}

impl MemorySource {
    /// A source that was not read yet.
    pub fn new(bytes: List<u8>, fails: List<u64>, most: usize) -> MemorySource
        requires { 1 ≤ most }
        ensures left { drop result.at result.bytes ≡ bytes }
        ensures none { result.faults ≡ 0 }
    {
        MemorySource {
            bytes,
            at: 0,
            fails,
            most,
            calls: 0,
            faults: 0,
        }
    }
}

impl Source for MemorySource {
    ghost left = { λ s. Some (drop s.at s.bytes) };

    ghost faults = { λ s. s.faults };

    fn read(&mut self, into: &mut [u8]) -> Got {
        self.calls = self.calls.saturating_add(1);
        if self.fails.as_slice().contains(&self.calls) {
            self.faults = self.faults.saturating_add(1);
            return Got::Failed;
        }
        let room = into.len().min(self.most);
        give(self.bytes.as_slice(), &mut self.at, &mut into[..room])
    }
}

/// A source in memory that never fails: each read gives as much as the slice and what is left allow.
#[derive(Debug, Drop)]
pub struct SteadySource {
    pub bytes: List<u8>,
    pub at: usize,
}

impl SteadySource {
    /// A source that was not read yet.
    pub fn new(bytes: List<u8>) -> SteadySource
        ensures { result ≡ record { bytes = bytes; at = 0 } }
    {
        SteadySource { bytes, at: 0 }
    }
}

impl Source for SteadySource {
    ghost left = { λ s. Some (drop s.at s.bytes) };

    ghost faults = { λ _. 0 };

    fn read(&mut self, into: &mut [u8]) -> Got {
        give(self.bytes.as_slice(), &mut self.at, into)
    }
}

/// Gives bytes from a place on, as many as there is room for, and moves the place past them.
fn give(bytes: &[u8], at: &mut usize, into: &mut [u8]) -> Got
    requires { 0 < length into.old }
    ensures bound { WithinSlice (length into.old) result }
    ensures bytes { Takes (drop at.old bytes.now) (drop at.new bytes.now) into.new result }
    ensures fine { result ≡ Got.Failed → ⊥ }
{
    let from = *at;
    if from >= bytes.len() {
        return Got::End;
    }
    let count = into.len().min(bytes.len() - from);
    into[..count].copy_from_slice(&bytes[from..from + count]);
    *at = from + count;
    Got::Bytes(count)
}

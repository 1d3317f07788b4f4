ghost use Rattle.std.specs.Prelude.{◌≡◌, None};

use crate::source::{Got, Source};
use std::io::Read;

/// A reader of the machine, as a socket. What it has left is not told.
#[derive(Drop)]
pub struct StdSource<R: Read + Drop> {
    pub reader: R,
    pub faults: u64,
}

impl<R: Read + Drop> StdSource<R> {
    /// A source over a reader that has not failed yet.
    pub fn new(reader: R) -> StdSource<R>
        ensures { result.faults ≡ 0 }
    {
        StdSource { reader, faults: 0 }
    }
}

impl<R: Read + Drop> Source for StdSource<R> {
    ghost left = { λ _. None };

    ghost faults = { λ s. s.faults };

    fn read(&mut self, into: &mut [u8]) -> Got {
        match self.reader.read(into) {
            Ok(count) if count > 0 => Got::Bytes(count),
            Ok(_) => Got::End,
            Err(_) => {
                self.faults = self.faults.saturating_add(1);
                Got::Failed
            }
        }
    }
}

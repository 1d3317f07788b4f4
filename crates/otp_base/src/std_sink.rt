ghost use Rattle.std.specs.Prelude.{◌≡◌, None};

use crate::sink::{Put, Sink};
use std::io::Write;

/// A writer of the machine, as standard output. What it took is not told.
#[derive(Drop)]
pub struct StdSink<W: Write + Drop> {
    pub writer: W,
    pub faults: u64,
}

impl<W: Write + Drop> StdSink<W> {
    /// A sink over a writer that has not failed yet.
    pub fn new(writer: W) -> StdSink<W>
        ensures { result.faults ≡ 0 }
    {
        StdSink { writer, faults: 0 }
    }
}

impl<W: Write + Drop> Sink for StdSink<W> {
    ghost contents = { λ _. None };

    ghost faults = { λ s. s.faults };

    fn write(&mut self, piece: &[u8]) -> Put {
        match self.writer.write(piece) {
            Ok(count) if count > 0 => Put::Took(count),
            _ => {
                self.faults = self.faults.saturating_add(1);
                Put::Failed
            }
        }
    }
}
